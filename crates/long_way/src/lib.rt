// The long way of an observation: what is found in its item's latest entries decides, and it is recorded where there is
// room for it.
#![tactic(auto)]

ghost use Rattle.std.specs.Prelude.{◌≡◌, ◌<◌, true};
ghost use Rattle.spec.specs.Model.{items, category};
ghost use Rattle.history.specs.Observations.{Head};
ghost use Rattle.plain.specs.Short.{formed_in};
ghost use Rattle.short_way.specs.Found.{found_in, observed_in, recorded_in, NewIfPlain};

use entries::Entries;
use judging::Judged;
use model::Words;
use observations::{Modelled, Store};
use spec::{Noted, ObserveAnswer, Refusal};

// One observation more as last + 1, where a number is left and the entry that it overwrites may go. Item, time and word
// stand apart, here and below, as at plain::add_plain.
fn record(
    model: &Words<'_>,
    observations: &mut [u64],
    item: u64,
    time: u64,
    word: u64,
) -> ObserveAnswer
    requires head { Head (items model.now) observations.old }
    requires item_bound { item < items model.now }
    requires item_value { formed_in model.now observations.old item ≡ true }
    ensures { let x = recorded_in model.now observations.old item time word in
        (result ≡ x.answer) × (observations.new ≡ x.observations) }
{
    let before = Store::of_model(model, observations);
    recording::room_for(Modelled {
        model: &*model,
        store: &before,
    })?;
    Ok(Noted::Recorded(recording::add(model, observations, item, time, word)))
}

// What is found in an item's latest, of a packed word that is known to be new where the item has no conditions.
fn judge_latest(source: Modelled<'_>, item: u64, word: u64) -> Result<Judged, Refusal>
    requires item_bound { item < items source.model.now }
    requires new_if_plain { let is = found_in source.model.now source.store.now item word in
        NewIfPlain (category source.model.now item) is }
    ensures { result ≡ found_in source.entry.model.now source.entry.store.now item word }
{
    if source.model.category(item) != spec::CONDITION {
        return Ok(Judged::New);
    }
    let entries = Entries::of(source.store.slice(), source.store.latest(), item);
    judging::judge(&entries, item, word)
}

// The long way of a value that its item takes: what is found in its latest decides.
#[tactic(auto, using(crate::proofs::Laws::found_ways))]
pub fn observe_long(
    model: &Words<'_>,
    observations: &mut [u64],
    item: u64,
    time: u64,
    word: u64,
) -> ObserveAnswer
    requires head { Head (items model.now) observations.old }
    requires item_bound { item < items model.now }
    requires new_if_plain { NewIfPlain (category model.now item) (found_in model.now observations.old item word) }
    ensures { let x = observed_in model.now observations.old item time word in
        (result ≡ x.answer) × (observations.new ≡ x.observations) }
{
    let before = Store::of_model(model, observations);
    let found = judge_latest(
        Modelled {
            model: &*model,
            store: &before,
        },
        item,
        word,
    );
    match found? {
        Judged::Repeated => Ok(Noted::Same),
        Judged::New => record(model, observations, item, time, word),
    }
}
