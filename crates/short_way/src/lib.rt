// The short way of an observation: an item without conditions, whose one latest word decides. What it saves stands at
// plain's head.
#![tactic(auto)]

ghost use Rattle.std.specs.Prelude.{◌≡◌, ◌<◌, get_or};
ghost use Rattle.spec.specs.Value.{repeats};
ghost use Rattle.spec.specs.Model.{items, category};
ghost use Rattle.history.specs.Observations.{Head, ring_size, latest_at, item_row};
ghost use Rattle.short_way.specs.Found.{found_in, observed_in, Shortened};

use model::Words;
use observations::{Modelled, Store};
use spec::Noted;

// Whether a packed word repeats the latest of its item. A discrete item's latest isn't read.
fn repeats(source: Modelled<'_>, item: u64, word: u64) -> bool
    requires { item < items source.model.now }
    ensures { let model = source.entry.model.now in
        let st = source.entry.store.now in
        let latest = item_row st (latest_at (ring_size st)) (items model) item in
        result ≡ repeats (category model item) (get_or latest 2 0) word }
{
    source.model.category(item) != spec::DISCRETE && source.store.latest_word(item) == word
}

// The short way: a value of an item without conditions that takes it, whose one latest word decides. None, and nothing
// is changed, where there is more to it. Item, time and word stand apart: an addition needs the three by themselves,
// and a clause of who hands them on would name each all the same.
pub fn observe_short(
    model: &Words<'_>,
    observations: &mut [u64],
    item: u64,
    time: u64,
    word: u64,
) -> Option<Noted>
    requires head { Head (items model.now) observations.old }
    requires item_bound { item < items model.now }
    ensures { let st = observations.old in
        let is = found_in model.now st item word in
        let x = observed_in model.now st item time word in
        Shortened result (category model.now item) is x st observations.new }
{
    if model.category(item) == spec::CONDITION {
        return None;
    }
    let before = Store::of_model(model, observations);
    if repeats(
        Modelled {
            model: &*model,
            store: &before,
        },
        item,
        word,
    ) {
        return Some(Noted::Same);
    }
    plain::add_plain(model, observations, item, time, word).map(Noted::Recorded)
}
