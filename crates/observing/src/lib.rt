// What observe does behind the checks of model and head: an item and its value are refused, repeat the item's
// latest, or are recorded.
#![tactic(auto)]

ghost use Rattle.std.specs.Prelude.{◌≡◌, ℕ, ◌<◌, ◌^◌, Option};
ghost use Rattle.spec.specs.Value.{decode};
ghost use Rattle.spec.specs.declared.Value.{Value};
ghost use Rattle.spec.specs.Model.{items, category};
ghost use Rattle.history.specs.Observations.{Head};
ghost use Rattle.history.specs.Calls.{time_or, observe_item};
ghost use Rattle.short_way.specs.Found.{observed_in};
ghost use Rattle.observing.specs.Taken.{taken};

use long_way::observe_long;
use model::Words;
use short_way::observe_short;
use spec::{ObserveAnswer, Refusal, Value};

// The time, or the host's where it is missing.
pub fn time_or(time: u64, host: u64) -> u64
    ensures { result ≡ time_or time host }
{
    if time == 0 { host } else { time }
}

// The packed word of an item of the category and a value, where the item takes it.
fn taken(category: u64, item: u64, value: Value) -> Option<u64>
    requires { item < 2 ^ 24 }
    ensures { result ≡ taken category item value }
{
    value::takes(category, value).then_some(value::pack(item, value))
}

// The same of a value's word, which isn't taken apart. No then_some: a word that the item doesn't take may not fit.
fn taken_word(category: u64, item: u64, word: u64) -> Option<u64>
    requires { item < 2 ^ 24 }
    ensures { result ≡ taken category item (decode word) }
{
    if value::takes_word(category, word) {
        Some(value::pack_word(item, word))
    } else {
        None
    }
}

// An observation of a packed word that its item takes: what is found decides. Apart, since it stands once for both
// calls, and what is left of these is small enough to be joined into who makes them.
fn observe_taken(
    model: &Words<'_>,
    observations: &mut [u64],
    item: u64,
    time: u64,
    word: u64,
) -> ObserveAnswer
    requires head { Head (items model.now) observations.old }
    requires item_bound { item < items model.now }
    ensures { let x = observed_in model.now observations.old item time word in
        (result ≡ x.answer) × (observations.new ≡ x.observations) }
{
    match observe_short(model, observations, item, time, word) {
        Some(noted) => Ok(noted),
        None => observe_long(model, observations, item, time, word),
    }
}

// An observation of an item, its packed word told by its category: refused, Same where it repeats the item's latest, or
// recorded. Each caller has an instance of its own, which the compiler joins into it: the walk over a batch needs that.
// Item, time and value stand apart: each caller would join them only for them to be taken apart here.
fn observe_with<F: FnOnce(u64) -> Option<u64>>(
    model: &Words<'_>,
    observations: &mut [u64],
    item: u64,
    time: u64,
    packed: F,
) -> ObserveAnswer
    requires head { Head (items model.now) observations.old }
    requires callable { item < 2 ^ 24 → F.pre packed (category model.now item) }
    ensures { let model = model.entry.now in
        let st = observations.old in
        (v : Value) → ((r : Option ℕ) → item < items model → F.post packed (category model item) r →
        r ≡ taken (category model item) item v) →
        let x = observe_item model st item time v in
        (result ≡ x.answer) × (observations.new ≡ x.observations) }
{
    let category = model.category_at(item).ok_or(Refusal::Item)?;
    let word = packed(category).ok_or(Refusal::Kind)?;
    observe_taken(model, observations, item, time, word)
}

// An observation of an item by its value.
pub fn observe_item(
    model: &Words<'_>,
    observations: &mut [u64],
    item: u64,
    time: u64,
    value: Value,
) -> ObserveAnswer
    requires head { Head (items model.now) observations.old }
    ensures { let x = observe_item model.now observations.old item time value in
        (result ≡ x.answer) × (observations.new ≡ x.observations) }
{
    let packed = |category| taken(category, item, value);
    observe_with(model, observations, item, time, packed)
}

// The same by a value's word.
pub fn observe_word(
    model: &Words<'_>,
    observations: &mut [u64],
    item: u64,
    time: u64,
    word: u64,
) -> ObserveAnswer
    requires head { Head (items model.now) observations.old }
    ensures { let x = observe_item model.now observations.old item time (decode word) in
        (result ≡ x.answer) × (observations.new ≡ x.observations) }
{
    let packed = |category| taken_word(category, item, word);
    observe_with(model, observations, item, time, packed)
}
