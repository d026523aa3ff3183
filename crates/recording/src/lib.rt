// Numbers given to observations: whether one is left, and adding with eviction. plain has the short way of both, and
// says why.
// What only reads takes a Store or a Modelled. Between two writes what the head said goes beside the store, as n, b, s
// and p: a struct around the `&mut` would need a clause in each function that the reference is still the same, and one
// of the numbers alone a clause for each that it is the store's.
#![tactic(auto)]

ghost use Rattle.std.specs.Prelude.{◌≡◌, true, suc, ◌<◌, Ok};
ghost use Rattle.spec.specs.Model.{items, category};
ghost use Rattle.history.specs.Observations.{Head, ring_size, last, latest_at, add};
ghost use Rattle.plain.specs.Short.{overwritable, room_in, added_in, formed_in};
ghost use Rattle.evicting.specs.Writing.{Overwriting, InTable};

use entries::Entries;
use model::Words;
use observations::{Modelled, Store};
use spec::{Refusal, Row};

// Whether the entry about to be overwritten, by its packed word, has an item of the model whose checkpoint takes it.
fn may_overwrite(source: Modelled<'_>, word: u64) -> bool
    ensures { let model = source.entry.model.now in
        let st = source.entry.store.now in
        result ≡ overwritable (category model) (ring_size st) (items model) st word }
{
    let item = value::item_of(word);
    match source.model.category_at(item) {
        None => false,
        Some(spec::CONDITION) => {
            let entries = Entries::of(source.store.slice(), source.store.checkpoint(), item);
            stepping::takes_one(&entries, item, word)
        }
        Some(_) => true,
    }
}

// Whether a number is left, and the entry that it overwrites, if any, may go to its item's checkpoint.
pub fn room_for(source: Modelled<'_>) -> Result<(), Refusal>
    ensures { result ≡ room_in source.entry.model.now source.entry.store.now }
{
    let last = source.store.last();
    if spec::MAX_NUMBER <= last {
        return Err(Refusal::Spent);
    }
    let Some(evicted) = source.store.overwritten(last + 1) else {
        return Ok(());
    };
    if !may_overwrite(source, evicted.packed) {
        return Err(Refusal::Store);
    }
    Ok(())
}

// A row's number: the overwritten entry's checkpoint, the ring, the item's latest, and last. The item goes beside its
// row, as at plain::put_number.
fn write(model: &Words<'_>, st: &mut [u64], n: u64, b: u64, item: u64, row: Row)
    requires overwriting { Overwriting (category model.now) n (items model.now) b row.number st.old }
    requires in_table { InTable (category model.now) (items model.now) (latest_at n) item st.old }
    ensures { st.new
        ≡ add (category model.now) n (items model.now) b row.number item row.time row.packed st.old }
{
    let p = observations::place(n, b, row.number);
    evicting::evict(model, st, n, b, row.number, p);
    observations::put_ring(st, n, p, row.time, row.packed);
    let latest = observations::latest_at(n);
    evicting::set_newest(model, st, latest, item, row);
    observations::set_last(st, row.number);
}

// One observation more, as last + 1, which is answered: a row without its number, which isn't known before. Item, time
// and word stand apart, as at plain::add_plain.
pub fn add(model: &Words<'_>, st: &mut [u64], item: u64, time: u64, word: u64) -> u64
    requires head { Head (items model.now) st.old }
    requires st_value { room_in model.now st.old ≡ Ok tt }
    requires item_bound { item < items model.now }
    requires item_value { formed_in model.now st.old item ≡ true }
    ensures value { result ≡ suc (last st.old) }
    ensures st_after { st.new ≡ added_in model.now st.old item time word }
{
    let before = Store::of_model(model, st);
    let n = before.ring_size();
    let b = before.base();
    let row = Row {
        number: before.last() + 1,
        time,
        packed: word,
    };
    write(model, st, n, b, item, row);
    row.number
}
