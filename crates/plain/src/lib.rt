// The short way of an addition, by one row: for items without conditions, and for a start. It and recording aren't
// alike but for a name: recording reads and steps an item's eight entries. With one function over both ways, which
// tests for each, a delivery of 256 with 256 names took 2,891 ns for 2,690. Between two writes what the head said goes
// beside the store, as n, b, s and p: why no type holds both stands at recording's head.
#![tactic(auto)]

ghost use Rattle.std.specs.Prelude.{◌≡◌, true, false, suc, ◌≤◌, ◌<◌, length, MatchOption, Ok};
ghost use Rattle.spec.specs.Model.{max_items, items, category};
ghost use Rattle.history.specs.Observations.{max_ring, Head, last, store_words, place, is_condition};
ghost use Rattle.plain.specs.Short.{InRing, put_number, may_evict, evicted_in, room_in, added_in};

use model::Words;
use observations::Store;
use spec::Row;

// A number at place p, by one row: the ring, the item's first latest entry, and last. The item goes beside its row:
// nothing is asked of the packed word, so that the row doesn't tell it.
pub fn put_number(st: &mut [u64], n: u64, m: u64, p: u64, item: u64, row: Row)
    requires p_lt_n { (p < n) × (n ≤ max_ring) }
    requires item_lt_m { (item < m) × (m ≤ max_items) }
    requires st_len { length st.old ≡ store_words n m }
    ensures { st.new ≡ put_number n m p item row.number row.time row.packed st.old }
{
    observations::put_ring(st, n, p, row.time, row.packed);
    let latest = observations::latest_table(n, m);
    observations::put_row(st, latest, spec::ENTRIES * item, row);
    observations::set_last(st, row.number);
}

// The entry at place p that number s is about to overwrite, if any, goes to its item's checkpoint as its one row. None,
// and nothing is changed, where it has no item of the model or one with conditions.
fn evict_plain(model: &Words<'_>, st: &mut [u64], n: u64, b: u64, s: u64, p: u64) -> Option<()>
    requires in_ring { InRing n (items model.now) b s st.old }
    requires p_value { (p ≡ place n b s) × (p < n) }
    ensures { MatchOption result (st.new ≡ st.old)
        (λ _. (may_evict model.now n b s st.old ≡ true) × (st.new ≡ evicted_in model.now n b s st.old)) }
{
    let Some(evicted) = observations::overwritten(st, n, b, s, p) else {
        return Some(());
    };
    let item = value::item_of(evicted.packed);
    if model.category_at(item)? == spec::CONDITION {
        return None;
    }
    let checkpoint = observations::checkpoint_table(n, model.items());
    observations::put_row(st, checkpoint, spec::ENTRIES * item, evicted);
    Some(())
}

// The short way of recording's room_for and add: one more of an item without conditions, where the entry that it
// overwrites, if any, is of such an item too; its number. None, and nothing is changed, where there is more to it.
// Item, time and word stand apart, here and in the crates above: a struct would save five functions two parameters
// each, and their clauses name its parts 29 times.
pub fn add_plain(model: &Words<'_>, st: &mut [u64], item: u64, time: u64, word: u64) -> Option<u64>
    requires head { Head (items model.now) st.old }
    requires item_bound { (item < items model.now) × (is_condition (category model.now) item ≡ false) }
    ensures { MatchOption result (st.new ≡ st.old)
        (λ s. (s ≡ suc (last st.old))
        × ((room_in model.now st.old ≡ Ok tt) × (st.new ≡ added_in model.now st.old item time word))) }
{
    let m = model.items();
    let before = Store::of_model(model, st);
    let n = before.ring_size();
    let b = before.base();
    let s = before.last() + 1;
    if spec::MAX_NUMBER < s {
        return None;
    }
    let p = before.place(s);
    evict_plain(model, st, n, b, s, p)?;
    let row = Row {
        number: s,
        time,
        packed: word,
    };
    put_number(st, n, m, p, item, row);
    Some(s)
}
