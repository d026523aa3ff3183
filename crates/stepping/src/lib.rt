// One more observation in a table of the store, for a condition item: whether its entries take it, and their step,
// done in place.
#![tactic(auto)]

ghost use Rattle.std.specs.Prelude.{◌≡◌, true, [], ◌∷◌, ◌++◌, ◌^◌, ◌<◌, ◌≤◌, length, take, drop};
ghost use Rattle.spec.specs.Blocks.{table_rows, put_rows, padded};
ghost use Rattle.spec.specs.Entries.{used_rows, step, form_ok};
ghost use Rattle.changes.specs.Changes.{changed, ChangeFits};
ghost use Rattle.observations.specs.Rows.{words_of};
ghost use Rattle.entries.specs.Forms.{EightRows};
ghost use Rattle.stepping.specs.Taking.{takes_one};

use changes::Change;
use entries::Entries;
use observations::Table;
use spec::{ENTRY_SLOTS, Row};

// Whether item own's eight entries have their written form and take one more observation without a ninth.
pub fn takes_one(entries: &Entries<'_>, own: u64, word: u64) -> bool
    requires own_bound { own < 2 ^ 24 }
    ensures { result ≡ takes_one own entries.now word }
{
    entries::fill(entries, own).is_some_and(|filled| {
        changes::change_for(&filled.marks, own, word) != Change::Full
    })
}

// The change done to the first eight of these words, x being the new one.
fn change_front(words: &mut [u64], change: Change, x: u64)
    requires { (8 ≤ length words.old) × ChangeFits change }
    ensures { words.new ≡ changed 0 change x (take 8 words.old) ++ drop 8 words.old }
{
    let Some(eight) = words.first_chunk_mut() else {
        unreachable!()
    };
    eights::apply(eight, change, x);
}

// The step of item own's eight entries by an observation, in place: the rows from row k on of a table. The words go
// beside it: a struct around a `&mut` would need a clause that the reference is still the same. The item goes beside
// its row: nothing is asked of the packed word, so that the row doesn't tell it.
pub fn step(st: &mut [u64], table: Table, k: u64, own: u64, row: Row)
    requires table { EightRows table.rows table.at k (length st.old) }
    requires own_bound { (own < 2 ^ 24) × (form_ok own 0 (table_rows st.old table.at table.rows 8 k) ≡ true) }
    ensures { let es = used_rows (table_rows st.old table.at table.rows 8 k) in
        let new = padded 8 (step own es (words_of row)) in
        st.new ≡ put_rows st.old table.at table.rows k new }
{
    let Some(filled) = entries::fill(&Entries::from_row(st, table, k), own) else {
        unreachable!()
    };
    let change = changes::change_for(&filled.marks, own, row.packed);
    let [numbers, times, words] = table.columns(k);
    change_front(&mut st[numbers..numbers + ENTRY_SLOTS], change, row.number);
    change_front(&mut st[times..times + ENTRY_SLOTS], change, row.time);
    change_front(&mut st[words..words + ENTRY_SLOTS], change, row.packed);
}
