// The rows that marks hold, eight marks of each item: an item's entry at a mark's place is of its
// checkpoint, from place 1 on, or of the ring, where a pass's first number has place 9.
#![tactic(auto)]

ghost use Rattle.std.specs.Prelude.{◌≡◌, ℕ, ◌+◌, ◌*◌, ◌^◌, ◌<◌, ◌≤◌, get_or, length, map, position, ◌==◌};
ghost use Rattle.spec.specs.Model.{max_items};
ghost use Rattle.history.specs.Observations.{item_count};
ghost use Rattle.marks.specs.Marks.{place_in};
ghost use Rattle.observations.specs.Rows.{words_of};
ghost use Rattle.rows.specs.Rows.{rows_at, rows_into};
ghost use Rattle.snapshot_rows.specs.Held.{PassStart, row_of, used_places, eight_rows, held_by, held_count};

use marks::Marks;
use observations::{Row, Store};
use spec::ENTRY_SLOTS;

// The place of a pass's first number, behind those of the checkpoint's entries.
pub const FIRST_PLACE: u64 = spec::ENTRIES + 1;

// The first mark of an item that isn't used.
fn first_unused(eight: &[u64; ENTRY_SLOTS]) -> Option<usize>
    ensures { result ≡ position (λ mark. place_in mark == 0) eight.now }
{
    eight.iter().position(|mark| marks::place_in(*mark) == 0)
}

// The used marks of an item's eight.
fn used(eight: &[u64; ENTRY_SLOTS]) -> &[u64]
    ensures places { map place_in result.now ≡ used_places eight.now }
    ensures few { length result.now ≤ 8 }
    ensures each { (k : ℕ) → k < length result.now → 1 ≤ place_in (get_or result.now k 0) }
{
    let n = first_unused(eight).unwrap_or(ENTRY_SLOTS);
    &eight[..n]
}

// How many rows the marks of the selected items are. No plainer with the store in place of m: it would be read for its
// number of items alone, and so a right head would be asked for where a small number serves. Marks by their item, here
// and below: a zip of numbers and marks was tried, and is as long, with 20 lines more of proof.
pub fn count(m: u64, selection: u64, marks: &Marks) -> u64
    requires { m ≤ max_items }
    ensures { (result ≡ held_count selection marks.now m 0) × (result ≤ 8 * m) }
{
    let mut k: u64 = 0;
    for i in 0..m {
        if selection::has(selection, i) {
            k += used(&marks[i as usize]).len() as u64;
        }
    }
    k
}

// The row at a place of item i: its checkpoint's entry, or a number of the ring. Where a pass starts is a clause, here
// and below: it ties a number to the store.
fn row_of(st: &Store<'_>, f: u64, i: u64, place: u64) -> Row
    requires i_lt_items { i < item_count st.now }
    requires st_bound { PassStart st.now f }
    requires le_place { (1 ≤ place) × (place < 2 ^ 32) }
    ensures { row_of (item_count st.now) st.now f i place ≡ words_of result }
{
    // behind it the head is known
    let _ = st.slice();
    if place < FIRST_PLACE {
        return st.checkpoint_row(i, place - 1);
    }
    st.ring_row(f + (place - FIRST_PLACE))
}

// The rows of item i's eight marks, where `done` of the k rows are written; how many are written then. No plainer
// with done, k and out in a struct as writer::Output is, which grows at one place: k is fixed before, and rows_at is
// over the whole buffer in two places at once, numbers and pairs.
fn write_item(
    st: &Store<'_>,
    f: u64,
    i: u64,
    eight: &[u64; ENTRY_SLOTS],
    done: u64,
    k: u64,
    out: &mut [u64],
) -> u64
    requires i_lt_items { i < item_count st.now }
    requires st_bound { PassStart st.now f }
    requires i_bound { (done + length (eight_rows (item_count st.now) st.now f i eight.now) ≤ k)
        × (3 * k ≤ length out.old) }
    ensures value { result ≡ done + length (eight_rows (item_count st.now) st.now f i eight.now) }
    ensures out_after { out.new
        ≡ rows_at out.old done (k + 2 * done) (eight_rows (item_count st.now) st.now f i eight.now) }
{
    let used = used(eight);
    for (j, mark) in used.iter().enumerate() {
        let place = marks::place_in(*mark);
        let row = row_of(st, f, i, place);
        rows::write_row_of(out, done + j as u64, k, row);
    }
    done + used.len() as u64
}

// Current with at: the rows that the marks hold of the selected items, which are k; f is the pass's first number.
pub fn write_held(st: &Store<'_>, f: u64, selection: u64, marks: &Marks, k: u64, out: &mut [u64])
    requires st_bound { PassStart st.now f }
    requires k_value { (k ≡ length (held_by (item_count st.now) st.now f marks.now selection))
        × (3 * k ≤ length out.old) }
    ensures { out.new
        ≡ rows_into out.old k (held_by (item_count st.now) st.now f marks.now selection) }
{
    let mut c: u64 = 0;
    for i in 0..st.items() {
        if selection::has(selection, i) {
            c = write_item(st, f, i, &marks[i as usize], c, k, out);
        }
    }
}
