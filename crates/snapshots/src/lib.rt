// The marks of current with at: each selected item's entries behind one pass over the ring, from its checkpoint on. An
// entry is held as a mark by its place: of the checkpoint from 1 on, of the ring from 9 on, which is that of the pass's
// first number. A condition item's marks are stepped along the pass; of another the newest place is kept, by item.
#![tactic(auto)]

ghost use Rattle.std.specs.Prelude.{◌≡◌, true, false, MatchOption, is_some, ◌&&◌, ℕ, ◌+◌, ◌-◌, ◌*◌, ◌^◌, ◌<◌, ◌≤◌};
ghost use Rattle.std.specs.Prelude.{get_or, replicate};
ghost use Rattle.spec.specs.Model.{max_items, items, category};
ghost use Rattle.spec.specs.Entries.{form_ok};
ghost use Rattle.history.specs.Observations.{ring_size, item_count, base, checkpoint_at, item_rows, item_row};
ghost use Rattle.entries.specs.Forms.{marks_of};
ghost use Rattle.rows.specs.Rows.{RingRange};
ghost use Rattle.snapshot_rows.specs.Held.{held_by};
ghost use Rattle.snapshots.specs.Snapshots.{at_right, at_held, steps_of, begun, forms_ok, plain_place, settled};

use entries::Entries;
use marks::Marks;
use model::Words;
use observations::{Modelled, Store};
use spec::{ENTRY_SLOTS, ITEM_SLOTS};

// The selected condition items.
fn steps_of(model: &Words<'_>, selection: u64) -> u64
    ensures { result ≡ steps_of (category model.now) selection (items model.now) }
{
    let mut set = selection::NONE;
    for i in 0..model.items() {
        let steps = selection::has(selection, i) && model.category(i) == spec::CONDITION;
        set = selection::with_if(steps, set, i);
    }
    set
}

// The marks of condition item i's checkpoint; None where it isn't in its written form.
fn begin_item(st: &Store<'_>, i: u64) -> Option<[u64; ENTRY_SLOTS]>
    requires i_lt_items { i < item_count st.now }
    ensures { let t = checkpoint_at (ring_size st.now) (item_count st.now) in
        let rows = item_rows st.now t (item_count st.now) i in
        MatchOption result (form_ok i 0 rows ≡ false)
        (λ marks. (form_ok i 0 rows ≡ true) × (marks ≡ marks_of i 1 rows)) }
{
    let entries = Entries::of(st.slice(), st.checkpoint(), i);
    entries::fill(&entries, i).map(|filled| filled.marks)
}

// The marks of the condition items' checkpoints; None where one isn't in its written form. All marks go to what the
// caller has, here and in hold: with those of hold in an Option, their 4,096 bytes would be on the stack twice.
fn begin(st: &Store<'_>, steps: u64, marks: &mut Marks) -> Option<()>
    ensures value { is_some result ≡ forms_ok steps (item_count st.now) st.now }
    ensures marks_after { is_some result ≡ true →
        marks.new ≡ begun steps (item_count st.now) st.now (item_count st.now) 0 marks.old }
{
    for i in 0..st.items() {
        if selection::has(steps, i) {
            marks[i as usize] = begin_item(st, i)?;
        }
    }
    Some(())
}

// The place of item i, which is not in `steps`: of its newest number, or of its checkpoint's first entry; 0 for none,
// as an unused mark has it.
fn plain_place(st: &Store<'_>, i: u64, seen: u64) -> u64
    requires i_bound { (i < item_count st.now) × (i < max_items) }
    ensures { let t = checkpoint_at (ring_size st.now) (item_count st.now) in
        (result ≡ plain_place (item_row st.now t (item_count st.now) i) seen) × (result ≤ seen + 1) }
{
    if seen != 0 {
        return seen;
    }
    let row = st.checkpoint_row(i, 0);
    u64::from(row.number != 0)
}

// The marks of the selected items that are not in `steps`, by their newest places.
fn settle(st: &Store<'_>, selection: u64, steps: u64, seen: &[u32; ITEM_SLOTS], marks: &mut Marks)
    requires { (i : ℕ) → get_or seen.now i 0 + 1 < 2 ^ 31 }
    ensures { marks.new
        ≡ settled selection steps (item_count st.now) st.now seen.now (item_count st.now) 0 marks.old }
{
    for i in 0..st.items() {
        if selection::has(selection, i) && !selection::has(steps, i) {
            let place = plain_place(st, i, u64::from(seen[i as usize]));
            marks[i as usize][0] = marks::mark_of(place, 0);
        }
    }
}

// The rows behind the numbers from f up to e, at most a ring of them, to the marks, which are 0. None where a number
// has no item of the model, a selected condition item's checkpoint isn't in its written form, or one comes to nine
// entries. Why f and e stay two numbers: rows.
pub fn hold(source: Modelled<'_>, selection: u64, f: u64, e: u64, marks: &mut Marks) -> Option<()>
    requires st_bound { RingRange source.store.now f e }
    requires marks_value { marks.old ≡ replicate max_items (replicate 8 0) }
    ensures result_value { is_some result ≡ at_right source.entry.model.now source.entry.store.now selection f e }
    ensures fact { is_some result ≡ true →
        let model = source.entry.model.now in
        let st = source.entry.store.now in
        held_by (items model) st f marks.new selection ≡ at_held model st selection f e }
{
    let st = source.store;
    // behind it the head is known
    let _ = st.slice();
    let mut seen = [0u32; ITEM_SLOTS];
    let steps = steps_of(source.model, selection);
    begin(st, steps, marks)?;
    passes::pass(st, steps, f, e, &mut seen, marks)?;
    settle(st, selection, steps, &seen, marks);
    Some(())
}
