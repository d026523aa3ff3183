// A block of the ring, in the pass of current with at: each item's newest place, and the entries of condition items,
// picked out and stepped to their items' marks. `Part` stays a clause: it ties a run to the store and to the pass's
// first number, so no type of the run alone can hold it. Nor is a struct of the pass's store, steps and first number
// any plainer: each clause would name its three parts. `Passed` takes two numbers: those of a whole pass are no run.
// Newest places, picks and marks stay three: of what lies below, each takes one or two, and says what becomes of them.
// An item without a newest place has 0, and no Option: a store of one word tells of it, in a loop without a branch.
#![tactic(auto)]

ghost use Rattle.std.specs.Prelude.{◌≡◌, true, is_some, not, ◌-◌, ◌^◌, ◌<◌, ◌≤◌, length};
ghost use Rattle.std.specs.List.{AllByRecursion};
ghost use Rattle.spec.specs.Model.{max_items};
ghost use Rattle.history.specs.Observations.{item_count};
ghost use Rattle.changes.specs.Changes.{change_for, changed, is_full};
ghost use Rattle.rows.specs.Rows.{items_ok};
ghost use Rattle.picks.specs.Pass.{stepped_eight, Part, Passed};
ghost use Rattle.picks.specs.Picks.{block, listed, Gathered, Pick, pick_marks, pick_ok};

use marks::Marks;
use observations::Store;
use rows::Run;
use snapshot_rows::FIRST_PLACE;
use spec::ITEM_SLOTS;

// Numbers of the ring that are looked through at a time. A pick is below BLOCK, which itself ends the picks: with a
// count in its place the compiler computes it twice an entry, and a full ring took 170 µs for 133. A pick has 32 bits,
// since some processors store a byte three times as slowly; the array has the stack that it may take.
pub const BLOCK: u64 = 191;

// Room for a block's picks and their end.
pub const PICK_SLOTS: usize = BLOCK as usize + 1;

// A block of numbers to the newest places; those of condition items to the picks, by their distance from its first:
// how many; None where an item isn't the model's. No branch is told by the item, which no predictor could tell.
fn gather(
    st: &Store<'_>,
    steps: u64,
    f: u64,
    run: Run,
    seen: &mut [u32; ITEM_SLOTS],
    picks: &mut [u32; PICK_SLOTS],
) -> Option<u64>
    requires part { Part st.now f run }
    requires short { run.to - run.from ≤ block }
    ensures value { is_some result ≡ items_ok (item_count st.now) st.now run.from run.to }
    ensures gathered { is_some result ≡ true →
        Gathered steps st.now f run seen.old seen.new picks.new }
{
    // behind it the head is known
    let _ = st.slice();
    let m = st.items();
    let words = st.ring_words(run.place, run.to - run.from);
    let begin = run.from - f + FIRST_PLACE;
    let mut count: u64 = 0;
    for (far, word) in words.iter().enumerate() {
        let i = value::item_of(*word);
        if m <= i {
            return None;
        }
        // both fit: a ring has at most 2^17 numbers, a block at most BLOCK
        seen[i as usize] = (begin + far as u64) as u32;
        picks[count as usize] = far as u32;
        count += u64::from(selection::has(steps, i));
    }
    picks[count as usize] = BLOCK as u32;
    Some(count)
}

// Any change of an item's marks, by its packed word, mark being its own. Out of line, as step_picks is: else the loop
// over the picks has too few registers.
#[inline(never)]
fn change_marks(marks: &mut [u64; spec::ENTRY_SLOTS], i: u64, word: u64, mark: u64)
    requires { i < max_items }
    ensures { marks.new ≡ changed 0 (change_for i marks.old word) mark marks.old }
{
    let change = changes::change_for(marks, i, word);
    eights::apply(marks, change, mark);
}

// A ring entry of condition item i, by its packed word and its place, to the item's marks; None where it would be a
// ninth.
fn step_item(i: u64, place: u64, word: u64, marks: &mut [u64; spec::ENTRY_SLOTS]) -> Option<()>
    requires { (i < max_items) × (place < 2 ^ 31) }
    ensures value { is_some result ≡ not (is_full (change_for i marks.old word)) }
    ensures marks_after { is_some result ≡ true → marks.new ≡ stepped_eight i place word marks.old }
{
    let key = marks::key_of(i, word);
    if key != 0 && marks::key_in(marks[0]) != 0 {
        return eights::raise(marks, key, marks::mark_of(place, key));
    }
    change_marks(marks, i, word, marks::mark_of(place, key));
    Some(())
}

// The picks of a block to the marks; None where one would be a ninth.
#[inline(never)]
fn step_picks(
    st: &Store<'_>,
    f: u64,
    run: Run,
    picks: &[u32; PICK_SLOTS],
    marks: &mut Marks,
) -> Option<()>
    requires part { Part st.now f run }
    requires ended { length (listed picks.now) < length picks.now }
    requires each { AllByRecursion (Pick (item_count st.now) st.now f run) (listed picks.now) }
    ensures value { is_some result ≡ pick_ok st.now f run.from (listed picks.now) marks.old }
    ensures marks_after { is_some result ≡ true →
        marks.new ≡ pick_marks st.now f run.from (listed picks.now) marks.old }
{
    let words = st.slice();
    let n = st.ring_size();
    let begin = run.from - f + FIRST_PLACE;
    for &pick in picks {
        let far = u64::from(pick);
        // no take_while: it would want a map before it and this test in a closure
        if far == BLOCK {
            break;
        }
        let word = observations::ring_word(words, n, run.place + far);
        let place = begin + far;
        let i = value::item_of(word);
        step_item(i, place, word, &mut marks[i as usize])?;
    }
    Some(())
}

// A block of numbers to the newest places and the marks: how many are condition items'; None where they don't pass. No
// clause says how many, since only the pass's speed rests on it.
pub fn step_block(
    st: &Store<'_>,
    steps: u64,
    f: u64,
    run: Run,
    seen: &mut [u32; ITEM_SLOTS],
    picks: &mut [u32; PICK_SLOTS],
    marks: &mut Marks,
) -> Option<u64>
    requires part { Part st.now f run }
    requires short { run.to - run.from ≤ block }
    ensures { let st = st.entry.now in
        Passed steps (item_count st) st f run.from run.to marks.old marks.new seen.old seen.new (is_some result) }
{
    let picked = gather(st, steps, f, run, seen, picks)?;
    step_picks(st, f, run, picks, marks)?;
    Some(picked)
}
