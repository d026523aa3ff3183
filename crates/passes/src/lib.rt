// One pass over the ring, for current with at: each item's newest place, and the marks of condition items, in two runs
// without a wrap. The place of the pass's first number is FIRST_PLACE, and 0 that of none: why no Option, and why
// store, steps and first number are no struct, picks says.
#![tactic(auto)]

ghost use Rattle.std.specs.Prelude.{◌≡◌, is_some, ◌≤◌};
ghost use Rattle.history.specs.Observations.{item_count};
ghost use Rattle.rows.specs.Rows.{RingRange};
ghost use Rattle.picks.specs.Pass.{Part, Passed};
ghost use Rattle.passes.specs.Passes.{Skipped};

use marks::Marks;
use observations::Store;
use picks::{BLOCK, PICK_SLOTS};
use rows::Run;
use snapshot_rows::FIRST_PLACE;
use spec::ITEM_SLOTS;

// Behind a block with as many condition entries the next is met within some numbers, so plain_run would stop at once:
// with a tenth of conditions it took a full ring 7 µs more, in a trial in C.
const FEW: u64 = 4;

// The numbers of a run to the newest places, while their items are of the model and not in `steps`; the first that
// isn't, or the run's end. Most rings have few others, and a test for them is all that this costs: by picks' blocks
// alone, whose loop is the same but for its picks, a full ring without them took 138 µs for 117.
fn plain_run(st: &Store<'_>, steps: u64, f: u64, run: Run, seen: &mut [u32; ITEM_SLOTS]) -> u64
    requires { Part st.now f run }
    ensures bounds { (run.from ≤ result) × (result ≤ run.to) }
    ensures skipped { Skipped steps (item_count st.now) st.now f run.to run.from result seen.old seen.new }
{
    // behind it the head is known
    let _ = st.slice();
    let m = st.items();
    let words = st.ring_words(run.place, run.to - run.from);
    let begin = run.from - f + FIRST_PLACE;
    for (far, word) in words.iter().enumerate() {
        let i = value::item_of(*word);
        if m <= i || selection::has(steps, i) {
            return run.from + far as u64;
        }
        // fits, as a ring has at most 2^17 numbers
        seen[i as usize] = (begin + far as u64) as u32;
    }
    run.to
}

// As plain_run, but none behind a block whose condition entries, `picked` of them, are FEW or more.
fn skip_plain(
    st: &Store<'_>,
    steps: u64,
    f: u64,
    run: Run,
    picked: u64,
    seen: &mut [u32; ITEM_SLOTS],
) -> u64
    requires { Part st.now f run }
    ensures bounds { (run.from ≤ result) × (result ≤ run.to) }
    ensures skipped { Skipped steps (item_count st.now) st.now f run.to run.from result seen.old seen.new }
{
    if FEW <= picked {
        return run.from;
    }
    plain_run(st, steps, f, run, seen)
}

// One run of the pass; f is the pass's first number. None where the numbers don't pass.
fn pass_run(
    st: &Store<'_>,
    steps: u64,
    f: u64,
    run: Run,
    seen: &mut [u32; ITEM_SLOTS],
    picks: &mut [u32; PICK_SLOTS],
    marks: &mut Marks,
) -> Option<()>
    requires { Part st.now f run }
    ensures { let st = st.entry.now in
        Passed steps (item_count st) st f run.from run.to marks.old marks.new seen.old seen.new (is_some result) }
{
    // behind it the head is known
    let _ = st.slice();
    let mut rest = run;
    let mut picked: u64 = 0;
    // each turn tells how far it goes, so no range serves
    while rest.from < rest.to {
        let stop = skip_plain(st, steps, f, rest, picked, seen);
        let (_, behind) = rest.split(stop);
        let end = behind.from + BLOCK.min(behind.to - behind.from);
        let (block, next) = behind.split(end);
        picked = picks::step_block(st, steps, f, block, seen, picks, marks)?;
        rest = next;
    }
    Some(())
}

// The pass over the numbers from f up to e, at most a ring of them; None where they don't pass.
pub fn pass(
    st: &Store<'_>,
    steps: u64,
    f: u64,
    e: u64,
    seen: &mut [u32; ITEM_SLOTS],
    marks: &mut Marks,
) -> Option<()>
    requires { RingRange st.now f e }
    ensures { let st = st.entry.now in
        Passed steps (item_count st) st f f e marks.old marks.new seen.old seen.new (is_some result) }
{
    let mut picks = [0u32; PICK_SLOTS];
    let (front, back) = rows::runs(st.ring_size(), st.base(), f, e);
    pass_run(st, steps, f, front, seen, &mut picks, marks)?;
    pass_run(st, steps, f, back, seen, &mut picks, marks)
}
