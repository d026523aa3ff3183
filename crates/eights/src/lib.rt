// Eight words changed where they stand: what an observation does to a condition item's entries, done to a column of
// them or to their marks.
#![tactic(auto)]

ghost use Rattle.std.specs.Prelude.{◌≡◌, true, not, is_some, ◌<◌};
ghost use Rattle.changes.specs.Changes.{raised_for, without, alone_with, changed, ChangeFits, is_full};

use changes::Change;
use spec::ENTRY_SLOTS;

// Eight words without the one at place j: those behind it move down, and the last is 0.
fn take_out(words: &mut [u64; ENTRY_SLOTS], j: usize)
    requires { j < 8 }
    ensures { words.new ≡ without 0 j words.old }
{
    words.copy_within(j + 1.., j);
    words[ENTRY_SLOTS - 1] = 0;
}

// Eight words become x, and zeros behind it.
fn make_alone(words: &mut [u64; ENTRY_SLOTS], x: u64)
    ensures { words.new ≡ alone_with 0 x }
{
    words.fill(0);
    words[0] = x;
}

// The change done to eight words, x being the new one. No closure: one change is done to three columns of a table, or
// to marks, and each time with another x.
pub fn apply(words: &mut [u64; ENTRY_SLOTS], change: Change, x: u64)
    requires { ChangeFits change }
    ensures { words.new ≡ changed 0 change x words.old }
{
    match change {
        Change::Put(j) => {
            words[j] = x;
        }
        Change::Alone => {
            make_alone(words, x);
        }
        Change::Out(j) => {
            take_out(words, j);
        }
        Change::Stay | Change::Full => {}
    }
}

// A Warning or Fault where others are active, done to their marks at once, x being its own: to its code's place, or
// behind the last; None behind eight. Most observations of a condition are this one: by change_for and apply, `at` over
// a full ring with a tenth of conditions took 288 µs for 246.
pub fn raise(marks: &mut [u64; ENTRY_SLOTS], key: u64, x: u64) -> Option<()>
    ensures value { is_some result ≡ not (is_full (raised_for key marks.old)) }
    ensures marks_after { is_some result ≡ true → marks.new ≡ changed 0 (raised_for key marks.old) x marks.old }
{
    let j = marks::find(marks, key)?;
    marks[j] = x;
    Some(())
}
