// What one more observation does to a condition item's eight entries, told by their marks.
#![tactic(auto)]

ghost use Rattle.std.specs.Prelude.{◌≡◌, ◌^◌, ◌<◌};
ghost use Rattle.changes.specs.Changes.{raised_for, cleared_for, change_for, ChangeFits};

use spec::ENTRY_SLOTS;

// What an observation does to the eight entries of its item: it is put at a place, it stands alone, the entry at a
// place goes out, they stay, or it would be a ninth. Full is no Option's None: by its definition it is a change too,
// one that leaves the eight as they are, so that who knows that there is room does the change with no test.
#[derive(Clone, Copy, PartialEq, Eq)]
pub enum Change {
    Put(usize),
    Alone,
    Out(usize),
    Stay,
    Full,
}

// A Warning or Fault where others are active: to its code's place, or behind the last; Full behind eight. Marks and key
// stay two, here and elsewhere: nothing is asked of them together.
fn raised(marks: &[u64; ENTRY_SLOTS], key: u64) -> Change
    ensures { result ≡ raised_for key marks.now }
{
    marks::find(marks, key).map_or(Change::Full, Change::Put)
}

// A Normal of one code where others are active: its entry, if there is one, goes out; in the place of the last one,
// the Normal stands alone.
fn cleared(marks: &[u64; ENTRY_SLOTS], key: u64) -> Change
    ensures { result ≡ cleared_for key marks.now }
{
    match marks::find(marks, key) {
        Some(j) if marks[j] != 0 => {
            if marks[1] == 0 {
                Change::Alone
            } else {
                Change::Out(j)
            }
        }
        _ => Change::Stay,
    }
}

// What an observation, by its packed word, does to the entries of eight marks.
pub fn change_for(marks: &[u64; ENTRY_SLOTS], own: u64, word: u64) -> Change
    requires { own < 2 ^ 24 }
    ensures value { result ≡ change_for own marks.now word }
    ensures change_fits { ChangeFits result }
{
    if marks::key_in(marks[0]) == 0 {
        return Change::Alone;
    }
    let key = marks::key_of(own, word);
    if key != 0 {
        return raised(marks, key);
    }
    let code = marks::code_of(word);
    if code == 0 || !marks::is_normal(word) {
        return Change::Alone;
    }
    cleared(marks, code + 1)
}
