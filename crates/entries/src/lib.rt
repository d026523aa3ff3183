// The eight entries of a condition item in a table of the store: a type to read them by, their written form, as marks,
// and how many are used.
#![tactic(auto)]

ghost use Rattle.std.specs.Prelude.{◌≡◌, false, ◌^◌, ◌<◌, MatchOption, drop, get_or, not, ◌&&◌, ◌==◌};
ghost use Rattle.marks.specs.Marks.{key_in};
ghost use Rattle.spec.specs.Entries.{form_ok, each_row, zero_row};
ghost use Rattle.entries.specs.Forms.{has_key, may_follow, FilledBy, filled};

mod table;

use spec::ENTRY_SLOTS;
pub use table::Entries;

// Whether an entry with this key is active, and the first of those that eight marks tell of.
fn both_active(marks: &[u64; ENTRY_SLOTS], key: u64) -> bool
    ensures { result ≡ (not (key == 0) && not (key_in (get_or marks.now 0 0) == 0)) }
{
    key != 0 && marks::key_in(marks[0]) != 0
}

// Whether one of the marks has the key.
#[tactic(auto, unfolding(crate::specs::Forms::has_key))]
fn has_key(marks: &[u64], key: u64) -> bool
    ensures { result ≡ has_key key marks.now }
{
    marks.iter().any(|mark| marks::key_in(*mark) == key)
}

// Whether an entry with this key may follow n others, which eight marks tell of: the first may be anything, others are
// active with a code of their own.
#[tactic(auto, unfolding(crate::specs::Forms::may_follow))]
fn may_follow(marks: &[u64; ENTRY_SLOTS], n: u64, key: u64) -> bool
    requires { n < 8 }
    ensures { result ≡ may_follow n key marks.now }
{
    n == 0 || both_active(marks, key) && !has_key(&marks[..n as usize], key)
}

// Eight entries in their written form: how many are used, and the marks of all, from place 1 on with their keys. No
// slice of the used: it couldn't be handed out with its array, and who steps the marks wants all eight.
#[derive(Clone, Copy)]
pub struct Filled {
    pub used: u64,
    pub marks: [u64; ENTRY_SLOTS],
}

// Item own's eight entries as marks, where they have their written form; none used is no refusal, since a checkpoint
// may have none, and who needs one filters it out. By place, and over no iterator of rows: each turn asks for the place
// four times.
pub fn fill(entries: &Entries<'_>, own: u64) -> Option<Filled>
    requires own_bound { own < 2 ^ 24 }
    ensures { MatchOption result (form_ok own 0 entries.now ≡ false)
        (λ f. FilledBy own entries.now f.marks f.used) }
{
    let mut marks = [0u64; ENTRY_SLOTS];
    let mut n: u64 = 0;
    for j in 0..entries.len() {
        let row = entries.row(j);
        if row.number == 0 {
            if row.time != 0 || row.packed != 0 {
                return None;
            }
        } else {
            let key = marks::key_of(own, row.packed);
            if n != j || !may_follow(&marks, n, key) {
                return None;
            }
            marks[j as usize] = marks::mark_of(j + 1, key);
            n += 1;
        }
    }
    Some(Filled { used: n, marks })
}

// Whether the entries behind the first are zeros: all words joined, and one test. By all of the places, with a test in
// each, the archive has 50 bytes of code more, which .ci/bounds doesn't allow.
fn rest_unused(entries: &Entries<'_>) -> bool
    ensures { result ≡ each_row zero_row (drop 1 entries.now) }
{
    let mut any: u64 = 0;
    for j in 1..entries.len() {
        let row = entries.row(j);
        any = any | row.number | row.time | row.packed;
    }
    any == 0
}

// How many of item own's eight entries are used, where they have their written form.
pub fn count(entries: &Entries<'_>, own: u64) -> Option<u64>
    requires own_bound { own < 2 ^ 24 }
    ensures { result ≡ filled own entries.now }
{
    // the usual item has one entry: by fill alone, current took 0.88 µs for 0.65
    let first = entries.row(0);
    if first.number != 0 && rest_unused(entries) {
        return Some(1);
    }
    fill(entries, own).map(|filled| filled.used)
}
