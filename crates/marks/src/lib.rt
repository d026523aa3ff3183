// The eight entries of a condition item as marks. A mark is the place of its entry's row, from 1 on, times 2^32, and a
// key: 0 where the entry isn't active, else its code and 1. An unused entry's mark is 0. Neither 0 is an Option: a mark
// is one word, and the pass over the ring tests it as one. A mark is a u64 and no type of its own: `eights` does one
// and the same change to marks and to columns of a store's words.
#![tactic(auto)]

ghost use Rattle.std.specs.Prelude.{◌≡◌, ◌+◌, ◌*◌, ◌^◌, ◌<◌, IfSome, length};
ghost use Rattle.spec.specs.Entries.{normal, code_field};
ghost use Rattle.marks.specs.Marks.{mark_of, place_in, key_in, key_of, found_at};

use value::{ITEM, LEVEL, NORMAL, WARNING};

// The marks of all items: eight of each.
pub type Marks = [[u64; spec::ENTRY_SLOTS]; spec::ITEM_SLOTS];

// A mark's place is counted in these.
const PLACE: u64 = 1 << 32;

// An item's unit where a condition's kind and level are counted in theirs.
const OWN: u64 = ITEM / LEVEL;

// The mark of an entry by the place of its row, from 1 on, and its key.
pub fn mark_of(place: u64, key: u64) -> u64
    requires { (place < 2 ^ 31) × (key < 2 ^ 32) }
    ensures { result ≡ mark_of place key }
{
    place * PLACE + key
}

// The place that a mark has: 0 of an unused entry.
pub fn place_in(mark: u64) -> u64
    ensures { result ≡ place_in mark }
{
    mark / PLACE
}

// The key that a mark has.
pub fn key_in(mark: u64) -> u64
    ensures { (result ≡ key_in mark) × (result < 2 ^ 32) }
{
    mark % PLACE
}

// The key of a packed word of the item `own`: 0 where it is neither Warning nor Fault of it.
pub fn key_of(own: u64, word: u64) -> u64
    requires { own < 2 ^ 24 }
    ensures { (result ≡ key_of own word) × (result < 2 ^ 32) }
{
    let front = word / LEVEL;
    // FAULT is the next behind WARNING: one test
    if front.wrapping_sub(own * OWN + WARNING) <= 1 {
        word % LEVEL + 1
    } else {
        0
    }
}

// Whether a packed word is a Normal.
pub fn is_normal(word: u64) -> bool
    ensures { result ≡ normal word }
{
    word / LEVEL % OWN == NORMAL
}

// The native code of a packed word.
pub fn code_of(word: u64) -> u64
    ensures { (result ≡ code_field word) × (result < 2 ^ 24) }
{
    word % LEVEL
}

// The place for the key among marks, from 0 on: that of the mark with it or, where none has it, of the first that is 0.
// The key is looked for first, with one test a mark: with both tests at each mark the pass of `at` over a full ring
// with a tenth of conditions took 229 µs for 217. Over a slice: it asks nothing of their number, and an array would ask
// more of callers.
pub fn find(marks: &[u64], key: u64) -> Option<usize>
    ensures place { result ≡ found_at key marks.now }
    ensures below { IfSome result (λ j. j < length marks.now) }
{
    let found = marks.iter().position(|mark| key_in(*mark) == key);
    if found.is_some() {
        return found;
    }
    marks.iter().position(|mark| *mark == 0)
}
