// Selections: sets of items, one bit each. Their form is known here alone: others test, add, move, count, or
// take none or all.
// A set is a number, and no type of its own: the definitions' sets are numbers, 2 ^ i + set with i in it, so that each
// clause would take the number out of the type again, and what is asked of one, no item from m on, ties it to a model.
#![tactic(auto)]

ghost use Rattle.std.specs.Prelude.{◌≡◌, cond, eqb, ◌+◌, ◌*◌, ◌^◌, ◌<◌, ◌≤◌};
ghost use Rattle.std.specs.Int.Count.{ones};
ghost use Rattle.spec.specs.Words.{bit, set_of};
ghost use Rattle.spec.specs.Model.{max_items};
ghost use Rattle.spec.specs.Path.{any_item};

// A bit for each item that a model can have.
const EVERY: u64 = u64::MAX;

// The set without items.
pub const NONE: u64 = 0;

// Whether no item is in the set.
pub fn is_empty(set: u64) -> bool
    ensures { result ≡ eqb set 0 }
{
    set == NONE
}

// Whether item i is in the selection. An item's number keeps its clause, here and elsewhere: most come from a range of
// the items, which says it, and the bound ties others to a model or a store. Loops over a selection's items ask it of
// each number: tried on snapshots::begin as a filter of the range, and the proof didn't close, since behind a filter
// all that is known is the list of the items given so far, and the definitions count numbers.
pub fn has(selection: u64, i: u64) -> bool
    requires { i < max_items }
    ensures { result ≡ bit selection i }
{
    (selection >> i) & 1 == 1
}

// The set, with i where `taken` says so; i is above all in the set. A flag, here and below, and no Option of i: a set
// comes out either way.
pub fn with_if(taken: bool, set: u64, i: u64) -> u64
    requires { (i < max_items) × (set < 2 ^ i) }
    ensures { result ≡ cond taken (2 ^ i + set) set }
{
    if taken { set | (1 << i) } else { set }
}

// The set with each item moved up by one, and item 0 where `taken` says so.
pub fn moved_up(taken: bool, set: u64) -> u64
    requires { 2 * set + 1 < 2 ^ max_items }
    ensures { result ≡ 2 * set + cond taken 1 0 }
{
    (set << 1) | u64::from(taken)
}

// How many items the selection has.
pub fn count(selection: u64) -> u64
    ensures { (result ≡ ones selection) × (result ≤ max_items) }
{
    u64::from(u64::count_ones(selection))
}

// All of m items.
pub fn all(m: u64) -> u64
    requires { (1 ≤ m) × (m ≤ max_items) }
    ensures { (result ≡ set_of any_item m) × (result < 2 ^ m) }
{
    EVERY >> (spec::MAX_ITEMS - m)
}
