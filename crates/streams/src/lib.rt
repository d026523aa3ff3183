// The terms of streams documents. What they mean stands in specs/.
#![tactic(auto)]

// The groups of a component's rows, in the order in which they stand in it.
#[derive(Clone, Copy, PartialEq, Eq)]
pub enum Group {
    Samples,
    Events,
    Condition,
}

// How many groups there are.
pub const GROUPS: usize = 3;
