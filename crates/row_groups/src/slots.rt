// For each item the group that its rows stand in, so that a row's is told by one look and one compare.
ghost use Rattle.std.specs.Prelude.{◌≡◌, ◌≤◌, ◌<◌, ℕ};
ghost use Rattle.spec.specs.Model.{max_components, components, items, item_word, component_of};
ghost use Rattle.streams.specs.Groups.{group_number};
ghost use Rattle.row_groups.specs.Slots.{slot, Slotted};

use super::{home_of, slot_of};
use model::Words;
use spec::ITEM_SLOTS;
use streams::{GROUPS, Group};

// For each item its component's number times the groups, and its group: a byte, since there are 192 groups at most.
pub type Slots = [u8; ITEM_SLOTS];

// Component c's group g among all groups. Out of line, so that the compiler makes no vectors of the loop below, with
// constants in the archive.
#[inline(never)]
pub fn slot_in(c: u64, g: Group) -> u8
    requires { c < max_components }
    ensures { result ≡ slot c (group_number g) }
{
    (GROUPS * (c as usize) + slot_of(g)) as u8
}

// The slots of the model's items.
pub fn slots_of(model: &Words<'_>) -> Slots
    requires few { components model.now ≤ max_components }
    requires component { (j : ℕ) → j < items model.now → component_of (item_word model.now j) < components model.now }
    ensures { Slotted model.now (items model.now) result }
{
    let mut slots = [0; ITEM_SLOTS];
    for j in 0..model.items() {
        let (c, g) = home_of(model, j);
        slots[j as usize] = slot_in(c, g);
    }
    slots
}
