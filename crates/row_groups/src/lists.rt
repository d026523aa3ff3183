// Lists of a reply's rows by component and group, so that a group's rows are found without a look at the others'.
ghost use Rattle.std.specs.Prelude.{◌≡◌, ◌≤◌, get_or};
ghost use Rattle.row_groups.specs.Groups.{Placed};
ghost use Rattle.row_groups.specs.Lists.{few, Listed};

use super::{COMPONENT_SLOTS, home_of, slot_of};
use model::Words;
use reply_rows::Reply;
use streams::GROUPS;

// Replies of more rows than these are searched group by group.
pub const FEW: usize = 255;

// For each group of each component its first row, and for each row the next of its own; the number of rows where there
// is none. Bytes, since the compiler copies what is larger from place to place: with 512 numbers of 16 bits a document
// took 9,248 bytes of stack for 2,032.
#[derive(Drop)]
pub struct Lists {
    pub first: [[u8; GROUPS]; COMPONENT_SLOTS],
    pub next: [u8; FEW],
}

// The lists of a reply of few rows, made from its last row on, so that they have the reply's order; nobody reads those
// of another reply.
pub fn lists_of(model: &Words<'_>, reply: &Reply<'_>) -> Lists
    requires { Placed model.now reply.now }
    ensures { get_or reply.now 0 0 ≤ few → Listed model.now reply.now 0 result.first result.next }
{
    let k = reply.rows();
    if FEW < k {
        return Lists {
            first: [[0; GROUPS]; COMPONENT_SLOTS],
            next: [0; FEW],
        };
    }
    // a byte is enough for a number of few rows, here and below
    let mut lists = Lists {
        first: [[k as u8; GROUPS]; COMPONENT_SLOTS],
        next: [0; FEW],
    };
    for i in (0..k).rev() {
        let item = value::item_of(reply.row_at(i).packed);
        let (c, g) = home_of(model, item);
        let slot = slot_of(g);
        lists.next[i] = lists.first[c as usize][slot];
        lists.first[c as usize][slot] = i as u8;
    }
    lists
}
