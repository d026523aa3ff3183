// An item's eight entries in a table of the store, to be read.
ghost use Rattle.std.specs.Prelude.{◌≡◌, [], ◌∷◌, ◌*◌, ◌<◌, List, ℕ, length, get_or};
ghost use Rattle.spec.specs.Blocks.{table_rows};
ghost use Rattle.observations.specs.Rows.{words_of};
ghost use Rattle.entries.specs.Forms.{EightRows};

use observations::Table;
use spec::Row;
use std::marker::Model;

// The store's words, the table, and the item's first row in it; a clause sees the eight rows. The item's number goes
// beside it: with both, each clause would take a pair apart.
#[derive(Drop)]
pub struct Entries<'a> {
    words: &'a [u64],
    table: Table,
    top: u64,
}

impl<'a> Model for Entries<'a> {
    ghost Value = { List (List ℕ) };

    ghost view = { λ s. table_rows s.words.now s.table.at s.table.rows 8 s.top };

    ghost invariant = { λ s. EightRows s.table.rows s.table.at s.top (length s.words.now) };
}

impl<'a> Entries<'a> {
    // The rows of an item.
    pub fn of(words: &'a [u64], table: Table, item: u64) -> Entries<'a>
        requires { EightRows table.rows table.at (8 * item) (length words.now) }
        ensures { result ≡ table_rows words.now table.at table.rows 8 (8 * item) }
    {
        Entries::from_row(words, table, spec::ENTRIES * item)
    }

    // The rows from row k on.
    pub fn from_row(words: &'a [u64], table: Table, k: u64) -> Entries<'a>
        requires { EightRows table.rows table.at k (length words.now) }
        ensures { result ≡ table_rows words.now table.at table.rows 8 k }
    {
        Entries {
            words,
            table,
            top: k,
        }
    }

    // How many they are.
    pub fn len(&self) -> u64
        ensures { (result ≡ 8) × (length self.now ≡ 8) }
    {
        // a field is read, so that the rows are known
        let _top = self.top;
        spec::ENTRIES
    }

    // Entry j.
    pub fn row(&self, j: u64) -> Row
        requires { j < 8 }
        ensures { get_or self.now j [] ≡ words_of result }
    {
        observations::row_at(self.words, self.table, self.top + j)
    }
}
