// A model with its names, once both keep the rules: what a reader of words and names needs to know of them.
ghost use Rattle.std.specs.Prelude.{◌≡◌, ◌<◌};
ghost use Rattle.spec.specs.Model.{Checked, name_cell, name_text, components, items};
ghost use Rattle.spec.specs.Model.{component_word, component_name, item_word, item_name};

use super::{Words, component_name, item_name, name_cell, name_text};

// The model's words, and the cells of the names.
#[derive(Drop)]
pub struct Named<'a> {
    pub words: Words<'a>,
    pub names: &'a [u8],
    ghost checked: { Checked words names.now },
}

// A component's name and an item's: the number of each stands in a word of its own, of its own form, and one function
// of a number would ask that it is below the names' count.
impl Named<'_> {
    // The cell of component i's name.
    pub fn component_cell(&self, i: u64) -> &[u8]
        requires { i < components self.now.words }
        ensures { result.now ≡ name_cell self.now.names.now (component_name (component_word self.now.words i)) }
    {
        name_cell(self.names, component_name(self.words.component_word(i)))
    }

    // The cell of data item j's name.
    pub fn item_cell(&self, j: u64) -> &[u8]
        requires { j < items self.now.words }
        ensures { result.now ≡ name_cell self.now.names.now (item_name (item_word self.now.words j)) }
    {
        name_cell(self.names, item_name(self.words.item_word(j)))
    }

    // Component i's name.
    pub fn component_text(&self, i: u64) -> &[u8]
        requires { i < components self.now.words }
        ensures { result.now ≡ name_text self.now.names.now (component_name (component_word self.now.words i)) }
    {
        name_text(self.names, component_name(self.words.component_word(i)))
    }

    // Data item j's name.
    pub fn item_text(&self, j: u64) -> &[u8]
        requires { j < items self.now.words }
        ensures { result.now ≡ name_text self.now.names.now (item_name (item_word self.now.words j)) }
    {
        name_text(self.names, item_name(self.words.item_word(j)))
    }
}
