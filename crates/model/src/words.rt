// A model's words once its sizes are right: what every reader of a model needs to know of it.
ghost use Rattle.std.specs.Prelude.{◌≡◌, ◌≤◌, ◌<◌, List, ℕ, MatchOption};
ghost use Rattle.spec.specs.Found.{found_below};
ghost use Rattle.spec.specs.Model.{max_components, max_items, components, items, Sizes};
ghost use Rattle.spec.specs.Model.{component_word, item_word, category, change_item};

use super::{ASSET_CHANGE, COMPONENT_COUNT_AT, COMPONENTS_AT, ITEM_COUNT_AT, category_of};
use std::marker::Model;

// The words; a clause sees the list of them.
#[derive(Drop)]
pub struct Words<'a> {
    words: &'a [u32],
}

impl<'a> Model for Words<'a> {
    ghost Value = { List ℕ };

    ghost view = { λ s. s.words.now };

    ghost invariant = { λ s. Sizes s.words.now };
}

impl<'a> Words<'a> {
    // The words of a model whose sizes are known to be right.
    pub fn of(words: &'a [u32]) -> Words<'a>
        requires { Sizes words.now }
        ensures { result ≡ words.now }
    {
        Words { words }
    }

    // The words as they are.
    pub fn slice(&self) -> &'a [u32]
        ensures value { result.now ≡ self.now }
        ensures sizes { Sizes self.now }
    {
        self.words
    }

    // How many components the model has.
    pub fn components(&self) -> u64
        ensures { (result ≡ components self.now) × (result ≤ max_components) }
    {
        u64::from(self.words[COMPONENT_COUNT_AT])
    }

    // How many data items the model has.
    pub fn items(&self) -> u64
        ensures { (result ≡ items self.now) × (result ≤ max_items) }
    {
        u64::from(self.words[ITEM_COUNT_AT])
    }

    // The word of component i.
    pub fn component_word(&self, i: u64) -> u64
        requires { i < components self.now }
        ensures { result ≡ component_word self.now i }
    {
        let words = self.words;
        let at = (COMPONENTS_AT + i) as usize;
        u64::from(words[at])
    }

    // The word of data item j.
    pub fn item_word(&self, j: u64) -> u64
        requires { j < items self.now }
        ensures { result ≡ item_word self.now j }
    {
        let words = self.words;
        let at = (COMPONENTS_AT + self.components() + j) as usize;
        u64::from(words[at])
    }

    // The category of data item j. Who asks for one kind compares it: a method for that would be as long.
    pub fn category(&self, j: u64) -> u64
        requires { j < items self.now }
        ensures { result ≡ category self.now j }
    {
        category_of(self.item_word(j))
    }

    // The category of an item's number, where the model has that item: a number from outside is tested by it.
    pub fn category_at(&self, item: u64) -> Option<u64>
        ensures { MatchOption result (items self.now ≤ item)
            (λ k. (k ≡ category self.now item) × (item < items self.now) × (items self.now ≤ max_items)) }
    {
        // No `then`: of a closure that calls a method of the words the library's clause says nothing, and with a
        // clause of its own it is longer than the test.
        if self.items() <= item {
            return None;
        }
        Some(self.category(item))
    }

    // The data item of category asset change, where there is one.
    pub fn change_item(&self) -> Option<u64>
        ensures { (result ≡ found_below (items self.now) (change_item self.now)) × (items self.now ≤ max_items) }
    {
        (0..self.items()).find(|j| self.category(*j) == ASSET_CHANGE)
    }
}
