// The model's words: sizes, components and data items.
ghost use Rattle.std.specs.Prelude.{◌≡◌, ◌≤◌, cond, ◌&&◌, eqb};
ghost use Rattle.spec.specs.Model.{asset_change, category_of};
ghost use Rattle.spec.specs.Model.{sizes_ok, component_ok, item_ok, components_ok, items_ok, changes_ok};

use super::{
    ASSET_CHANGE, MAX_CATEGORY, Words, category_of, component_name, component_of, item_name,
    parent_of,
};

// Whether both sizes are in their range and the length is theirs: there are no Words before that is known.
#[tactic(auto, unfolding(spec::specs::Model::sizes_ok))]
pub fn sizes_ok(model: &[u32]) -> bool
    ensures { result ≡ sizes_ok model.now }
{
    let [c, m, words @ ..] = model else {
        return false;
    };
    let c = u64::from(*c);
    let m = u64::from(*m);
    (1..=spec::MAX_COMPONENTS).contains(&c)
        && (1..=spec::MAX_ITEMS).contains(&m)
        && words.len() as u64 == c + m
}

// Whether a word is one of component i: its parent before it (0 for component 0), its name one of the names.
#[tactic(auto, unfolding(spec::specs::Model::component_ok))]
fn component_ok(names: u64, i: u64, word: u64) -> bool
    ensures { result ≡ component_ok names i word }
{
    let above = i.max(1);
    parent_of(word) < above && component_name(word) < names
}

// Whether a word is one of a data item: a category, a component of c, a name of the names.
#[tactic(auto, unfolding(spec::specs::Model::item_ok))]
fn item_ok(c: u64, names: u64, word: u64) -> bool
    ensures { result ≡ item_ok c names word }
{
    category_of(word) <= MAX_CATEGORY && component_of(word) < c && item_name(word) < names
}

// 1 for the word of an asset change item, 0 for another.
fn one_if_change(word: u64) -> u64
    ensures { (result ≡ cond (eqb (category_of word) asset_change) 1 0) × (result ≤ 1) }
{
    u64::from(category_of(word) == ASSET_CHANGE)
}

// Whether every component's word is one.
pub fn components_ok(model: &Words<'_>, names: u64) -> bool
    ensures { result ≡ components_ok model.now names }
{
    (0..model.components()).all(|i| component_ok(names, i, model.component_word(i)))
}

// Whether every data item's word is one, and at most one of them of an asset change item.
pub fn items_ok(model: &Words<'_>, names: u64) -> bool
    ensures { result ≡ (items_ok model.now names && changes_ok model.now) }
{
    let c = model.components();
    let mut changes = 0;
    // No all, and the change items by filter and count: with two passes an observe took 273 ns for 248.
    for j in 0..model.items() {
        let word = model.item_word(j);
        if !item_ok(c, names, word) {
            return false;
        }
        changes += one_if_change(word);
    }
    changes <= 1
}
