// What a path selects.
#![tactic(auto)]

ghost use Rattle.std.specs.Prelude.{◌≡◌, ◌||◌, ◌<◌, take, Some};
ghost use Rattle.spec.specs.Words.{bit, set_of};
ghost use Rattle.spec.specs.Bytes.{same};
ghost use Rattle.spec.specs.Model.{letters, components, items, parent_of, component_word};
ghost use Rattle.spec.specs.Path.{has_type, under, select};
ghost use Rattle.select.specs.Choice.{type_given, chosen, by_names, SelectionFits};

use model::Named;
use paths::{PathForm, path_form};

// Whether the name in a cell is the text t. Most names differ early: only a name that agrees so far is measured. With
// each measured first, a late sample with a path took 1.12 of the second implementation's time for 0.82.
fn is_named(cell: &[u8], t: &[u8]) -> bool
    ensures { result ≡ same (take (letters cell.now) cell.now) t.now }
{
    cell.starts_with(t) && model::name_length(cell) == t.len()
}

// Whether component i has type name t or a parent in the set.
#[tactic(auto, unfolding(spec::specs::Path::is_named))]
fn joins(model: &Named<'_>, i: u64, t: &[u8], set: u64) -> bool
    requires { i < components model.now.words }
    ensures { result
        ≡ (has_type model.now.words model.now.names.now t.now i
        || bit set (parent_of (component_word model.now.words i))) }
{
    is_named(model.component_cell(i), t)
        || selection::has(set, model::parent_of(model.words.component_word(i)))
}

// The components that have type name t, or an ancestor that has. One pass does: a parent stands before its children.
fn under_type(model: &Named<'_>, t: &[u8]) -> u64
    ensures { result ≡ under model.now.words model.now.names.now t.now (components model.now.words) }
{
    let mut set = selection::NONE;
    for i in 0..model.words.components() {
        set = selection::with_if(joins(model, i, t, set), set, i);
    }
    set
}

// Whether data item j is of a component in the set and, where a type is given, of item type y.
#[tactic(auto, unfolding(spec::specs::Path::is_named, crate::specs::Choice::chosen, crate::specs::Choice::taken))]
fn takes(model: &Named<'_>, j: u64, set: u64, y: Option<&[u8]>) -> bool
    requires { j < items model.now.words }
    ensures { result ≡ chosen model.now.words model.now.names.now set (type_given y.entry) j }
{
    let cell = model.item_cell(j);
    selection::has(set, model::component_of(model.words.item_word(j)))
        && y.is_none_or(|y| is_named(cell, y))
}

// The items of the components in the set; where a type is given, only those of item type y.
// From the last item down, each step only moves the selection up by one. Tried from item 0 up by with_if, as in
// under_type: a late sample with a path took 0.75 of the second implementation's time for 0.81, but the compiler makes
// vectors of that loop, whose masks are 80 bytes of constants more than the archive may have.
fn items_of(model: &Named<'_>, set: u64, y: Option<&[u8]>) -> u64
    ensures { result ≡ set_of (chosen model.now.words model.now.names.now set (type_given y.entry))
        (items model.now.words) }
{
    let mut selection = selection::NONE;
    for j in (0..model.words.items()).rev() {
        selection = selection::moved_up(takes(model, j, set, y), selection);
    }
    selection
}

// What //T selects; where an item type is given, what //T//DataItem[@type="Y"] does.
fn select_names(model: &Named<'_>, t: &[u8], y: Option<&[u8]>) -> Option<u64>
    ensures { result ≡ by_names model.now.words model.now.names.now t.now (type_given y.entry) }
{
    let set = under_type(model, t);
    if selection::is_empty(set) {
        return None;
    }
    let selection = items_of(model, set, y);
    if y.is_some() && selection::is_empty(selection) {
        return None;
    }
    Some(selection)
}

// What a path selects.
pub fn select_path(model: &Named<'_>, path: &[u8]) -> Option<u64>
    ensures value { result ≡ select model.now.words model.now.names.now (Some path.now) }
    ensures selection_fits { SelectionFits result (items model.now.words) }
{
    let PathForm { t, y } = path_form(path)?;
    select_names(model, t, y)
}
