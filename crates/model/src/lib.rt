// The model and the names: their check, which every call makes, and the words of a checked model.
#![tactic(auto)]

ghost use Rattle.std.specs.Prelude.{◌≡◌, ◌+◌, ◌*◌, ◌≤◌, true, false, length, MatchResult};
ghost use Rattle.spec.specs.declared.Refusal.TheVariants.{Model as Refused};
ghost use Rattle.spec.specs.Model.{letters, parent_of, component_name, category_of};
ghost use Rattle.spec.specs.Model.{component_of, item_name, model_ok, name_bytes, name_cell, name_text, cell_ok};

use spec::Refusal;

mod checks;
mod named;
mod words;

pub use named::Named;
pub use words::Words;

// Where the numbers of components and of items stand, and where the component words begin; the item words follow them.
const COMPONENT_COUNT_AT: usize = 0;

const ITEM_COUNT_AT: usize = 1;

const COMPONENTS_AT: u64 = 2;

// A component's word has its parent above its name: how many names there is room for.
const COMPONENT_NAMES: u64 = 256;

// An item's word has its category above its component, and that above its name.
const ITEM_NAMES: u64 = 256;

const ITEM_COMPONENTS: u64 = 256;

const ITEM_CATEGORY: u64 = ITEM_NAMES * ITEM_COMPONENTS;

// The category beside spec's SAMPLE, EVENT, CONDITION and DISCRETE. Numbers and no enum, since a word that the C
// interface brings may have any number there.
const ASSET_CHANGE: u64 = 3;

const MAX_CATEGORY: u64 = spec::DISCRETE;

// The parts of a word by its number: a type would hold no fact, since the model's check is what bounds them. Here and
// in Words and Named a component has its functions and an item its own: a word of the one has other parts than of the
// other.

// A component's parent, by the component's word.
pub fn parent_of(word: u64) -> u64
    ensures { result ≡ parent_of word }
{
    word / COMPONENT_NAMES
}

// A component's name, by the component's word.
pub fn component_name(word: u64) -> u64
    ensures { result ≡ component_name word }
{
    word % COMPONENT_NAMES
}

// A data item's category, by the item's word.
pub fn category_of(word: u64) -> u64
    ensures { result ≡ category_of word }
{
    word / ITEM_CATEGORY
}

// A data item's component, by the item's word.
pub fn component_of(word: u64) -> u64
    ensures { result ≡ component_of word }
{
    word / ITEM_NAMES % ITEM_COMPONENTS
}

// A data item's name, by the item's word.
pub fn item_name(word: u64) -> u64
    ensures { result ≡ item_name word }
{
    word % ITEM_NAMES
}

// How many bytes of a name the cell starts with.
pub fn name_length(cell: &[u8]) -> usize
    ensures { (result ≡ letters cell.now) × (result ≤ length cell.now) }
{
    cell.iter()
        .position(|x| !scan::name_byte(*x))
        .unwrap_or(cell.len())
}

// The cell of name k.
fn name_cell(names: &[u8], k: u64) -> &[u8]
    requires { name_bytes * k + name_bytes ≤ length names.now }
    ensures { result.now ≡ name_cell names.now k }
{
    let at = spec::NAME_BYTES * (k as usize);
    &names[at..at + spec::NAME_BYTES]
}

// The text of name k of checked names. It ends where its cell's zeros begin: one test a byte finds that place, where
// name_length tests each range of a name's bytes.
fn name_text(names: &[u8], k: u64) -> &[u8]
    requires room { name_bytes * k + name_bytes ≤ length names.now }
    requires cell { cell_ok (name_cell names.now k) ≡ true }
    ensures { result.now ≡ name_text names.now k }
{
    let cell = name_cell(names, k);
    &cell[..cell.iter().position(|x| *x == 0).unwrap_or(cell.len())]
}

// Whether model and names keep their rules.
#[tactic(auto, unfolding(spec::specs::Model::model_ok))]
pub fn model_ok(model: &[u32], names: &[u8]) -> bool
    ensures { result ≡ model_ok model.now names.now }
{
    if !checks::sizes_ok(model) || !names::names_ok(names) {
        return false;
    }
    let words = Words::of(model);
    // By `as`, as everywhere between usize and u64: no From is there, and try_from would refuse what never comes.
    let count = (names.len() / spec::NAME_BYTES) as u64;
    checks::components_ok(&words, count) && checks::items_ok(&words, count)
}

// A model and its names that keep the rules, or refusal Model. No trait over this and what observations and assets have
// of the name: each has other arguments, another test and another refusal, and they share one `if`. A lifetime by name,
// since what is given holds both borrows.
pub fn checked<'a>(model: &'a [u32], names: &'a [u8]) -> Result<Named<'a>, Refusal>
    ensures { MatchResult result
        (λ s. (s.words ≡ model.entry.now) × (s.names.now ≡ names.entry.now)
        × (model_ok model.entry.now names.entry.now ≡ true))
        (λ r. (r ≡ Refused) × (model_ok model.entry.now names.entry.now ≡ false)) }
{
    if !model_ok(model, names) {
        return Err(Refusal::Model);
    }
    let words = Words::of(model);
    Ok(Named { words, names })
}
