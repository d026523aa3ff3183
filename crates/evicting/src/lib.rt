// A table of the store takes an observation, and the entry that a number overwrites goes to its item's checkpoint.
// Between two writes what the head said goes beside the store, as n, b, s and p: why no type holds both stands at
// recording's head.
#![tactic(auto)]

ghost use Rattle.std.specs.Prelude.{◌≡◌, ◌<◌};
ghost use Rattle.spec.specs.Model.{items, category};
ghost use Rattle.history.specs.Observations.{place, set_newest, evict};
ghost use Rattle.observations.specs.Rows.{words_of};
ghost use Rattle.evicting.specs.Writing.{Overwriting, InTable};

use model::Words;
use observations::Table;
use spec::Row;

// The table at word t takes an observation of the item: the entries of a condition item, or another's one row. Its rows
// are as many as the model says, which a clause would ask of a Table. The item goes beside its row, as at
// plain::put_number.
pub fn set_newest(model: &Words<'_>, st: &mut [u64], t: u64, item: u64, row: Row)
    requires in_table { InTable (category model.now) (items model.now) t item st.old }
    ensures { st.new
        ≡ set_newest (category model.now) st.old t (items model.now) item (words_of row) }
{
    let table = Table {
        at: t,
        rows: spec::ENTRIES * model.items(),
    };
    let k = spec::ENTRIES * item;
    let category = model.category(item);
    if category == spec::CONDITION {
        stepping::step(st, table, k, item, row);
    } else {
        observations::put_row(st, table, k, row);
    }
}

// The entry at place p that number s is about to overwrite, if any, goes to its item's checkpoint.
pub fn evict(model: &Words<'_>, st: &mut [u64], n: u64, b: u64, s: u64, p: u64)
    requires overwriting { Overwriting (category model.now) n (items model.now) b s st.old }
    requires p_value { (p ≡ place n b s) × (p < n) }
    ensures { st.new ≡ evict (category model.now) n (items model.now) b s st.old }
{
    if let Some(evicted) = observations::overwritten(st, n, b, s, p) {
        let item = value::item_of(evicted.packed);
        let checkpoint = observations::checkpoint_at(n, model.items());
        set_newest(model, st, checkpoint, item, evicted);
    }
}
