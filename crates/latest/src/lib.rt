// The rows of current: the latest entries of the selected items, counted and written.
#![tactic(auto)]

ghost use Rattle.std.specs.Prelude.{◌≡◌, true, [], ◌∷◌, ◌+◌, ◌*◌, ◌^◌, ◌≤◌, ◌<◌, length, get_or};
ghost use Rattle.spec.specs.Entries.{used_rows};
ghost use Rattle.rows.specs.Rows.{rows_at, rows_into};
ghost use Rattle.latest.specs.Latest.{latest_in, latest_extra};

use entries::Entries;
use observations::Modelled;

// How many rows the selected condition items have beyond the first of each; None where the entries of one are not in
// their written form, or none is used.
pub fn extra(source: Modelled<'_>, selection: u64) -> Option<u64>
    ensures { result ≡ latest_extra source.entry.model.now source.entry.store.now selection }
{
    let words = source.store.slice();
    let m = source.model.items();
    let latest = source.store.latest();
    let mut extra: u64 = 0;
    for i in 0..m {
        if selection::has(selection, i) && source.model.category(i) == spec::CONDITION {
            let entries = Entries::of(words, latest, i);
            let n = entries::count(&entries, i).filter(|n| *n != 0)?;
            extra += n - 1;
        }
    }
    Some(extra)
}

// The used ones of an item's entries, where `done` of the k rows are written; how many are written then. No plainer
// with done, k and out in a struct as writer::Output is, which grows at one place: k is fixed before, and rows_at is
// over the whole buffer in two places at once, numbers and pairs.
fn write_entries(entries: &Entries<'_>, done: u64, k: u64, out: &mut [u64]) -> u64
    requires { (done + length (used_rows entries.now) ≤ k) × (3 * k ≤ length out.old) }
    ensures value { result ≡ done + length (used_rows entries.now) }
    ensures out_after { out.new ≡ rows_at out.old done (k + 2 * done) (used_rows entries.now) }
{
    // a number of turns that the compiler doesn't know keeps it from writing the loop out eight times: by all eight,
    // current took 680 ns for 648
    let most = entries.len().min(k - done);
    for j in 0..most {
        let row = entries.row(j);
        let c = done + j;
        if row.number == 0 {
            return c;
        }
        rows::write_row_of(out, c, k, row);
    }
    done + most
}

// The first of an item's entries as it stands, used or not, where `done` of the k rows are written.
fn write_first(entries: &Entries<'_>, done: u64, k: u64, out: &mut [u64])
    requires { (done < k) × (3 * k ≤ length out.old) }
    ensures { out.new ≡ rows_at out.old done (k + 2 * done) (get_or entries.now 0 [] ∷ []) }
{
    rows::write_row_of(out, done, k, entries.row(0));
}

// Current: the rows of the selected items' latest entries, which are k: of each as many as it has.
pub fn write_latest(source: Modelled<'_>, selection: u64, k: u64, out: &mut [u64])
    requires k_value { k ≡ length (latest_in source.model.now source.store.now selection) }
    requires k_in_bounds { 3 * k ≤ length out.old }
    ensures { out.new ≡ rows_into out.old k (latest_in source.entry.model.now source.entry.store.now selection) }
{
    let words = source.store.slice();
    let m = source.model.items();
    let latest = source.store.latest();
    let mut c: u64 = 0;
    for i in 0..m {
        if selection::has(selection, i) {
            let entries = Entries::of(words, latest, i);
            if source.model.category(i) == spec::CONDITION {
                c = write_entries(&entries, c, k, out);
            } else {
                write_first(&entries, c, k, out);
                c += 1;
            }
        }
    }
}
