// The reply of cells of the asset store, and of all of them, newest first.
#![tactic(auto)]

ghost use Rattle.std.specs.Prelude.{◌≡◌, ◌*◌, ◌≤◌, ◌<◌, true, false, length, MatchResult};
ghost use Rattle.std.proofs.lemmas.List.Edits.{sets};
ghost use Rattle.spec.specs.declared.Refusal.TheVariants.{Store};
ghost use Rattle.spec.specs.Assets.{capacity, used, length_at, length_ok};
ghost use Rattle.spec.specs.Reply.{numbers, lengths};
ghost use Rattle.history.specs.Calls.{cell_rows, all_cells, cells_reply, down_from};
ghost use Rattle.asset_reply.specs.Cells.{Cells};

use assets::Assets;
use reply::SIZES;
use spec::{Answer, Refusal};

// Refusal Store, if the length of a cell is none that a body may have. That the cells are the store's stays a clause,
// here and below: a type of both would be made by one call, for one function that takes it apart.
fn check_lengths(assets: &Assets, cells: &[u64]) -> Result<(), Refusal>
    requires { Cells assets.now cells.now }
    ensures { let right = all_cells (λ i. length_ok (length_at assets.now i)) cells.now in
        MatchResult result (λ _. right ≡ true) (λ r. (r ≡ Store) × (right ≡ false)) }
{
    let right = cells.iter().all(
        |cell|
            requires { cell.now < capacity assets.now }
        { assets::length_ok(assets.length_at(*cell)) },
    );
    if !right {
        return Err(Refusal::Store);
    }
    Ok(())
}

// The cells, then their lengths.
fn write_cells(assets: &Assets, cells: &[u64], out: &mut [u64])
    requires cells { Cells assets.now cells.now }
    requires in_bounds { 2 * length cells.now ≤ length out.old }
    ensures { let rows = cell_rows assets.now cells.now in
        out.new ≡ sets (sets out.old 0 (numbers rows)) (length cells.now) (lengths rows) }
{
    let k = cells.len();
    out[..k].copy_from_slice(cells);
    for (i, cell) in cells.iter().enumerate() {
        // by place: of what a zip with iter_mut writes, the library says nothing
        out[k + i] = assets.length_at(*cell);
    }
}

// The reply of the cells: a wrong length (refusal Store) goes before a buffer that is too short (Space).
pub fn reply_cells(assets: &Assets, cells: &[u64], reply: &mut [u64]) -> Answer
    requires { Cells assets.now cells.now }
    ensures { let x = cells_reply assets.now cells.now reply.old in
        (result ≡ x.answer) × (reply.new ≡ x.reply) }
{
    check_lengths(assets, cells)?;
    let k = cells.len() as u64;
    let used = assets.used();
    let capacity = assets.capacity();
    reply::fit_sizes(reply, 2 * k, [k, used, capacity, 0])?;
    write_cells(assets, cells, &mut reply[SIZES..]);
    Ok(k)
}

// Refusal Store, if the length of a cell below k is none that a body may have.
fn check_used(assets: &Assets, k: u64) -> Result<(), Refusal>
    requires { k ≤ capacity assets.now }
    ensures { let right = all_cells (λ i. length_ok (length_at assets.now i)) (down_from k) in
        MatchResult result (λ _. right ≡ true) (λ r. (r ≡ Store) × (right ≡ false)) }
{
    let right = (0..k).all(
        |cell|
            requires { cell < capacity assets.now }
        { assets::length_ok(assets.length_at(cell)) },
    );
    if !right {
        return Err(Refusal::Store);
    }
    Ok(())
}

// The cells k - 1, .. 0, then their lengths: each turn writes the newest that is left.
fn write_used(assets: &Assets, k: u64, out: &mut [u64])
    requires cells { k ≤ capacity assets.now }
    requires in_bounds { 2 * k ≤ length out.old }
    ensures { let rows = cell_rows assets.now (down_from k) in
        out.new ≡ sets (sets out.old 0 (numbers rows)) k (lengths rows) }
{
    for i in 0..k {
        let newest = k - 1 - i;
        out[i as usize] = newest;
        out[(k + i) as usize] = assets.length_at(newest);
    }
}

// The reply of all assets. By reply_cells their cells would be listed first, and it took 1.6 times the time.
pub fn reply_all(assets: &Assets, reply: &mut [u64]) -> Answer
    ensures { let x = cells_reply assets.now (down_from (used assets.now)) reply.old in
        (result ≡ x.answer) × (reply.new ≡ x.reply) }
{
    let k = assets.used();
    check_used(assets, k)?;
    reply::fit_sizes(reply, 2 * k, [k, k, assets.capacity(), 0])?;
    write_used(assets, k, &mut reply[SIZES..]);
    Ok(k)
}
