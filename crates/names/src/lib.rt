// The check of the names: cells with a name and then zeros in each. The passes over bytes take no branch by a byte, so
// that they go over many at once, without which an observe with 256 names takes twelve times as long; only a single
// name, which has no whole block, goes byte by byte.
#![tactic(auto)]

ghost use Rattle.std.specs.Prelude.{◌≡◌};
ghost use Rattle.std.specs.List.{concat};
ghost use Rattle.spec.specs.Model.{names_ok};
ghost use Rattle.names.specs.Cells.{cell_byte, cell_bytes, follows, zeros_last};

use std::slice::from_ref;

// The bytes that are looked at together.
const BLOCK: usize = 32;

// Whether x may stand in a cell: a byte of a name, or 0.
fn cell_byte(x: u8) -> bool
    ensures { result ≡ cell_byte x }
{
    scan::name_byte(x) | (x == 0)
}

// Whether each byte of the blocks may stand in a cell. Its code stands once for both its calls.
#[inline(never)]
fn blocks_ok(blocks: &[[u8; BLOCK]]) -> bool
    ensures { result ≡ cell_bytes (concat blocks.now) }
{
    let mut fine = true;
    for x in blocks.as_flattened() {
        fine &= cell_byte(*x);
    }
    fine
}

// cell_bytes, byte by byte: for less than a block.
fn few_ok(s: &[u8]) -> bool
    ensures { result ≡ cell_bytes s.now }
{
    s.iter().all(|x| cell_byte(*x))
}

// Whether every byte may stand in a cell. It goes by whole blocks, so that no bytes want a loop of their own: where
// some are left behind them, the slice's last block has them.
#[tactic(auto, using(crate::proofs::CellLaws::in_blocks))]
fn cell_bytes(s: &[u8]) -> bool
    ensures { result ≡ cell_bytes s.now }
{
    let Some(last) = s.last_chunk::<BLOCK>() else {
        return few_ok(s);
    };
    let (blocks, _) = s.as_chunks::<BLOCK>();
    blocks_ok(blocks) & blocks_ok(from_ref(last))
}

// Whether b may stand behind a: behind a 0 only 0.
fn follows(a: u8, b: u8) -> bool
    ensures { result ≡ follows a b }
{
    (a != 0) | (b == 0)
}

// Whether the cell starts with no 0 and has nothing else behind a 0.
fn zeros_last(cell: &[u8; spec::NAME_BYTES]) -> bool
    ensures { result ≡ zeros_last cell.now }
{
    let mut fine = cell[0] != 0;
    for [a, b] in cell.array_windows::<2>() {
        fine &= follows(*a, *b);
    }
    fine
}

// Whether the names are 1 to 256 cells, each of them a name.
pub fn names_ok(names: &[u8]) -> bool
    ensures { result ≡ names_ok names.now }
{
    let (cells, rest) = names.as_chunks::<{ spec::NAME_BYTES }>();
    rest.is_empty()
        && (1..=spec::MAX_NAMES).contains(&cells.len())
        && cell_bytes(names)
        && cells.iter().all(|cell| zeros_last(cell))
}
