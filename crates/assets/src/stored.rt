// The assets of a store whose head is right, to be read: counts, the cells of ids, the lengths and places of bodies.
ghost use Rattle.std.specs.Prelude.{◌≡◌, ◌<◌, ◌≤◌, List, ℕ};
ghost use Rattle.spec.specs.Assets as spec;
ghost use Rattle.spec.specs.Assets.{AssetHead, max_assets, capacity, used};
ghost use Rattle.spec.specs.Found.{found_below};
ghost use Rattle.assets.specs.Cells.{PlaceFits};

use super::{CAPACITY_AT, IDS_AT, LENGTH_BYTES, USED_AT, id_ok, length_ok};
use spec::{CELL_BYTES, ID_BYTES, Span};
use std::marker::Model;

// The store's bytes; a clause sees the list of them.
#[derive(Drop)]
pub struct Assets<'a> {
    bytes: &'a [u8],
}

impl<'a> Model for Assets<'a> {
    ghost Value = { List ℕ };

    ghost view = { λ s. s.bytes.now };

    ghost invariant = { λ s. AssetHead s.bytes.now };
}

impl<'a> Assets<'a> {
    // The assets of bytes whose head is known to be right.
    pub fn of(bytes: &'a [u8]) -> Assets<'a>
        requires { AssetHead bytes.now }
        ensures { result ≡ bytes.now }
    {
        Assets { bytes }
    }

    // How many assets the store holds at most.
    pub fn capacity(&self) -> u64
        ensures value { result ≡ capacity self.now }
        ensures lower_bound { 1 ≤ result }
        ensures upper_bound { result ≤ max_assets }
    {
        u64::from(self.bytes[CAPACITY_AT])
    }

    // How many assets the store holds.
    pub fn used(&self) -> u64
        ensures value { result ≡ used self.now }
        ensures upper_bound { (result ≤ capacity self.now) × (capacity self.now ≤ max_assets) }
    {
        u64::from(self.bytes[USED_AT])
    }

    // The lowest used cell that holds the id, if any does and the id is one. The id's own cell is made once.
    #[tactic(auto, using(crate::proofs::Laws::ids))]
    pub fn find(&self, id: &[u8]) -> Option<u64>
        ensures value { result ≡ found_below (used self.now) (spec.find self.now id.now) }
        ensures room { used self.now ≤ capacity self.now }
    {
        let bytes = self.bytes;
        if !id_ok(id) {
            return None;
        }
        let mut key = [0u8; ID_BYTES];
        key[..id.len()].copy_from_slice(id);
        let (ids, _) = bytes[IDS_AT..].as_chunks::<ID_BYTES>();
        // a byte as it stands, where `used` gives a number to be cast back
        let used = usize::from(bytes[USED_AT]);
        // of arrays: as slices, which is scan::equal, 128 cells take 635 ns and not 141
        ids[..used]
            .iter()
            .position(|cell| *cell == key)
            .map(|i| i as u64)
    }

    // Where the body cells begin.
    pub(super) fn bodies_at(&self) -> u64
        ensures { result ≡ spec.bodies_at (capacity self.now) }
    {
        IDS_AT as u64 + self.capacity() * ID_BYTES as u64
    }

    // The length that stands in body cell i.
    pub fn length_at(&self, i: u64) -> u64
        requires { i < capacity self.now }
        ensures value { result ≡ spec.length_at self.now i }
        ensures upper_bound { result < 65536 }
    {
        let bytes = self.bytes;
        let at = (self.bodies_at() + i * CELL_BYTES as u64) as usize;
        u64::from(u16::from_be_bytes([bytes[at], bytes[at + 1]]))
    }

    // The part of the store that is the asset's body; nothing for a missing id or a wrong length.
    pub(super) fn body_place(&self, id: &[u8]) -> Option<Span>
        ensures value { result ≡ spec.body_place self.now id.now }
        ensures place_fits { PlaceFits self.now result }
    {
        // behind it the head is known
        let _ = &self.bytes;
        let i = self.find(id)?;
        let n = self.length_at(i);
        if !length_ok(n) {
            return None;
        }
        let start = self.bodies_at() + i * CELL_BYTES as u64 + LENGTH_BYTES;
        Some(Span {
            start: start as usize,
            len: n as usize,
        })
    }

    // The cell that is given up for the id: the one that holds it, or the oldest where no room is left.
    pub(super) fn out_for(&self, id: &[u8]) -> Option<u64>
        ensures { result ≡ found_below (used self.now) (spec.out_for id.now self.now) }
    {
        match self.find(id) {
            None if self.used() == self.capacity() => Some(0),
            found => found,
        }
    }
}
