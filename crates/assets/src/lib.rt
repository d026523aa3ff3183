// The asset store: its head, its ids, its bodies, and what store-asset and start write.
#![tactic(auto)]

ghost use Rattle.std.specs.Prelude.{◌≡◌, true, false, ◌<◌, ◌≤◌, length, MatchResult};
ghost use Rattle.spec.specs.declared.Refusal.TheVariants.{Store as Refused};
ghost use Rattle.spec.specs.Assets as spec;
ghost use Rattle.spec.specs.Assets.{AssetHead, max_assets, id_bytes, max_body, capacity};
ghost use Rattle.assets.specs.Cells.{PlaceFits, with_asset};

use scan::id_byte;
use spec::{CELL_BYTES, ID_BYTES, MAX_ASSETS, MAX_BODY, Refusal, Span};

mod stored;

pub use stored::Assets;

// The places of the head's bytes, and where the id cells begin behind them.
const CAPACITY_AT: usize = 0;

const USED_AT: usize = 1;

const IDS_AT: usize = 2;

// The bytes of one asset's two cells, and of the length in front of a body.
const ASSET_BYTES: usize = ID_BYTES + CELL_BYTES;

const LENGTH_BYTES: u64 = 2;

// How many bytes a store of a cells has.
pub fn bytes_for(a: u64) -> u64
    requires { a ≤ max_assets }
    ensures { result ≡ spec.store_bytes a }
{
    IDS_AT as u64 + a * ASSET_BYTES as u64
}

// Whether the head and the length of an asset store are right.
#[tactic(auto, unfolding(spec::specs::Assets::asset_head_ok))]
pub fn head_ok(bs: &[u8]) -> bool
    ensures { result ≡ spec.asset_head_ok bs.now }
{
    let [a, u, ..] = bs else {
        return false;
    };
    let a = u64::from(*a);
    (1..=MAX_ASSETS).contains(&a) && u64::from(*u) <= a && bs.len() as u64 == bytes_for(a)
}

// Whether a stored length is one that a body may have.
#[tactic(auto, unfolding(spec::specs::Assets::length_ok))]
pub fn length_ok(n: u64) -> bool
    ensures { result ≡ spec.length_ok n }
{
    (1..=MAX_BODY).contains(&n)
}

// Whether the bytes are an asset's id.
#[tactic(auto, unfolding(spec::specs::Assets::id_ok))]
pub fn id_ok(id: &[u8]) -> bool
    ensures { result ≡ spec.id_ok id.now }
{
    (1..=ID_BYTES).contains(&id.len()) && id.iter().all(|x| id_byte(*x))
}

// Whether id and body are an asset's.
#[tactic(auto, unfolding(spec::specs::Assets::asset_ok, spec::specs::Assets::body_ok))]
pub fn asset_ok(id: &[u8], body: &[u8]) -> bool
    ensures { result ≡ spec.asset_ok id.now body.now }
{
    id_ok(id) && length_ok(body.len() as u64)
}

// The assets of a store with a right head, or refusal Store. Why no trait has this: model::checked.
pub fn checked(bs: &[u8]) -> Result<Assets<'_>, Refusal>
    ensures { MatchResult result
        (λ s. (s ≡ bs.entry.now) × (spec.asset_head_ok bs.entry.now ≡ true))
        (λ r. (r ≡ Refused) × (spec.asset_head_ok bs.entry.now ≡ false)) }
{
    if !head_ok(bs) {
        return Err(Refusal::Store);
    }
    Ok(Assets::of(bs))
}

// The part of the store that is the asset's body; nothing on any fault or missing id. No Range: the C interface hands
// out a start and a length.
pub fn body_place(bs: &[u8], id: &[u8]) -> Option<Span>
    ensures value { result ≡ spec.body_place bs.now id.now }
    ensures place_fits { PlaceFits bs.now result }
{
    checked(bs).ok()?.body_place(id)
}

// An empty store of a cells. Their number fits a byte, and so do the counts below, and a body's length fits two: a
// conversion that may fail would refuse what never comes.
pub fn start(bs: &mut [u8], a: u64)
    requires le_a { (1 ≤ a) × (a ≤ max_assets) }
    requires bs_len { length bs.old ≡ spec.store_bytes a }
    ensures { bs.new ≡ spec.start_assets a }
{
    bs.fill(0);
    bs[CAPACITY_AT] = a as u8;
}

// Of n used cells, cell `out` is given up, and the asset goes into the last one.
fn put_asset(bs: &mut [u8], out: u64, n: u64, id: &[u8], body: &[u8])
    requires asset_head { AssetHead bs.old }
    requires out_lt_n { (out < n) × (n ≤ capacity bs.old) }
    requires id_len_bound { (length id.now ≤ id_bytes) × (length body.now ≤ max_body) }
    ensures { bs.new ≡ with_asset out n id.now body.now bs.old }
{
    let bodies = Assets::of(bs).bodies_at() as usize;
    let head = (body.len() as u16).to_be_bytes();
    cells::renew_cells(bs, ID_BYTES, IDS_AT, out as usize, n as usize, &[], id);
    cells::renew_cells(
        bs,
        CELL_BYTES,
        bodies,
        out as usize,
        n as usize,
        &head,
        body,
    );
    bs[USED_AT] = n as u8;
}

// The asset replaces the one with its id, goes into a free cell, or takes the oldest one's place. The answer is its
// cell. Id and body in one struct would be no plainer: they come apart, and each goes to a cell of its own.
pub fn store(bs: &mut [u8], id: &[u8], body: &[u8]) -> u64
    requires asset_head { AssetHead bs.old }
    requires body_value { spec.asset_ok id.now body.now ≡ true }
    ensures bs_after { bs.new ≡ spec.store_cells id.now body.now bs.old }
    ensures value { result ≡ spec.cell_for id.now bs.old }
{
    let before = Assets::of(bs);
    let u = before.used();
    let (out, n) = match before.out_for(id) {
        Some(i) => (i, u),
        None => (u, u + 1),
    };
    put_asset(bs, out, n, id, body);
    n - 1
}
