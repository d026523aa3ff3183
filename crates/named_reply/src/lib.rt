// The reply of the assets that a text names, in its order.
#![tactic(auto)]

ghost use Rattle.std.specs.Prelude.{◌≡◌, true, ◌<◌, ◌≤◌, length, MatchResult};
ghost use Rattle.spec.specs.Bytes.{split};
ghost use Rattle.spec.specs.declared.Refusal.TheVariants.{AssetNotFound};
ghost use Rattle.spec.specs.Text.{id_texts, longest_text};
ghost use Rattle.spec.specs.Assets.{used, capacity, find};
ghost use Rattle.history.specs.Calls.{named_reply};

use arrayvec::ArrayVec;
use assets::Assets;
use spec::{ASSET_SLOTS, Answer, Refusal};

// The cell of an id, or refusal AssetNotFound.
fn cell_of(assets: &Assets, id: &[u8]) -> Result<u64, Refusal>
    ensures { MatchResult result
        (λ i. (i ≡ find assets.now id.now) × (i < used assets.now) × (used assets.now ≤ capacity assets.now))
        (λ r. (r ≡ AssetNotFound) × (used assets.now ≤ find assets.now id.now)) }
{
    assets.find(id).ok_or(Refusal::AssetNotFound)
}

// The reply of the assets whose ids the text has, joined by ';': refusal AssetNotFound by the first that isn't stored,
// then Store by a cell's length. No id is empty, so a text has at most 128. Its array stands on the stack for it alone,
// and is filled here: as another function's result it was copied, and one asset took 1.5 times the instructions.
#[inline(never)]
pub fn reply_named(assets: &Assets, ids: &[u8], reply: &mut [u64]) -> Answer
    requires ids_length { length ids.now ≤ longest_text }
    requires ids_value { id_texts (split 59 ids.now) ≡ true }
    ensures { let x = named_reply assets.now (split 59 ids.now) reply.old in
        (result ≡ x.answer) × (reply.new ≡ x.reply) }
{
    let mut found: ArrayVec<u64, ASSET_SLOTS> = ArrayVec::new();
    for id in ids.split(|x| *x == b';') {
        let cell = cell_of(assets, id)?;
        found.push(cell);
    }
    asset_reply::reply_cells(assets, &found, reply)
}
