// What store-asset does behind the checks of model and heads: an asset is refused, or stored, with its event where the
// model has an asset change item.
#![tactic(auto)]

ghost use Rattle.std.specs.Prelude.{◌≡◌, true, ◌<◌};
ghost use Rattle.spec.specs.Model.{items, category, change_item};
ghost use Rattle.history.specs.Observations.{Head};
ghost use Rattle.spec.specs.Assets.{AssetHead, asset_ok};
ghost use Rattle.history.specs.Calls.{room_for, keep_by, keep_asset};

use model::Words;
use observations::{Modelled, Store};
use spec::{Answer, Refusal, Value};

// The asset goes into its cell, and the event with that cell's number is added to the asset change item, where there
// is room for it.
fn keep_changed(
    model: &Words<'_>,
    observations: &mut [u64],
    assets: &mut [u8],
    change: u64,
    id: &[u8],
    body: &[u8],
    host: u64,
) -> Answer
    requires head { Head (items model.now) observations.old }
    requires asset_head { AssetHead assets.old }
    requires body_value { asset_ok id.now body.now ≡ true }
    requires change_value { (change ≡ change_item model.now) × (change < items model.now) }
    ensures { let st = observations.old in
        let room = room_for (category model.now) (items model.now) st in
        let x = keep_by room model.now st assets.old id.now body.now host in
        (result ≡ x.answer) × (observations.new ≡ x.observations) × (assets.new ≡ x.assets) }
{
    // behind it the sizes are known
    let _ = model.slice();
    let before = Store::of_model(model, observations);
    recording::room_for(Modelled {
        model: &*model,
        store: &before,
    })?;
    let cell = assets::store(assets, id, body);
    // cells are few: a TryFrom would ask for an answer that can't be
    let word = value::pack(change, Value::Event(cell as u32));
    recording::add(model, observations, change, host, word);
    Ok(cell)
}

// An asset's id and body, which stand apart as C hands them over: refused, or stored in their cell.
pub fn keep_asset(
    model: &Words<'_>,
    observations: &mut [u64],
    assets: &mut [u8],
    id: &[u8],
    body: &[u8],
    host: u64,
) -> Answer
    requires head { Head (items model.now) observations.old }
    requires asset_head { AssetHead assets.old }
    ensures { let x = keep_asset model.now observations.old assets.old
        id.now body.now host in
        (result ≡ x.answer) × (observations.new ≡ x.observations) × (assets.new ≡ x.assets) }
{
    if !assets::asset_ok(id, body) {
        return Err(Refusal::Asset);
    }
    let Some(change) = model.change_item() else {
        return Ok(assets::store(assets, id, body));
    };
    keep_changed(model, observations, assets, change, id, body, host)
}
