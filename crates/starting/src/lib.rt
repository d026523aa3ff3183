// What start does behind the check of model and names: sizes and lengths are refused, or both stores are made anew.
#![tactic(auto)]

ghost use Rattle.std.specs.Prelude.{◌≡◌, ◌≤◌, length};
ghost use Rattle.spec.specs.Model.{max_items, items, category};
ghost use Rattle.history.specs.Observations.{store_words, start_store};
ghost use Rattle.history.specs.Calls.{start_ok};
ghost use Rattle.starting.specs.Start.{Starting, started_by};

use model::Words;
use spec::{Answer, MAX_ASSETS, MAX_NUMBER, MAX_RING, Refusal, Row, Value};

// Whether the sizes, the first number and the stores' lengths are ones that start takes.
#[tactic(auto, unfolding(history::specs::Calls::start_ok))]
fn start_ok(m: u64, n: u64, a: u64, b: u64, words: u64, size: u64) -> bool
    requires { m ≤ max_items }
    ensures { result ≡ start_ok m n a b words size }
{
    // b + m could wrap
    (1..=MAX_RING).contains(&n)
        && (1..=MAX_ASSETS).contains(&a)
        && (1..=MAX_NUMBER + 1 - m).contains(&b)
        && words == observations::words_for(n, m)
        && size == assets::bytes_for(a)
}

// The store that start makes, whatever stood there: each item in turn Unavailable, the first with number b. It is its
// item's first, so one row takes it, and the places go round beside the items, with no division for each: with N = 64
// and A = 1 start took 0.74 of the second implementation's time with a counted place, and 1.28 by recording's way.
fn start_store(model: &Words<'_>, st: &mut [u64], n: u64, b: u64, host: u64)
    requires starting { Starting n (items model.now) b }
    requires st_len { length st.old ≡ store_words n (items model.now) }
    ensures { st.new ≡ start_store (category model.now) n (items model.now) b host }
{
    let m = model.items();
    observations::make_blank(st, n, m, b);
    for (item, p) in (0..m).zip((0..n).cycle()) {
        let row = Row {
            number: b + item,
            time: host,
            packed: value::pack(item, Value::Unavailable),
        };
        evicting::evict(model, st, n, b, row.number, p);
        plain::put_number(st, n, m, p, item, row);
    }
}

// Both stores anew: one Unavailable for each item from number b on, at the host's time, and no asset.
pub fn start_both(
    model: &Words<'_>,
    observations: &mut [u64],
    assets: &mut [u8],
    n: u64,
    a: u64,
    b: u64,
    host: u64,
) -> Answer
    ensures { let x = started_by model.now observations.old assets.old n a b host in
        (result ≡ x.answer) × (observations.new ≡ x.observations) × (assets.new ≡ x.assets) }
{
    let m = model.items();
    if !start_ok(m, n, a, b, observations.len() as u64, assets.len() as u64) {
        return Err(Refusal::Size);
    }
    start_store(model, observations, n, b, host);
    assets::start(assets, a);
    Ok(0)
}
