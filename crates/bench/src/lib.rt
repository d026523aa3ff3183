// The bench case of document 01: its start and its observes, and one request behind them.
#![tactic(auto)]

ghost use Rattle.std.specs.Prelude.{◌≡◌, ◌≤◌, replicate};
ghost use Rattle.cases.specs.Bench.{bench_model, bench_names, bench_words, bench_bytes, bench_stores, bench_request};
ghost use Rattle.bench.specs.Print.{words_of, reply_length};

use reply::{NEXT_AT, ROW_WORDS, SIZES};
use spec::{Answer, Value};

// Its stores: the words for a ring of 3 and 2 items, and the bytes for 1 asset.
const STORE_WORDS: usize = 106;

const STORE_BYTES: usize = 546;

// The words of a reply's buffer.
pub const REPLY_WORDS: usize = 64;

// Two components and two items.
fn model() -> [u32; 6]
    ensures { result ≡ bench_model }
{
    [2, 2, 0, 1, 65538, 259]
}

// Four names, each in a cell of 24 bytes.
fn names() -> [u8; 96]
    ensures { result ≡ bench_names }
{
    *b"Device\0\0\0\0\0\0\0\0\0\0\0\0\0\0\0\0\0\0\
       Axes\0\0\0\0\0\0\0\0\0\0\0\0\0\0\0\0\0\0\0\0\
       AVAILABILITY\0\0\0\0\0\0\0\0\0\0\0\0\
       POSITION\0\0\0\0\0\0\0\0\0\0\0\0\0\0\0\0"
}

// Start and the three observes, in stores of zeros: the second observe is Same, the third has no time of its own.
fn prepare(model: &[u32], names: &[u8], observations: &mut [u64], assets: &mut [u8])
    requires model_value { model.now ≡ bench_model }
    requires names_value { names.now ≡ bench_names }
    requires observations_value { observations.old ≡ replicate bench_words 0 }
    requires assets_value { assets.old ≡ replicate bench_bytes 0 }
    ensures observations_after { observations.new ≡ bench_stores.observations }
    ensures assets_after { assets.new ≡ bench_stores.assets }
{
    let _ = agent::start(model, names, observations, assets, 3, 1, 1, 1000);
    let observes = [
        (1010, 1010, Value::Sample(5000)),
        (1020, 1020, Value::Sample(5000)),
        (0, 1030, Value::Sample(-1)),
    ];
    for (time, host, value) in observes {
        let _ = agent::observe(model, names, observations, 1, time, host, value);
    }
}

// The words of a reply of k rows, whose fourth word is 0 only in an asset reply: its rows have two. Words alone tell
// the kind of a reply, as C has it.
fn words_of(next: u64, k: usize) -> usize
    requires { words_of next k ≤ 64 }
    ensures { result ≡ words_of next k }
{
    if next == 0 {
        SIZES + 2 * k
    } else {
        SIZES + ROW_WORDS * k
    }
}

// How many of the reply buffer's words are the reply's.
pub fn word_count(answer: Answer, reply: &[u64; REPLY_WORDS]) -> usize
    requires { reply_length answer reply.now ≤ 64 }
    ensures { result ≡ reply_length answer reply.now }
{
    answer.map_or(0, |k| words_of(reply[NEXT_AT], k as usize))
}

// The answer of one request behind the bench case's calls, and its reply.
pub fn ask(text: &[u8], reply: &mut [u64; REPLY_WORDS]) -> Answer
    ensures fact { let x = bench_request text.now reply.old in
        (result ≡ x.answer) × (reply.new ≡ x.reply) }
    ensures reply_bound { reply_length result reply.new ≤ 64 }
{
    let model = model();
    let names = names();
    let mut observations = [0u64; STORE_WORDS];
    let mut assets = [0u8; STORE_BYTES];
    prepare(&model, &names, &mut observations, &mut assets);
    agent::request(&model, &names, &observations, &assets, text, reply)
}
