// The C interface: every exported function, thin over the calls of `agent`, `delivery`, `line_reading`, `line_writing`
// and `streaming`. include/mtcore.h declares the same: slices and numbers stand apart, as C hands them over, and
// so they do in those calls.
#![tactic(auto)]

ghost use Rattle.std.specs.Prelude.{◌≡◌, take, drop};
ghost use Rattle.spec.specs.Answers.{answer_number, answer_count, observe_word, store_word};
ghost use Rattle.spec.specs.Value.{decode};
ghost use Rattle.spec.specs.Assets.{body_place};
ghost use Rattle.history.specs.Calls as calls;
ghost use Rattle.streams.specs.Streams.{streams};
ghost use Rattle.agent.specs.Place.{place_start, place_length};

use spec::{Answer, Record, Span};

// The answer of start, request, observe_batch, write_line and streams: 0 and k, or the refusal's number and 0. C has no
// Result.
#[repr(C)]
#[derive(Clone, Copy)]
pub struct Outcome {
    pub number: u64,
    pub count: u64,
}

// A part of the asset store; length 0 where it was refused. C has no Option.
#[repr(C)]
#[derive(Clone, Copy)]
pub struct Part {
    pub start: u64,
    pub length: u64,
}

// The answer's number and count. No plainer as a From: that wants a ghost relation beside these two equations.
fn outcome_of(answer: Answer) -> Outcome
    ensures number_value { result.number ≡ answer_number answer }
    ensures count_value { result.count ≡ answer_count answer }
{
    let number = answers::answer_number(answer);
    let count = answers::answer_count(answer);
    Outcome { number, count }
}

// The place's start and length; no From either.
fn part_of(place: Option<Span>) -> Part
    ensures start_value { result.start ≡ place_start place }
    ensures length_value { result.length ≡ place_length place }
{
    match place {
        Some(Span { start, len }) => Part {
            start: start as u64,
            length: len as u64,
        },
        None => Part {
            start: 0,
            length: 0,
        },
    }
}

// Both stores anew: agent's start.
#[unsafe(no_mangle)]
pub extern "C" fn mtcore_start(
    model: &[u32],
    names: &[u8],
    observations: &mut [u64],
    assets: &mut [u8],
    n: u64,
    a: u64,
    b: u64,
    host: u64,
) -> Outcome
    ensures { let x = calls.start model.now names.now observations.old
        assets.old n a b host in
        (result.number ≡ answer_number x.answer) × (result.count ≡ answer_count x.answer)
        × (observations.new ≡ x.observations) × (assets.new ≡ x.assets) }
{
    let answer = agent::start(model, names, observations, assets, n, a, b, host);
    outcome_of(answer)
}

// An observation of an item, its value given as a word: agent's observe.
#[unsafe(no_mangle)]
pub extern "C" fn mtcore_observe(
    model: &[u32],
    names: &[u8],
    observations: &mut [u64],
    item: u64,
    time: u64,
    host: u64,
    value: u64,
) -> u64
    ensures { let x = calls.observe model.now names.now observations.old
        item time host (decode value) in
        (result ≡ observe_word x.answer) × (observations.new ≡ x.observations) }
{
    let v = value::decode(value);
    let answer = agent::observe(model, names, observations, item, time, host, v);
    answers::observe_word(answer)
}

// A batch of observations: delivery's observe_batch.
#[unsafe(no_mangle)]
pub extern "C" fn mtcore_observe_batch(
    model: &[u32],
    names: &[u8],
    observations: &mut [u64],
    records: &[Record],
    host: u64,
    answers: &mut [u64],
) -> Outcome
    ensures { let x = calls.observe_batch model.now names.now observations.old
        records.now host answers.old in
        (result.number ≡ answer_number x.answer) × (result.count ≡ answer_count x.answer)
        × (observations.new ≡ x.observations) × (answers.new ≡ x.answers) }
{
    let answer = delivery::observe_batch(model, names, observations, records, host, answers);
    outcome_of(answer)
}

// An adapter line, observed as it reads: line_reading's read_line.
#[unsafe(no_mangle)]
pub extern "C" fn mtcore_read_line(
    model: &[u32],
    names: &[u8],
    observations: &mut [u64],
    line: &[u8],
    host: u64,
) -> u64
    ensures { let x = calls.observe_line model.now names.now observations.old
        line.now host in
        (result ≡ observe_word x.answer) × (observations.new ≡ x.observations) }
{
    let answer = line_reading::read_line(model, names, observations, line, host);
    answers::observe_word(answer)
}

// The adapter line of an observation, its value given as a word: line_writing's write_line.
#[unsafe(no_mangle)]
pub extern "C" fn mtcore_write_line(
    model: &[u32],
    names: &[u8],
    item: u64,
    time: u64,
    value: u64,
    text: &mut [u8],
) -> Outcome
    ensures { let x = calls.write_line model.now names.now item time (decode value)
        text.old in
        (result.number ≡ answer_number x.answer) × (result.count ≡ answer_count x.answer)
        × (text.new ≡ x.reply) }
{
    let v = value::decode(value);
    let answer = line_writing::write_line(model, names, item, time, v, text);
    outcome_of(answer)
}

// The streams document of a reply: streaming's streams.
#[unsafe(no_mangle)]
pub extern "C" fn mtcore_streams(
    model: &[u32],
    names: &[u8],
    reply: &[u64],
    n: u64,
    instance_id: u64,
    creation_time: u64,
    text: &mut [u8],
) -> Outcome
    ensures { let x = streams model.now names.now reply.now n instance_id
        creation_time text.old in
        (result.number ≡ answer_number x.answer) × (result.count ≡ answer_count x.answer)
        × (text.new ≡ x.reply) }
{
    let answer = streaming::streams(model, names, reply, n, instance_id, creation_time, text);
    outcome_of(answer)
}

// An asset's id and body: agent's store_asset.
#[unsafe(no_mangle)]
pub extern "C" fn mtcore_store_asset(
    model: &[u32],
    names: &[u8],
    observations: &mut [u64],
    assets: &mut [u8],
    id: &[u8],
    body: &[u8],
    host: u64,
) -> u64
    ensures { let x = calls.store_asset model.now names.now observations.old
        assets.old id.now body.now host in
        (result ≡ store_word x.answer) × (observations.new ≡ x.observations)
        × (assets.new ≡ x.assets) }
{
    let answer = agent::store_asset(model, names, observations, assets, id, body, host);
    answers::store_word(answer)
}

// A request's text, answered into the reply: agent's request.
#[unsafe(no_mangle)]
pub extern "C" fn mtcore_request(
    model: &[u32],
    names: &[u8],
    observations: &[u64],
    assets: &[u8],
    text: &[u8],
    reply: &mut [u64],
) -> Outcome
    ensures { let x = calls.request model.now names.now observations.now
        assets.now text.now reply.old in
        (result.number ≡ answer_number x.answer) × (result.count ≡ answer_count x.answer)
        × (reply.new ≡ x.reply) }
{
    let answer = agent::request(model, names, observations, assets, text, reply);
    outcome_of(answer)
}

// Where the body of the asset stands in the asset store; length 0 on any fault or missing id.
#[unsafe(no_mangle)]
pub extern "C" fn mtcore_body(assets: &[u8], id: &[u8]) -> Part
    ensures { let place = body_place assets.now id.now in
        (result.start ≡ place_start place) × (result.length ≡ place_length place)
        × (take result.length (drop result.start assets.now)
        ≡ calls.body assets.now id.now) }
{
    let place = assets::body_place(assets, id);
    part_of(place)
}
