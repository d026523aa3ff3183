// An answer as document 01 writes it: number and count, or one word.
#![tactic(auto)]

ghost use Rattle.std.specs.Prelude.{◌≡◌, ◌<◌};
ghost use Rattle.answers.specs.Places.{number_at};
ghost use Rattle.spec.specs.Answers.{refusal_number, refusal_word, answer_number, answer_count};
ghost use Rattle.spec.specs.Answers.{observe_word, store_word};

use spec::{Answer, Noted, ObserveAnswer, Refusal};

// The refusal's place among them all, from 1 on. Without a gap the compiler makes a sum of it; `refusal as u64`, with
// its gap at 12, gets a table, which document 02, Req 03, rules out.
fn refusal_place(refusal: Refusal) -> u64
    ensures result_value { number_at result ≡ refusal_number refusal }
    ensures upper_bound { result < 31 }
{
    match refusal {
        Refusal::Model => 1,
        Refusal::Store => 2,
        Refusal::Size => 3,
        Refusal::Item => 4,
        Refusal::Kind => 5,
        Refusal::Spent => 6,
        Refusal::InvalidUri => 7,
        Refusal::InvalidRequest => 8,
        Refusal::Unsupported => 9,
        Refusal::TooMany => 10,
        Refusal::InvalidXpath => 11,
        Refusal::AssetNotFound => 12,
        Refusal::Asset => 13,
        Refusal::Space => 14,
        Refusal::Batch => 15,
        Refusal::Late => 16,
        Refusal::Early => 17,
        Refusal::Crowded => 18,
        Refusal::Line => 19,
        Refusal::Stamp => 20,
    }
}

// The refusal's number, of five bits: 12 is none's.
fn refusal_number(refusal: Refusal) -> u64
    ensures value { result ≡ refusal_number refusal }
    ensures upper_bound { result < 32 }
{
    let place = refusal_place(refusal);
    if place < 12 { place } else { place + 1 }
}

// Bit 63, which a refusal's word has.
const REFUSED: u64 = 1 << 63;

// The refusal as a word: its number with that bit.
fn refusal_word(refusal: Refusal) -> u64
    ensures { result ≡ refusal_word refusal }
{
    REFUSED + refusal_number(refusal)
}

// The number of an answer with a count: 0, or the refusal's.
pub fn answer_number(answer: Answer) -> u64
    ensures { result ≡ answer_number answer }
{
    answer.err().map_or(0, refusal_number)
}

// The count of such an answer: 0 with a refusal.
pub fn answer_count(answer: Answer) -> u64
    ensures { result ≡ answer_count answer }
{
    answer.unwrap_or(0)
}

// The word of observe's answer.
pub fn observe_word(answer: ObserveAnswer) -> u64
    ensures { result ≡ observe_word answer }
{
    match answer {
        Ok(Noted::Recorded(number)) => number,
        Ok(Noted::Same) => 0,
        Err(refusal) => refusal_word(refusal),
    }
}

// The word of store_asset's answer.
pub fn store_word(answer: Answer) -> u64
    ensures { result ≡ store_word answer }
{
    answer.unwrap_or_else(refusal_word)
}
