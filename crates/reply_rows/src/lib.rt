// A reply's rows: their words, and whether a document can be made of them.
#![tactic(auto)]

ghost use Rattle.std.specs.Prelude.{ℕ, Bool, true, false, [], ◌≡◌, ◌+◌, ◌*◌, ◌≤◌, ◌<◌, length, get_or, MatchResult};
ghost use Rattle.spec.specs.Reply.{rows_of};
ghost use Rattle.spec.specs.declared.Refusal.TheVariants.{Store as Refused};
ghost use Rattle.reply_rows.specs.Tests.{Tells};
ghost use Rattle.streams.specs.Streams.{group_of, word_ok, packed_ok, all_rows, words_ok, reply_ok, times_ok};
ghost use Rattle.streams.specs.Groups.{group_number};

use model::Words;
use reply::{FIRST_AT, LAST_AT, NEXT_AT, ROW_WORDS, ROWS_AT, SIZES};
use spec::{Refusal, Row};
use stamp::MAX_TIME;
use std::marker::Model;
use streams::Group;

// The words of a reply, as many as its rows take; a clause sees the list of them.
#[derive(Drop)]
pub struct Reply<'a> {
    words: &'a [u64],
}

impl<'a> Model for Reply<'a> {
    ghost use Rattle.std.specs.Prelude.{ℕ, List, true, ◌≡◌};
    ghost use Rattle.streams.specs.Streams.{words_ok};

    ghost Value = { List ℕ };

    ghost view = { λ r. r.words.now };

    ghost invariant = { λ r. words_ok r.words.now ≡ true };
}

impl<'a> Reply<'a> {
    // The reply of words that are known to be as many as its rows take.
    pub fn of(words: &'a [u64]) -> Reply<'a>
        requires { words_ok words.now ≡ true }
        ensures { result ≡ words.now }
    {
        Reply { words }
    }

    // The words as they are.
    pub fn slice(&self) -> &'a [u64]
        ensures value { result.now ≡ self.now }
        ensures words { words_ok self.now ≡ true }
    {
        self.words
    }

    // How many rows there are.
    pub fn rows(&self) -> usize
        ensures { (result ≡ get_or self.now 0 0) × (4 + 3 * result ≤ length self.now) }
    {
        self.words[ROWS_AT] as usize
    }

    // The first number that a store has.
    #[tactic(auto, using(crate::proofs::Laws::words_length))]
    pub fn first(&self) -> u64
        ensures { result ≡ get_or self.now 1 0 }
    {
        self.words[FIRST_AT]
    }

    // The last number that a store has.
    #[tactic(auto, using(crate::proofs::Laws::words_length))]
    pub fn last(&self) -> u64
        ensures { result ≡ get_or self.now 2 0 }
    {
        self.words[LAST_AT]
    }

    // The number that a client asks for next.
    #[tactic(auto, using(crate::proofs::Laws::words_length))]
    pub fn next(&self) -> u64
        ensures { result ≡ get_or self.now 3 0 }
    {
        self.words[NEXT_AT]
    }

    // Row i.
    #[inline]
    pub fn row_at(&self, i: usize) -> Row
        requires { i < get_or self.now 0 0 }
        ensures number { result.number ≡ get_or (get_or (rows_of self.now) i []) 0 0 }
        ensures time { result.time ≡ get_or (get_or (rows_of self.now) i []) 1 0 }
        ensures packed { result.packed ≡ get_or (get_or (rows_of self.now) i []) 2 0 }
    {
        let words = self.words;
        let pair = SIZES + self.rows() + 2 * i;
        Row {
            number: words[SIZES + i],
            time: words[pair],
            packed: words[pair + 1],
        }
    }

    // Whether a test holds of every row.
    fn all_rows<F: Fn(Row) -> bool>(&self, test: F) -> bool
        ghost p: { ℕ → ℕ → ℕ → Bool }
        requires callable { F.IsAlwaysCallable test }
        requires tells { Tells F.Fn test p }
        ensures { result ≡ all_rows (λ x. p (get_or x 0 0) (get_or x 1 0) (get_or x 2 0)) (rows_of self.now) }
    {
        (0..self.rows()).all(
            |i|
                requires { (i < get_or self.now 0 0) × F.IsAlwaysCallable test }
            { test(self.row_at(i)) },
        )
    }
}

// Whether the reply has four words and as many more as k asks for. No sum of k's can wrap.
pub fn words_ok(reply: &[u64]) -> bool
    ensures { result ≡ words_ok reply.now }
{
    SIZES <= reply.len() && reply[ROWS_AT] <= ((reply.len() - SIZES) / ROW_WORDS) as u64
}

// The group of a category's rows.
pub fn group_of(category: u64) -> Group
    ensures { group_number result ≡ group_of category }
{
    match category {
        spec::SAMPLE => Group::Samples,
        spec::CONDITION => Group::Condition,
        _ => Group::Events,
    }
}

// Whether a value's word is one that an item of the category can have.
fn word_ok(category: u64, word: u64) -> bool
    ensures { result ≡ word_ok category word }
{
    let kind = word / value::KIND;
    word == 0
        || match group_of(category) {
            Group::Samples => kind == value::SAMPLE_KIND,
            Group::Events => kind == value::EVENT_KIND,
            Group::Condition => (value::NORMAL..=value::FAULT).contains(&(word / value::LEVEL)),
        }
}

// Whether a packed word has an item of the model, and a value that it can have.
fn packed_ok(model: &Words<'_>, word: u64) -> bool
    ensures { result ≡ packed_ok model.now word }
{
    model
        .category_at(value::item_of(word))
        .is_some_and(|category| word_ok(category, value::word_of(word)))
}

// Whether a document can be made of the reply: the test of refusal Store.
pub fn reply_ok(model: &Words<'_>, reply: &[u64]) -> bool
    ensures { result ≡ reply_ok model.now reply.now }
{
    words_ok(reply) && Reply::of(reply).all_rows(|row| packed_ok(model, row.packed))
}

// The reply, where a document can be made of it, or refusal Store. Why no trait has this: model::checked. A lifetime by
// name, since of two borrows that come in, the result holds one.
pub fn checked<'a>(model: &Words<'_>, reply: &'a [u64]) -> Result<Reply<'a>, Refusal>
    ensures { MatchResult result
        (λ r. (r ≡ reply.entry.now) × (reply_ok model.now reply.entry.now ≡ true))
        (λ r. (r ≡ Refused) × (reply_ok model.now reply.entry.now ≡ false)) }
{
    if !reply_ok(model, reply) {
        return Err(Refusal::Store);
    }
    Ok(Reply::of(reply))
}

// Whether no time is after 2099: the test of refusal Stamp.
pub fn times_ok(creation: u64, reply: &Reply<'_>) -> bool
    ensures { result ≡ times_ok creation reply.now }
{
    creation <= MAX_TIME && reply.all_rows(|row| row.time <= MAX_TIME)
}
