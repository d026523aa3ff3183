// The observation store behind a right head, to be read: what the head says, and the places of ring and tables.
ghost use Rattle.std.specs.Prelude.{◌≡◌, true, false, [], ◌∷◌, ◌+◌, ◌*◌, ◌≤◌, ◌<◌, List, ℕ, length, get_or};
ghost use Rattle.std.specs.Prelude.{MatchResult};
ghost use Rattle.spec.specs.declared.Refusal.TheVariants.{Store as Refused};
ghost use Rattle.spec.specs.Model.{max_items, items};
ghost use Rattle.history.specs.Observations.{max_ring, max_number, ring_size, item_count, base, last};
ghost use Rattle.history.specs.Observations.{latest_at, checkpoint_at, item_row, place, numbered, head_ok, Head};
ghost use Rattle.spec.specs.Words.{row};
ghost use Rattle.history.specs.Calls.{first};
ghost use Rattle.observations.specs.Headed.{Headed};
ghost use Rattle.observations.specs.Ring.{ring_word, overwritten_at};
ghost use Rattle.observations.specs.Rows.{words_of};

use super::{ITEM_COUNT_AT, RING_AT, Row, Table, head_ok};
use model::Words;
use spec::Refusal;
use std::marker::Model;

// The store's words; a clause sees the list of them.
#[derive(Drop)]
pub struct Store<'a> {
    words: &'a [u64],
}

impl<'a> Model for Store<'a> {
    ghost Value = { List ℕ };

    ghost view = { λ s. s.words.now };

    ghost invariant = { λ s. Headed s.words.now };
}

impl<'a> Store<'a> {
    // The store of words whose head is known to be right.
    pub fn of(words: &'a [u64]) -> Store<'a>
        requires { Headed words.now }
        ensures { result ≡ words.now }
    {
        Store { words }
    }

    // The store of words whose head is known to be right for the model.
    pub fn of_model(model: &Words<'_>, words: &'a [u64]) -> Store<'a>
        requires { Head (items model.now) words.now }
        ensures { (result ≡ words.now) × (item_count result ≡ items model.now) }
    {
        // a model has few items: its own call says it
        let _ = model.items();
        Store::of(words)
    }

    // The words as they are. It is called for the head's facts alone too: no plainer, since the fields are private, and
    // so what the type keeps is known behind a call that says it.
    pub fn slice(&self) -> &'a [u64]
        ensures value { result.now ≡ self.now }
        ensures head { Headed self.now }
    {
        self.words
    }

    // How many items the store is for.
    pub fn items(&self) -> u64
        ensures { (result ≡ item_count self.now) × (result ≤ max_items) }
    {
        self.words[ITEM_COUNT_AT]
    }

    // How many observations the ring holds at most.
    pub fn ring_size(&self) -> u64
        ensures is { result ≡ ring_size self.now }
        ensures bounds { (1 ≤ result) × (result ≤ max_ring) }
    {
        super::ring_size(self.words, self.items())
    }

    // The first number.
    pub fn base(&self) -> u64
        ensures { result ≡ base self.now }
    {
        super::base(self.words, self.items())
    }

    // The newest number.
    pub fn last(&self) -> u64
        ensures is { result ≡ last self.now }
        ensures low { base self.now ≤ result + 1 }
        ensures high { result ≤ max_number }
    {
        super::last(self.words, self.items())
    }

    // The lowest number that the ring holds.
    pub fn first(&self) -> u64
        ensures is { result ≡ first self.now }
        ensures low { base self.now ≤ result }
        ensures high { result ≤ last self.now + 1 }
    {
        super::first(self.words, self.items())
    }

    // The ring place of number s.
    pub fn place(&self, s: u64) -> u64
        requires { base self.now ≤ s }
        ensures is { result ≡ place (ring_size self.now) (base self.now) s }
        ensures low { result < ring_size self.now }
    {
        super::place(self.ring_size(), self.base(), s)
    }

    // The row of number s, at its place in the ring.
    pub fn ring_row(&self, s: u64) -> Row
        requires { base self.now ≤ s }
        ensures { numbered (ring_size self.now) (base self.now) self.now s ≡ words_of result }
    {
        super::ring_row(self.words, self.ring_size(), self.place(s), s)
    }

    // What number s is about to overwrite, if the ring is full.
    pub fn overwritten(&self, s: u64) -> Option<Row>
        requires { base self.now ≤ s }
        ensures { let n = ring_size self.now in
            let b = base self.now in
            result ≡ overwritten_at self.now n b s (place n b s) }
    {
        let p = self.place(s);
        super::overwritten(self.words, self.ring_size(), self.base(), s, p)
    }

    // The packed words of k entries of the ring, from place p on.
    pub fn ring_words(&self, p: u64, k: u64) -> &'a [u64]
        requires { p + k ≤ ring_size self.now }
        ensures len { length result.now ≡ k }
        ensures each { (i : ℕ) → i < k → get_or result.now i 0 ≡ ring_word self.now (ring_size self.now) (p + i) }
    {
        let at = RING_AT + self.ring_size() + p;
        &self.words[at as usize..(at + k) as usize]
    }

    // The latest table.
    pub fn latest(&self) -> Table
        ensures at { result.at ≡ latest_at (ring_size self.now) }
        ensures rows { result.rows ≡ 8 * item_count self.now }
    {
        super::latest_table(self.ring_size(), self.items())
    }

    // The packed word of an item's first latest entry.
    pub fn latest_word(&self, item: u64) -> u64
        requires { item < item_count self.now }
        ensures { let t = latest_at (ring_size self.now) in
            result ≡ get_or (item_row self.now t (item_count self.now) item) 2 0 }
    {
        super::row_at(self.words, self.latest(), spec::ENTRIES * item).packed
    }

    // The checkpoint table.
    pub fn checkpoint(&self) -> Table
        ensures at { result.at ≡ checkpoint_at (ring_size self.now) (item_count self.now) }
        ensures rows { result.rows ≡ 8 * item_count self.now }
    {
        super::checkpoint_table(self.ring_size(), self.items())
    }

    // An item's entry j in the checkpoint table.
    pub fn checkpoint_row(&self, item: u64, j: u64) -> Row
        requires { (item < item_count self.now) × (j < 8) }
        ensures { let t = checkpoint_at (ring_size self.now) (item_count self.now) in
            row self.now t (8 * item_count self.now) (8 * item + j) 3 ≡ words_of result }
    {
        let checkpoint = self.checkpoint();
        super::row_at(self.words, checkpoint, spec::ENTRIES * item + j)
    }
}

// The store of m items, or the refusal Store. Why no trait has this: model::checked. No function tests model and store
// at once, which is no plainer: who writes the store lets the Store go behind its test, so a pair that callers take
// apart would save one of two lines, each of which is one refusal.
pub fn checked(words: &[u64], m: u64) -> Result<Store<'_>, Refusal>
    requires { m ≤ max_items }
    ensures { MatchResult result
        (λ s. (s ≡ words.entry.now) × (head_ok m words.entry.now ≡ true))
        (λ r. (r ≡ Refused) × (head_ok m words.entry.now ≡ false)) }
{
    if !head_ok(words, m) {
        return Err(Refusal::Store);
    }
    Ok(Store::of(words))
}
