// The observation store: its head, and the places of ring and tables, read and written.
// A ring's size n, its first number b, any number s, a number of items m and a place p stay numbers, each with its
// clause: what is asked of them ties them to the words beside them, and of a store that is read, Store says it.
#![tactic(auto)]

ghost use Rattle.std.specs.Prelude.{◌≡◌, [], ◌∷◌, ◌+◌, ◌*◌, ◌≤◌, ◌<◌, ◌^◌, length, set};
ghost use Rattle.spec.specs.Words.{row, put};
ghost use Rattle.spec.specs.Model.{max_items};
ghost use Rattle.history.specs.Observations.{max_ring, max_number, ring_size, base, last};
ghost use Rattle.history.specs.Observations.{last_at, ring_at, latest_at, Head};
ghost use Rattle.history.specs.Observations.{checkpoint_at, store_words, place};
ghost use Rattle.history.specs.Observations.{head_ok, blank};
ghost use Rattle.history.specs.Calls.{first};
ghost use Rattle.observations.specs.Ring.{ring_time, ring_word, overwritten_at};
ghost use Rattle.observations.specs.Rows.{words_of};

mod modelled;
mod store;

pub use modelled::Modelled;
pub use spec::Row;
pub use store::{Store, checked};

// The places of the head's words, and how many there are: the ring begins behind them.
const RING_SIZE_AT: usize = 0;

const ITEM_COUNT_AT: usize = 1;

const BASE_AT: usize = 2;

const LAST_AT: usize = 3;

const HEAD_WORDS: usize = 4;

const RING_AT: u64 = HEAD_WORDS as u64;

// A table's words for each item: number, time and packed word of each entry.
const TABLE_WORDS: u64 = 3 * spec::ENTRIES;

// How many words a store of n observations and m items has.
pub fn words_for(n: u64, m: u64) -> u64
    requires { (n ≤ max_ring) × (m ≤ max_items) }
    ensures { result ≡ store_words n m }
{
    checkpoint_at(n, m) + TABLE_WORDS * m
}

// Where the latest table begins.
pub fn latest_at(n: u64) -> u64
    requires { n ≤ max_ring }
    ensures { result ≡ latest_at n }
{
    RING_AT + 2 * n
}

// Where the checkpoint table begins.
pub fn checkpoint_at(n: u64, m: u64) -> u64
    requires { (n ≤ max_ring) × (m ≤ max_items) }
    ensures { result ≡ checkpoint_at n m }
{
    latest_at(n) + TABLE_WORDS * m
}

// A table of the store: the word that it begins at, and how many rows it has.
#[derive(Clone, Copy)]
pub struct Table {
    pub at: u64,
    pub rows: u64,
}

impl Table {
    // The places of row k's number, time and packed word: each stands in a column of its own.
    pub fn columns(self, k: u64) -> [usize; 3]
        requires { (k < self.rows) × (self.at + 3 * self.rows < 2 ^ 64) }
        ensures { let time_at = self.at + k + self.rows in
            result ≡ (self.at + k) ∷ time_at ∷ (time_at + self.rows) ∷ [] }
    {
        let number_at = (self.at + k) as usize;
        let time_at = number_at + self.rows as usize;
        let word_at = time_at + self.rows as usize;
        [number_at, time_at, word_at]
    }
}

// The latest table of a store of n observations and m items.
pub fn latest_table(n: u64, m: u64) -> Table
    requires { (n ≤ max_ring) × (m ≤ max_items) }
    ensures at { result.at ≡ latest_at n }
    ensures rows { result.rows ≡ 8 * m }
{
    Table {
        at: latest_at(n),
        rows: spec::ENTRIES * m,
    }
}

// The checkpoint table, which has as many rows.
pub fn checkpoint_table(n: u64, m: u64) -> Table
    requires { (n ≤ max_ring) × (m ≤ max_items) }
    ensures at { result.at ≡ checkpoint_at n m }
    ensures rows { result.rows ≡ 8 * m }
{
    Table {
        at: checkpoint_at(n, m),
        ..latest_table(n, m)
    }
}

// Whether the head and the length are right for m items.
#[tactic(auto, unfolding(history::specs::Observations::head_ok))]
pub fn head_ok(st: &[u64], m: u64) -> bool
    requires { m ≤ max_items }
    ensures { result ≡ head_ok m st.now }
{
    let &[n, items, b, last, ..] = st else {
        return false;
    };
    // above 2^63 no number is left for B, and B + m could wrap
    (1..=spec::MAX_RING).contains(&n)
        && items == m
        && (1..=spec::MAX_NUMBER + 1).contains(&b)
        && last <= spec::MAX_NUMBER
        && b + m <= last + 1
        && st.len() as u64 == words_for(n, m)
}

// Of words whose head is right for any number of items; a Store, whose methods these are too, has as many as a model
// may have. How many observations the ring holds at most.
pub fn ring_size(st: &[u64], m: u64) -> u64
    requires { Head m st.now }
    ensures is { result ≡ ring_size st.now }
    ensures bounds { (1 ≤ result) × (result ≤ max_ring) }
{
    st[RING_SIZE_AT]
}

// The first number.
pub fn base(st: &[u64], m: u64) -> u64
    requires { Head m st.now }
    ensures { result ≡ base st.now }
{
    st[BASE_AT]
}

// The newest number.
pub fn last(st: &[u64], m: u64) -> u64
    requires { Head m st.now }
    ensures is { result ≡ last st.now }
    ensures high { result ≤ max_number }
{
    st[LAST_AT]
}

// The lowest number that the ring holds.
pub fn first(st: &[u64], m: u64) -> u64
    requires { Head m st.now }
    ensures is { result ≡ first st.now }
    ensures low { base st.now ≤ result }
    ensures high { result ≤ last st.now + 1 }
{
    let next = last(st, m) + 1;
    base(st, m).max(next.saturating_sub(ring_size(st, m)))
}

// The ring place of number s, for a ring of n entries and the first number b.
pub fn place(n: u64, b: u64, s: u64) -> u64
    requires le_n { 1 ≤ n }
    requires b_le_s { b ≤ s }
    ensures is { result ≡ place n b s }
    ensures low { result < n }
{
    (s - b) % n
}

// The time at place p of a ring of n entries.
#[tactic(auto, unfolding(spec::specs::Words::row))]
pub fn ring_time(st: &[u64], n: u64, p: u64) -> u64
    requires { (p < n) × (latest_at n ≤ length st.now) }
    ensures { result ≡ ring_time st.now n p }
{
    st[(RING_AT + p) as usize]
}

// The packed word at place p of a ring of n entries.
#[tactic(auto, unfolding(spec::specs::Words::row))]
pub fn ring_word(st: &[u64], n: u64, p: u64) -> u64
    requires { (p < n) × (latest_at n ≤ length st.now) }
    ensures { result ≡ ring_word st.now n p }
{
    st[(RING_AT + n + p) as usize]
}

// The row at place p of a ring of n entries. Its number comes from who asks, since the ring holds none.
pub fn ring_row(st: &[u64], n: u64, p: u64, number: u64) -> Row
    requires { (p < n) × (latest_at n ≤ length st.now) }
    ensures number { result.number ≡ number }
    ensures time { result.time ≡ ring_time st.now n p }
    ensures packed { result.packed ≡ ring_word st.now n p }
{
    Row {
        number,
        time: ring_time(st, n, p),
        packed: ring_word(st, n, p),
    }
}

// What number s is about to overwrite at its place p, if the ring of n entries from number b on is full.
pub fn overwritten(st: &[u64], n: u64, b: u64, s: u64, p: u64) -> Option<Row>
    requires ring { (p < n) × (latest_at n ≤ length st.now) }
    requires b_le_s { b ≤ s }
    ensures { result ≡ overwritten_at st.now n b s p }
{
    (n <= s - b).then(|| ring_row(st, n, p, s - n))
}

// Row k of a table.
#[tactic(auto, unfolding(spec::specs::Words::row))]
pub fn row_at(st: &[u64], table: Table, k: u64) -> Row
    requires { (k < table.rows) × (table.at + 3 * table.rows ≤ length st.now) }
    ensures { row st.now table.at table.rows k 3 ≡ words_of result }
{
    let [number_at, time_at, word_at] = table.columns(k);
    Row {
        number: st[number_at],
        time: st[time_at],
        packed: st[word_at],
    }
}

// Place p of a ring of n entries takes a time and a packed word.
#[tactic(auto, unfolding(spec::specs::Words::put))]
pub fn put_ring(st: &mut [u64], n: u64, p: u64, time: u64, word: u64)
    requires { (p < n) × (latest_at n ≤ length st.old) }
    ensures { st.new ≡ put st.old ring_at n p (time ∷ word ∷ []) }
{
    let time_at = RING_AT + p;
    let word_at = RING_AT + n + p;
    st[time_at as usize] = time;
    st[word_at as usize] = word;
}

// Row k of a table takes an observation.
#[tactic(auto, unfolding(spec::specs::Words::put))]
pub fn put_row(st: &mut [u64], table: Table, k: u64, row: Row)
    requires { (k < table.rows) × (table.at + 3 * table.rows ≤ length st.old) }
    ensures { st.new ≡ put st.old table.at table.rows k (words_of row) }
{
    let [number_at, time_at, word_at] = table.columns(k);
    st[number_at] = row.number;
    st[time_at] = row.time;
    st[word_at] = row.packed;
}

// The newest number becomes s.
pub fn set_last(st: &mut [u64], s: u64)
    requires { ring_at ≤ length st.old }
    ensures { st.new ≡ set st.old last_at s }
{
    st[LAST_AT] = s;
}

// A head that has given no number yet, and zeros. Each word by its own place: as one array they would stand in an
// order.
#[tactic(auto, using(crate::proofs::Laws::lengths))]
pub fn make_blank(st: &mut [u64], n: u64, m: u64, b: u64)
    requires st_len { length st.old ≡ store_words n m }
    requires le_b { 1 ≤ b }
    ensures { st.new ≡ blank n m b }
{
    st.fill(0);
    st[RING_SIZE_AT] = n;
    st[ITEM_COUNT_AT] = m;
    st[BASE_AT] = b;
    st[LAST_AT] = b - 1;
}
