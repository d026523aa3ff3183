// The rows of a sample: the numbers from f up to, but without, e, at most a ring of them, whose items are selected.
// A pass over the ring is two runs without a wrap, so that no entry costs a division.
#![tactic(auto)]

ghost use Rattle.std.specs.Prelude.{◌≡◌, true, [], ◌∷◌, ◌+◌, ◌-◌, ◌*◌, ◌<◌, ◌≤◌, length, set};
ghost use Rattle.history.specs.Observations.{max_ring, item_count};
ghost use Rattle.observations.specs.Rows.{words_of};
ghost use Rattle.rows.specs.Rows.{items_ok, sampled, counted, rows_at, rows_into, InRing, RingRange, TwoRuns};

use observations::{Row, Store};

// Numbers of the ring, `from` up to, but without, `to`, which stand in it from `place` on without a wrap.
#[derive(Clone, Copy)]
pub struct Run {
    pub place: u64,
    pub from: u64,
    pub to: u64,
}

impl Run {
    // The numbers before `at`, and those from it on.
    pub fn split(self, at: u64) -> (Run, Run)
        requires inside { (self.from ≤ at) × (at ≤ self.to) }
        requires room { self.place + (self.to - self.from) ≤ max_ring }
        ensures before { result.0 ≡ record self { to = at } }
        ensures behind { result.1 ≡ record self { place = self.place + (at - self.from); from = at } }
    {
        let before = Run { to: at, ..self };
        let behind = Run {
            place: self.place + (at - self.from),
            from: at,
            to: self.to,
        };
        (before, behind)
    }
}

// The two runs of the numbers from f up to e, at most a ring of them, for a ring of n entries and the first number b:
// up to the ring's end, then from place 0 on. Here and below f and e stay two numbers: what is asked of them ties
// them to the store, and of the two alone a type could say no more than that f isn't above e.
pub fn runs(n: u64, b: u64, f: u64, e: u64) -> (Run, Run)
    requires n_pos { 1 ≤ n }
    requires range { (b ≤ f) × ((f ≤ e) × (e - f ≤ n)) }
    ensures { TwoRuns n b f e result.0 result.1 }
{
    let place = observations::place(n, b, f);
    let turn = f + (n - place).min(e - f);
    let front = Run {
        place,
        from: f,
        to: turn,
    };
    let back = Run {
        place: 0,
        from: turn,
        to: e,
    };
    (front, back)
}

// One run of count_rows.
fn count_run(st: &Store<'_>, selection: u64, run: Run) -> Option<u64>
    requires run { InRing st.now run }
    requires ordered { run.from ≤ run.to }
    ensures { result ≡ counted (item_count st.now) st.now selection run.from run.to }
{
    let m = st.items();
    let mut count: u64 = 0;
    for word in st.ring_words(run.place, run.to - run.from) {
        let i = value::item_of(*word);
        if m <= i {
            return None;
        }
        count += u64::from(selection::has(selection, i));
    }
    Some(count)
}

// How many of the numbers from f up to e have a row; None where one of them has no item of the model.
pub fn count_rows(st: &Store<'_>, selection: u64, f: u64, e: u64) -> Option<u64>
    requires st_bound { RingRange st.now f e }
    ensures { result ≡ counted (item_count st.now) st.now selection f e }
{
    let (front, back) = runs(st.ring_size(), st.base(), f, e);
    let before = count_run(st, selection, front)?;
    let behind = count_run(st, selection, back)?;
    Some(before + behind)
}

// One row: its number to word c, its time and packed word to words a and a + 1.
pub fn write_row(out: &mut [u64], c: u64, a: u64, row: Row)
    requires { (c < length out.old) × (a + 1 < length out.old) }
    ensures { out.new ≡ set (set (set out.old c row.number) a row.time) (a + 1) row.packed }
{
    out[c as usize] = row.number;
    out[a as usize] = row.time;
    out[(a + 1) as usize] = row.packed;
}

// Row c of k: its number to word c, its time and packed word to pair c, behind the k numbers.
#[tactic(auto, unfolding(spec::specs::Reply::numbers, spec::specs::Reply::pairs))]
pub fn write_row_of(out: &mut [u64], c: u64, k: u64, row: Row)
    requires { k + 2 * c + 1 < length out.old }
    ensures { out.new ≡ rows_at out.old c (k + 2 * c) (words_of row ∷ []) }
{
    write_row(out, c, k + 2 * c, row);
}

// One run of write_rows, where `done` of the k rows are written; how many are written then. No plainer as one with
// count_run, which may fail; nor over the run's words, since a row takes number, time and word of one place; nor with
// done, k and out in a struct as writer::Output is, which grows at one place: k is fixed before, and rows_at is over
// the whole buffer in two places at once, numbers and pairs.
fn write_run(st: &Store<'_>, selection: u64, run: Run, done: u64, k: u64, out: &mut [u64]) -> u64
    requires run { InRing st.now run }
    requires e_value { items_ok (item_count st.now) st.now run.from run.to ≡ true }
    requires e_bound { (done + length (sampled st.now selection run.from run.to) ≤ k) × (3 * k ≤ length out.old) }
    ensures value { result ≡ done + length (sampled st.now selection run.from run.to) }
    ensures out_after { out.new ≡ rows_at out.old done (k + 2 * done) (sampled st.now selection run.from run.to) }
{
    let words = st.slice();
    let n = st.ring_size();
    let mut c = done;
    for number in run.from..run.to {
        let place = run.place + (number - run.from);
        let packed = observations::ring_word(words, n, place);
        if selection::has(selection, value::item_of(packed)) {
            write_row_of(out, c, k, observations::ring_row(words, n, place, number));
            c += 1;
        }
    }
    c
}

// The rows of the numbers from f up to e, which are k: k numbers, then k pairs of time and packed word. So no slice of
// rows has the form of `out`, and its room stays a clause.
pub fn write_rows(st: &Store<'_>, selection: u64, f: u64, e: u64, k: u64, out: &mut [u64])
    requires st_bound { RingRange st.now f e }
    requires e_value { items_ok (item_count st.now) st.now f e ≡ true }
    requires k_value { (k ≡ length (sampled st.now selection f e)) × (3 * k ≤ length out.old) }
    ensures { out.new ≡ rows_into out.old k (sampled st.now selection f e) }
{
    let (front, back) = runs(st.ring_size(), st.base(), f, e);
    let done = write_run(st, selection, front, 0, k, out);
    write_run(st, selection, back, done, k, out);
}
