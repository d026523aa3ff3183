// Text written into a lent buffer: bytes, digits, numbers.
#![tactic(auto)]

ghost use Rattle.std.specs.Prelude.{ℕ, List, [], ◌∷◌, ◌≡◌, ◌+◌, ◌^◌, ◌<◌, ◌≤◌, length, leb};
ghost use Rattle.spec.specs.Bytes.{decimal};
ghost use Rattle.std.proofs.lemmas.List.Edits.{sets};
ghost use Rattle.lines.specs.Digits.{fixed};
ghost use Rattle.writer.specs.Puts.{onward, Put};
ghost use Rattle.writer.specs.Whole.{Puts, text_after, bytes_of};

use spec::{Answer, Refusal};

// No buffer has as many bytes, so a place stops here.
const STOP: usize = 1 << 63;

// The place n bytes on; it stops at 2^63.
fn onward(at: usize, n: usize) -> usize
    ensures { result ≡ onward at n }
{
    at.max(at.saturating_add(n).min(STOP))
}

// A lent buffer and the place in it behind the text so far. What is put is written as far as the buffer reaches, and
// the place goes on behind its end: over an empty buffer it gives the length alone. Numbers, dates and values are put
// by functions of their own, and are no Display: `write!` answers an error at each piece, and none can fail here.
#[derive(Drop)]
pub struct Output<'a> {
    bytes: &'a mut [u8],
    at: usize,
}

impl<'a> Output<'a> {
    // A text that begins at the buffer's start.
    pub fn new(bytes: &'a mut [u8]) -> Output<'a>
        ensures same { result.bytes.ghost_name ≡ bytes.entry.ghost_name }
        ensures bytes { result.bytes.now ≡ bytes.old }
        ensures at { result.at ≡ 0 }
    {
        Output::behind(bytes, 0)
    }

    // A text that goes on at any place, also behind the buffer's end.
    pub fn behind(bytes: &'a mut [u8], at: usize) -> Output<'a>
        ensures same { result.bytes.ghost_name ≡ bytes.entry.ghost_name }
        ensures bytes { result.bytes.now ≡ bytes.old }
        ensures at { result.at ≡ at }
    {
        Output { bytes, at }
    }

    // How long the text so far is.
    pub fn len(&self) -> usize
        ensures { result ≡ self.now.at }
    {
        self.at
    }

    // Whether the place is behind the buffer's last byte, so that nothing more is written.
    pub fn is_full(&self) -> bool
        ensures value { result ≡ leb (length self.now.bytes.now) self.now.at }
        ensures short { length self.now.bytes.now ≤ 2 ^ 63 }
    {
        self.bytes.len() <= self.at
    }

    // Counts a text of n bytes, none of which would be written.
    pub fn skip(&mut self, n: usize)
        requires short { length self.now.bytes.now ≤ 2 ^ 63 }
        requires full { length self.now.bytes.now ≤ self.now.at }
        ensures { (s : List ℕ) → n ≡ length s → Put self.old s self.new }
    {
        self.at = onward(self.at, n);
    }

    // One byte.
    pub fn put_byte(&mut self, b: u8)
        ensures { Put self.old (b ∷ []) self.new }
    {
        self.put_bytes(&[b]);
    }

    // The bytes of s, as far as the buffer reaches. What fits has a copy of its own, and what is cut stands out of
    // line: most texts are constants, and by one copy of the lesser length a row of a document takes 1.6 times as long.
    // No get_mut: what it lends ends as nothing known.
    #[inline]
    pub fn put_bytes(&mut self, s: &[u8])
        ensures { Put self.old s.now self.new }
    {
        if self.at < self.bytes.len() {
            if s.len() <= self.bytes.len() - self.at {
                let end = self.at + s.len();
                self.bytes[self.at..end].copy_from_slice(s);
                self.at = end;
                return;
            }
            self.fill_up(s);
        }
        self.at = onward(self.at, s.len());
    }

    // What there is room for of s, where the buffer ends within it. The place stays.
    #[cold]
    #[inline(never)]
    fn fill_up(&mut self, s: &[u8])
        requires before { self.now.at < length self.now.bytes.now }
        requires within { length self.now.bytes.now ≤ self.now.at + length s.now }
        ensures same { self.new.bytes.ghost_name ≡ self.old.bytes.ghost_name }
        ensures at { self.new.at ≡ self.old.at }
        ensures bytes { self.new.bytes.now ≡ sets self.old.bytes.now self.old.at s.now }
    {
        let room = self.bytes.len() - self.at;
        self.bytes[self.at..].copy_from_slice(&s[..room]);
    }

    // The last K digits of n. A slice of the array asks for the clause: no array is known to be that short.
    pub fn put_fixed<const K: usize>(&mut self, n: u64)
        requires { K < 2 ^ 63 }
        ensures { Put self.old (fixed K n) self.new }
    {
        let mut digits = [0; K];
        let mut rest = n;
        // tried: behind a loop over `iter_mut().rev()` nothing is known of what it lent, so the places are counted
        for i in (0..K).rev() {
            // a remainder by 10 fits a byte, here and below
            digits[i] = b'0' + ((rest % 10) as u8);
            rest /= 10;
        }
        self.put_bytes(&digits);
    }

    // The digits of n, made from the last one on; behind the buffer they are only counted.
    pub fn put_decimal(&mut self, n: u64)
        ensures { Put self.old (decimal n) self.new }
    {
        if self.is_full() {
            self.skip(decimal_length(n));
            return;
        }
        let mut digits = [0; 20];
        let mut i = 19;
        digits[i] = b'0' + ((n % 10) as u8);
        let mut left = n / 10;
        // No range is plainer: what is left of n ends the loop, not a count. No itoa: it has its pairs of digits in a
        // table, and the archive has none (docs/DECISIONS.md, "Byte classes").
        while 0 < left {
            i -= 1;
            digits[i] = b'0' + ((left % 10) as u8);
            left /= 10;
        }
        self.put_bytes(&digits[i..]);
    }
}

// How many digits `put_decimal` puts: one, and one more for each power of ten from 10 on that is at most n. The next
// power is compared by a tenth of n, and so fits where it is made. No ilog10: the archive would have its table.
pub fn decimal_length(n: u64) -> usize
    ensures { result ≡ length (decimal n) }
{
    let tenth = n / 10;
    let mut power = 1;
    let mut more = 0;
    while power <= tenth {
        power *= 10;
        more += 1;
    }
    1 + more
}

// The length of what `put` puts, which is put over no bytes; it stops at 2^63.
fn length_of<F: Fn(&mut Output)>(put: &F) -> usize
    ghost s: { List ℕ }
    requires callable { F.IsAlwaysCallable put.now }
    requires puts { Puts F.Fn put.now s }
    ensures { result ≡ onward 0 (length s) }
{
    let mut out = Output::new(&mut []);
    put(&mut out);
    out.len()
}

// What `put` puts, where the text is known to have room for it.
pub fn write_fitting<F: Fn(&mut Output)>(text: &mut [u8], put: F) -> Answer
    ghost s: { List ℕ }
    requires callable { F.IsAlwaysCallable put }
    requires puts { Puts F.Fn put s }
    requires room { length s ≤ length text.now }
    ensures text_after { text.new ≡ text_after s text.old }
    ensures value { result ≡ bytes_of s text.old }
{
    let mut out = Output::new(text);
    put(&mut out);
    Ok(out.len() as u64)
}

// What `put` puts, whole or not at all. A first pass, over no bytes, gives the length.
pub fn write_whole<F: Fn(&mut Output)>(text: &mut [u8], put: F) -> Answer
    ghost s: { List ℕ }
    requires callable { F.IsAlwaysCallable put }
    requires puts { Puts F.Fn put s }
    ensures text_after { text.new ≡ text_after s text.old }
    ensures value { result ≡ bytes_of s text.old }
{
    if text.len() < length_of(&put) {
        return Err(Refusal::Space);
    }
    write_fitting(text, put)
}
