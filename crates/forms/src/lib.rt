// The form of a line's value, from its text.
#![tactic(auto)]

ghost use Rattle.std.specs.Prelude.{cond, ◌≡◌, ◌-◌, ◌*◌, ◌^◌, ◌≤◌, Some, None};
ghost use Rattle.spec.specs.Bytes.{split, value_from};
ghost use Rattle.lines.specs.Lines.{whole_form, point_form, by_point, decimal_form, state_form, coded_form, plain_form};
ghost use Rattle.lines.specs.Lines.{numeral, form_of};

use lines::Form;
use scan::{equal, number_of, split_once};
use spec::Level;

// A number of a line: 1 to 10 digits.
#[tactic(auto, unfolding(scan::specs::Number::number_of))]
pub fn numeral(s: &[u8]) -> Option<u64>
    ensures { result ≡ cond (numeral s.now) (Some (value_from 0 s.now)) None }
{
    number_of(s, 10, 9999999999)
}

// A number without a point. This and the next two take the sign, and give no pair of whole part and thousandths, since
// their definitions do: else each contract would say how a form is made of the pair.
fn whole_form(minus: bool, w: &[u8]) -> Option<Form>
    ensures { result ≡ whole_form minus w.now }
{
    let whole = numeral(w)?;
    Some(Form::Decimal {
        minus,
        whole,
        part: None,
    })
}

// Thousandths, from one to three digits behind a point.
fn scaled(n: u64, digits: usize) -> u64
    requires n_bound { n ≤ 999 }
    requires le_digits { 1 ≤ digits }
    ensures { result ≡ n * 10 ^ (3 - digits) }
{
    match digits {
        1 => n * 100,
        2 => n * 10,
        _ => n,
    }
}

// A number with a point.
#[tactic(auto, unfolding(scan::specs::Number::number_of))]
fn point_form(minus: bool, w: &[u8], p: &[u8]) -> Option<Form>
    ensures { result ≡ point_form minus w.now p.now }
{
    let whole = numeral(w)?;
    let part = scaled(number_of(p, 3, 999)?, p.len());
    Some(Form::Decimal {
        minus,
        whole,
        part: Some(part),
    })
}

// A decimal behind its sign.
#[tactic(auto, using(crate::proofs::Laws::points))]
fn unsigned_form(minus: bool, s: &[u8]) -> Option<Form>
    ensures { result ≡ by_point minus (split 46 s.now) }
{
    match split_once(s, b'.') {
        None => whole_form(minus, s),
        Some((w, p)) => point_form(minus, w, p),
    }
}

// A decimal.
#[tactic(auto, using(crate::proofs::Laws::signs))]
fn decimal_form(s: &[u8]) -> Option<Form>
    ensures { result ≡ decimal_form s.now }
{
    match s.strip_prefix(b"-") {
        Some(digits) => unsigned_form(true, digits),
        None => unsigned_form(false, s),
    }
}

// A level by its word, with its code.
// By equal: a match on byte strings has a goal for each byte, and 20 for its last arm.
#[tactic(auto, unfolding(lines::specs::Lines::state_form))]
fn state_form(w: &[u8], code: u64) -> Option<Form>
    ensures { result ≡ state_form w.now code }
{
    let level = if equal(w, b"NORMAL") {
        Level::Normal
    } else if equal(w, b"WARNING") {
        Level::Warning
    } else if equal(w, b"FAULT") {
        Level::Fault
    } else {
        return None;
    };
    Some(Form::State(level, code))
}

// A value with ':'.
fn coded_form(w: &[u8], c: &[u8]) -> Option<Form>
    ensures { result ≡ coded_form w.now c.now }
{
    state_form(w, numeral(c)?)
}

// A value without ':'.
fn plain_form(s: &[u8]) -> Option<Form>
    ensures { result ≡ plain_form s.now }
{
    if equal(s, b"UNAVAILABLE") {
        Some(Form::Missing)
    } else {
        decimal_form(s)
    }
}

// A value.
#[tactic(auto, unfolding(lines::specs::Lines::form_of), using(crate::proofs::Laws::colons))]
pub fn form_of(s: &[u8]) -> Option<Form>
    ensures { result ≡ form_of s.now }
{
    match split_once(s, b':') {
        None => plain_form(s),
        Some((w, c)) => coded_form(w, c),
    }
}
