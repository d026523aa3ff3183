// The form of a stamp's 24 bytes, and the date that stands in them.
#![tactic(auto)]

ghost use Rattle.std.specs.Prelude.{cond, ◌≡◌, ◌≤◌, eqb, length, Some, None};
ghost use Rattle.std.specs.List.{list_all, zip};
ghost use Rattle.spec.specs.Bytes.{digit, value_from};
ghost use Rattle.lines.specs.Stamps.{formed, stamp_form, date_in};

use lines::Date;
use scan::value;

// Whether the bytes are as the form has them, any digit for 'd'.
#[tactic(auto, unfolding(spec::specs::Bytes::digit))]
fn has_form(form: &[u8], s: &[u8]) -> bool
    ensures { result ≡ list_all (λ p. cond (eqb p.0 100) (digit p.1) (eqb p.1 p.0)) (zip form.now s.now) }
{
    form.iter().zip(s).all(|(f, x)| if *f == b'd' {
        x.is_ascii_digit()
    } else {
        x == f
    })
}

// Whether the bytes have the form of a stamp.
#[tactic(auto, using(crate::proofs::Laws::formed_zip, crate::proofs::Laws::formed_length))]
pub fn stamp_formed(s: &[u8]) -> bool
    ensures { result ≡ formed stamp_form s.now }
{
    let form = b"dddd-dd-ddTdd:dd:dd.dddZ";
    s.len() == form.len() && has_form(form, s)
}

// The number that up to four bytes spell: whatever they are, a word holds it.
fn number(s: &[u8]) -> u64
    requires { length s.now ≤ 4 }
    ensures { result ≡ value_from 0 s.now }
{
    value(s)
}

// The date of the 24 bytes.
#[tactic(auto, unfolding(lines::specs::Stamps::date_in))]
pub fn date_in(s: &[u8]) -> Date
    requires { length s.now ≡ 24 }
    ensures { result ≡ date_in s.now }
{
    Date {
        year: number(&s[..4]),
        month: number(&s[5..7]),
        day: number(&s[8..10]),
        hour: number(&s[11..13]),
        minute: number(&s[14..16]),
        second: number(&s[17..19]),
        milli: number(&s[20..23]),
    }
}

// The date of a stamp, where the bytes have the form of one.
#[tactic(auto, using(crate::proofs::Laws::formed_24))]
pub fn read_date(s: &[u8]) -> Option<Date>
    ensures { result ≡ cond (formed stamp_form s.now) (Some (date_in s.now)) None }
{
    stamp_formed(s).then(|| date_in(s))
}
