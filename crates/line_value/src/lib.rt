// The value of an adapter line, by its form and the category of its item.
#![tactic(auto)]

ghost use Rattle.std.specs.Prelude.{◌≡◌, ◌+◌, ◌*◌, false, cond, eqb, unwrap_or, IfSome};
ghost use Rattle.spec.specs.Value.{no_value, decode};
ghost use Rattle.spec.proofs.Packing.{Coded};
ghost use Rattle.lines.specs.Lines.{sample_for, event_for, state_for, value_for, value_read};

use lines::Form;
use spec::{Level, SAMPLE, Value};
use value::CODES;

// So many thousandths as a sample. The sign stands beside them, as the definition takes it: -0 is a sample too.
fn sample(minus: bool, n: u64) -> Option<Value>
    ensures value { unwrap_or result no_value ≡ sample_for minus n }
    ensures coded { IfSome result (λ v. Coded v) }
{
    let n = i64::try_from(n).ok()?;
    i32::try_from(if minus { -n } else { n })
        .ok()
        .map(Value::Sample)
}

// A whole number as an event.
fn event(n: u64) -> Option<Value>
    ensures value { unwrap_or result no_value ≡ event_for false false n }
    ensures coded { IfSome result (λ v. Coded v) }
{
    u32::try_from(n).ok().map(Value::Event)
}

// A level with its native code: of 24 bits, so that none is lost.
fn state(level: Level, code: u64) -> Option<Value>
    ensures value { unwrap_or result no_value ≡ state_for level code }
    ensures coded { IfSome result (λ v. Coded v) }
{
    let code = u32::try_from(code).ok()?;
    (code < CODES).then_some(Value::Condition(level, code))
}

// The value that an item of the category reads in a form; a number that is too large for its kind is none.
#[tactic(auto, unfolding(lines::specs::Lines::value_for))]
pub fn value_for(category: u64, form: Form) -> Option<Value>
    ensures value { unwrap_or result no_value ≡ value_for category form }
    ensures coded { IfSome result (λ v. Coded v) }
{
    match form {
        Form::Missing => Some(Value::Unavailable),
        Form::Decimal { minus, whole, part } if category == SAMPLE => {
            let n = whole.checked_mul(1000)?.checked_add(part.unwrap_or(0))?;
            sample(minus, n)
        }
        Form::Decimal {
            minus: false,
            whole,
            part: None,
        } => event(whole),
        // a sign or a point is no event's
        Form::Decimal { .. } => None,
        Form::State(level, code) => state(level, code),
    }
}

// A word that no value has, so that no item takes it.
const NO_WORD: u64 = 4 * value::KIND;

// The same as a value's word, of a text's form where it has one; where there is no value, a word that no item takes.
#[tactic(auto, using(crate::proofs::Laws::word_of, crate::proofs::Laws::no_word))]
pub fn word_for(category: u64, form: Option<Form>) -> u64
    ensures { decode result ≡ value_read category form }
{
    let value = match form {
        Some(form) => value_for(category, form),
        None => None,
    };
    match value {
        Some(value) => value::value_word(value),
        None => NO_WORD,
    }
}

// The word of a decimal by its parts, each as it stands: a sample counts the part of one that has no point too, which
// no text reads to and no Form holds.
#[tactic(auto, unfolding(lines::specs::Lines::value_for))]
pub fn decimal_word(category: u64, minus: bool, point: bool, whole: u64, part: u64) -> u64
    ensures { decode result ≡ cond (eqb category 0)
        (sample_for minus (whole * 1000 + part)) (event_for minus point whole) }
{
    if category == SAMPLE || point {
        let part = Some(part);
        return word_for(category, Some(Form::Decimal { minus, whole, part }));
    }
    let part = None;
    word_for(category, Some(Form::Decimal { minus, whole, part }))
}
