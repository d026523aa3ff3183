// The text of a value, as adapter lines and documents have it.
#![tactic(auto)]

ghost use Rattle.lines.specs.Lines.{level_word, part_text, point_text, unsigned_text, sample_text, value_text};
ghost use Rattle.writer.specs.Puts.{Put};

use spec::{Level, Value};
use writer::Output;

// Thousandths without zeros at the end.
fn put_part(out: &mut Output, p: u64)
    ensures { Put out.old (part_text p) out.new }
{
    if p % 100 == 0 {
        out.put_fixed::<1>(p / 100);
    } else if p % 10 == 0 {
        out.put_fixed::<2>(p / 10);
    } else {
        out.put_fixed::<3>(p);
    }
}

// A point and the thousandths, if there are any.
fn put_point(out: &mut Output, p: u64)
    ensures { Put out.old (point_text p) out.new }
{
    if p != 0 {
        out.put_byte(b'.');
        put_part(out, p);
    }
}

// n thousandths.
fn put_unsigned(out: &mut Output, n: u64)
    ensures { Put out.old (unsigned_text n) out.new }
{
    out.put_decimal(n / 1000);
    put_point(out, n % 1000);
}

// A sample.
fn put_sample(out: &mut Output, x: i32)
    ensures { Put out.old (sample_text x) out.new }
{
    if x.is_negative() {
        out.put_byte(b'-');
    }
    put_unsigned(out, u64::from(x.unsigned_abs()));
}

// The word of a level.
fn put_level(out: &mut Output, l: Level)
    ensures { Put out.old (level_word l) out.new }
{
    match l {
        Level::Normal => out.put_bytes(b"NORMAL"),
        Level::Warning => out.put_bytes(b"WARNING"),
        Level::Fault => out.put_bytes(b"FAULT"),
    }
}

// A level's word, ':' and the code.
fn put_state(out: &mut Output, l: Level, c: u32)
    ensures { Put out.old (value_text (Value.Condition l c)) out.new }
{
    put_level(out, l);
    out.put_byte(b':');
    out.put_decimal(u64::from(c));
}

// A value.
pub fn put_value(out: &mut Output, v: Value)
    ensures { Put out.old (value_text v) out.new }
{
    match v {
        Value::Unavailable => out.put_bytes(b"UNAVAILABLE"),
        Value::Sample(x) => put_sample(out, x),
        Value::Event(c) => out.put_decimal(u64::from(c)),
        Value::Condition(l, c) => put_state(out, l, c),
    }
}
