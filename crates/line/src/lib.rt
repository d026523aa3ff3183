// Adapter lines, read and written.
#![tactic(auto)]

ghost use Rattle.std.specs.Prelude.{true, ◌≡◌, Some};
ghost use Rattle.lines.specs.Lines.{line_in, read_line, stamp_part, line_of};
ghost use Rattle.line.specs.Times.{time_read};
ghost use Rattle.writer.specs.Puts.{Put};
ghost use Rattle.writer.specs.Whole.{text_after, bytes_of};

use calendar::checked_time;
use figures::put_value;
use forms::{form_of, numeral};
use lines::{Form, Line, LineError};
use scan::split_once;
use spec::{Answer, Value};
use stamp::put_stamp;
use stamp_fields::read_date;
use writer::{Output, write_whole};

// The time of a line's stamp. No bytes are time 0, the calls' own number for a time that is missing.
#[tactic(auto, using(crate::proofs::Laws::stamps))]
fn time_in(stamp: &[u8]) -> Result<u64, LineError>
    ensures { result ≡ time_read stamp.now }
{
    if stamp.is_empty() {
        return Ok(0);
    }
    let date = read_date(stamp).ok_or(LineError::Malformed)?;
    checked_time(date).ok_or(LineError::BadStamp)
}

// What the three parts of a line say.
#[tactic(auto, unfolding(lines::specs::Lines::line_in))]
fn line_in(stamp: &[u8], item: &[u8], form: Form) -> Result<Line, LineError>
    ensures { result ≡ line_in stamp.now item.now (Some form) }
{
    let item = numeral(item).ok_or(LineError::Malformed)?;
    let time = time_in(stamp)?;
    Ok(Line { time, item, form })
}

// What a line says.
#[tactic(auto, unfolding(lines::specs::Lines::read_line), using(crate::proofs::Laws::bars))]
pub fn read_line(s: &[u8]) -> Result<Line, LineError>
    ensures { result ≡ read_line s.now }
{
    let (stamp, rest) = split_once(s, b'|').ok_or(LineError::Malformed)?;
    let (item, value) = split_once(rest, b'|').ok_or(LineError::Malformed)?;
    if value.contains(&b'|') {
        return Err(LineError::Malformed);
    }
    let form = form_of(value).ok_or(LineError::Malformed)?;
    line_in(stamp, item, form)
}

// A line's stamp: none for time 0.
fn put_time(out: &mut Output, t: u64)
    ensures { Put out.old (stamp_part t) out.new }
{
    if t != 0 {
        put_stamp(out, t);
    }
}

// The line of an observation.
pub fn put_line(out: &mut Output, item: u64, time: u64, v: Value)
    ensures { Put out.old (line_of item time v) out.new }
{
    put_time(out, time);
    out.put_byte(b'|');
    out.put_decimal(item);
    out.put_byte(b'|');
    put_value(out, v);
}

// The line of an observation, or nothing where the text is too short for it.
pub fn write_line(text: &mut [u8], item: u64, time: u64, v: Value) -> Answer
    ensures text_after { text.new ≡ text_after (line_of item time v) text.old }
    ensures value { result ≡ bytes_of (line_of item time v) text.old }
{
    write_whole(text, |out| put_line(out, item, time, v))
}
