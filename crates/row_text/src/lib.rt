// The line of a row, with its line feed.
#![tactic(auto)]

ghost use Rattle.std.specs.Prelude.{[], ◌∷◌, ◌++◌, ◌^◌, ◌≤◌, length};
ghost use Rattle.spec.specs.Model.{name_bytes};
ghost use Rattle.streams.specs.Streams.{element_name, text_line, state_name, native_code};
ghost use Rattle.streams.specs.Streams.{condition_line, row_line};
ghost use Rattle.streams.specs.Groups.{group_number};
ghost use Rattle.writer.specs.Puts.{Put};
ghost use Rattle.row_text.specs.Shown.{shown, open_attributes};

use attributes::{put_number, put_text};
use element::{element_length, element_of};
use figures::put_value;
use spec::{Level, Row, Value};
use stamp::put_stamp;
use streams::Group;
use value::{decode, item_of, word_of};
use writer::Output;

// How many bytes all rows of Samples and Events have in common: '<', the attributes' names and quotes up to the stamp,
// the stamp's 24 bytes, and what stands before the value, before the second element and behind it.
const TEXT_ROW_BYTES: usize = 1 + 14 + 12 + 13 + 24 + 2 + 2 + 2;

// dataItemId, sequence, timestamp, but for the last quote: each quote is put with what stands behind it.
fn put_attributes(out: &mut Output, row: &Row)
    ensures { Put out.old (open_attributes (shown row.now)) out.new }
{
    out.put_bytes(b" dataItemId=\"i");
    out.put_decimal(item_of(row.packed));
    out.put_bytes(b"\" sequence=\"");
    out.put_decimal(row.number);
    out.put_bytes(b"\" timestamp=\"");
    put_stamp(out, row.time);
}

// A row of Samples or Events; behind the buffer it is only counted.
fn put_text_row(out: &mut Output, t: &[u8], row: &Row)
    requires { length t.now ≤ name_bytes }
    ensures { Put out.old
        (text_line (element_name t.now) (shown row.now) ++ 10 ∷ [])
        out.new }
{
    if out.is_full() {
        count_text_row(out, t, row);
        return;
    }
    let name = element_of(t);
    out.put_byte(b'<');
    out.put_bytes(&name);
    put_attributes(out, row);
    out.put_bytes(b"\">");
    put_value(out, decode(word_of(row.packed)));
    out.put_bytes(b"</");
    out.put_bytes(&name);
    out.put_bytes(b">\n");
}

// The same behind the buffer's end: its element, stamp and constant texts are counted without being made, piece by
// piece, so that no sum of lengths can wrap.
fn count_text_row(out: &mut Output, t: &[u8], row: &Row)
    requires name { length t.now ≤ name_bytes }
    requires short { length out.now.bytes.now ≤ 2 ^ 63 }
    requires full { length out.now.bytes.now ≤ out.now.at }
    ensures { Put out.old
        (text_line (element_name t.now) (shown row.now) ++ 10 ∷ [])
        out.new }
{
    let n = element_length(t);
    out.skip(TEXT_ROW_BYTES);
    out.skip(n);
    out.skip(n);
    out.put_decimal(item_of(row.packed));
    out.put_decimal(row.number);
    put_value(out, decode(word_of(row.packed)));
}

// The element of a condition's value.
fn put_state(out: &mut Output, v: Value)
    ensures { Put out.old (state_name v) out.new }
{
    match v {
        Value::Unavailable => out.put_bytes(b"Unavailable"),
        Value::Sample(_) | Value::Event(_) => {}
        Value::Condition(Level::Normal, _) => out.put_bytes(b"Normal"),
        Value::Condition(Level::Warning, _) => out.put_bytes(b"Warning"),
        Value::Condition(Level::Fault, _) => out.put_bytes(b"Fault"),
    }
}

// nativeCode, where the value has one.
fn put_native(out: &mut Output, v: Value)
    ensures { Put out.old (native_code v) out.new }
{
    if let Value::Condition(_, c) = v {
        put_number(out, b" nativeCode=\"", u64::from(c));
    }
}

// A row of Condition.
fn put_condition_row(out: &mut Output, t: &[u8], row: &Row)
    ensures { Put out.old
        (condition_line t.now (shown row.now) ++ 10 ∷ [])
        out.new }
{
    let v = decode(word_of(row.packed));
    out.put_byte(b'<');
    put_state(out, v);
    put_attributes(out, row);
    put_text(out, b"\" type=\"", t);
    put_native(out, v);
    out.put_bytes(b"/>\n");
}

// The line of a row of group g, of an item of type t. Any number above those of Samples and Events is Condition's.
pub fn put_row(out: &mut Output, g: u64, t: &[u8], row: &Row)
    requires { length t.now ≤ name_bytes }
    ensures { Put out.old (row_line g t.now (shown row.now) ++ 10 ∷ []) out.new }
{
    if g < 2 {
        put_text_row(out, t, row);
    } else {
        put_condition_row(out, t, row);
    }
}

// The line of a row of a group.
pub fn put_group_row(out: &mut Output, g: Group, t: &[u8], row: &Row)
    requires { length t.now ≤ name_bytes }
    ensures { Put out.old
        (row_line (group_number g) t.now (shown row.now) ++ 10 ∷ [])
        out.new }
{
    match g {
        Group::Samples | Group::Events => put_text_row(out, t, row),
        Group::Condition => put_condition_row(out, t, row),
    }
}
