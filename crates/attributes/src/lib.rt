// An attribute: the bytes up to its text, the text, and the quote behind it.
#![tactic(auto)]

ghost use Rattle.std.specs.Prelude.{ℕ, List, [], ◌∷◌, ◌++◌};
ghost use Rattle.spec.specs.Bytes.{decimal};
ghost use Rattle.lines.specs.Stamps.{stamp_text};
ghost use Rattle.writer.specs.Puts.{Put};
ghost use Rattle.writer.specs.Whole.{Puts};

use stamp::put_stamp;
use writer::Output;

// What `put` puts, as an attribute's text.
fn put_attribute<F: Fn(&mut Output)>(out: &mut Output, before: &[u8], put: F)
    ghost s: { List ℕ }
    requires callable { F.IsAlwaysCallable put }
    requires puts { Puts F.Fn put s }
    ensures { Put out.old (before.now ++ (s ++ 34 ∷ [])) out.new }
{
    out.put_bytes(before);
    put(out);
    out.put_byte(b'"');
}

// A number.
pub fn put_number(out: &mut Output, before: &[u8], n: u64)
    ensures { Put out.old (before.now ++ (decimal n ++ 34 ∷ [])) out.new }
{
    put_attribute(out, before, |out| out.put_decimal(n));
}

// A text.
pub fn put_text(out: &mut Output, before: &[u8], text: &[u8])
    ensures { Put out.old (before.now ++ (text.now ++ 34 ∷ [])) out.new }
{
    put_attribute(out, before, |out| out.put_bytes(text));
}

// A time, in full.
pub fn put_time(out: &mut Output, before: &[u8], t: u64)
    ensures { Put out.old (before.now ++ (stamp_text t ++ 34 ∷ [])) out.new }
{
    put_attribute(out, before, |out| put_stamp(out, t));
}
