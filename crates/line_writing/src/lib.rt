// The call that writes an adapter line: all that it is given is tested in the order of the refusals, and behind the
// last of them the line is written, whole.
#![tactic(auto)]

ghost use Rattle.spec.specs.Reply.{Gives};
ghost use Rattle.history.specs.Calls.{write_line};

use spec::{Answer, Refusal, Value};
use stamp::MAX_TIME;

// The line of an observation: how many bytes it has, or the refusal.
pub fn write_line(
    model: &[u32],
    names: &[u8],
    item: u64,
    time: u64,
    value: Value,
    text: &mut [u8],
) -> Answer
    ensures { Gives result text.new
        (write_line model.now names.now item time value text.old) }
{
    let words = model::checked(model, names)?.words;
    let category = words.category_at(item).ok_or(Refusal::Item)?;
    if !value::takes(category, value) {
        return Err(Refusal::Kind);
    }
    if MAX_TIME < time {
        return Err(Refusal::Stamp);
    }
    line::write_line(text, item, time, value)
}
