// What observe finds in a condition item's latest entries: the refusal Store or Crowded, Same, or none of them.
#![tactic(auto)]

ghost use Rattle.std.specs.Prelude.{◌≡◌, ◌^◌, ◌<◌, length};
ghost use Rattle.judging.specs.Findings.{repeated_if, raised_judged, cleared_judged, judged};

use entries::Entries;
use spec::{ENTRY_SLOTS, Refusal, Value};

// What observe finds in an item's latest entries, where nothing is refused.
#[derive(Clone, Copy)]
pub enum Judged {
    Repeated,
    New,
}

// Repeated where the test says so. No From of a bool: that wouldn't say which way.
fn repeated_if(test: bool) -> Judged
    ensures { result ≡ repeated_if test }
{
    if test { Judged::Repeated } else { Judged::New }
}

// What observe finds of a Warning or Fault with this key: its level stands for its code, or it is a ninth code.
fn judge_raised(
    entries: &Entries<'_>,
    marks: &[u64; ENTRY_SLOTS],
    key: u64,
    word: u64,
) -> Result<Judged, Refusal>
    ensures { result ≡ raised_judged entries.now marks.now key word }
{
    let j = marks::find(marks, key).ok_or(Refusal::Crowded)?;
    if marks[j] == 0 {
        return Ok(Judged::New);
    }
    let row = entries.row(j as u64);
    Ok(repeated_if(row.packed == word))
}

// What observe finds of a Normal whose code, not 0, has this key: it repeats where no entry has it.
fn judge_cleared(marks: &[u64; ENTRY_SLOTS], key: u64) -> Judged
    ensures { result ≡ cleared_judged marks.now key }
{
    match marks::find(marks, key) {
        Some(j) => repeated_if(marks[j] == 0),
        None => Judged::Repeated,
    }
}

// What observe finds in item own's eight latest entries, of a packed word.
pub fn judge(entries: &Entries<'_>, own: u64, word: u64) -> Result<Judged, Refusal>
    requires own_bound { own < 2 ^ 24 }
    ensures { result ≡ judged own entries.now word }
{
    let filled = entries::fill(entries, own)
        .filter(|filled| filled.used != 0)
        .ok_or(Refusal::Store)?;
    let key = marks::key_of(own, word);
    if key != 0 {
        return judge_raised(entries, &filled.marks, key, word);
    }
    let first = entries.row(0);
    if !marks::is_normal(word) {
        return Ok(repeated_if(first.packed == word));
    }
    let code = marks::code_of(word);
    if code != 0 {
        return Ok(judge_cleared(&filled.marks, code + 1));
    }
    if marks::key_in(filled.marks[0]) != 0 {
        return Ok(Judged::New);
    }
    Ok(repeated_if(first.packed != value::pack(own, Value::Unavailable)))
}
