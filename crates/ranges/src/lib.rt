// Sequence numbers that a request names: a sample's start and end, and whether a number is late or early.
#![tactic(auto)]

ghost use Rattle.std.specs.Prelude.{◌≡◌, suc, ◌≤◌};
ghost use Rattle.history.specs.Observations.{max_number};
ghost use Rattle.history.specs.Calls as calls;

use spec::Refusal;

// Whether n is one of the numbers from `low` to `high`: late below them, early above.
fn in_range(low: u64, high: u64, n: u64) -> Result<(), Refusal>
    ensures { result ≡ calls.in_range low high n }
{
    if n < low {
        return Err(Refusal::Late);
    }
    if high < n {
        return Err(Refusal::Early);
    }
    Ok(())
}

// The range of a sample's starting number: first to last + 1, the next number. Each of the two is one call, and says
// which numbers its request may name.
pub fn start_range(first: u64, last: u64, f: u64) -> Result<(), Refusal>
    requires { last ≤ max_number }
    ensures { result ≡ calls.in_range first (suc last) f }
{
    in_range(first, last + 1, f)
}

// The range of a current's `at`: first to last.
pub fn at_range(first: u64, last: u64, number: u64) -> Result<(), Refusal>
    ensures { result ≡ calls.in_range first last number }
{
    in_range(first, last, number)
}

// A sample's starting number: `from`, or first where it is 0, which is absent too (asking::Asked). It, count_or and
// observing::time_or share one `if`: each has its definition's name, and count_or a bound.
pub fn start_of(first: u64, from: u64) -> u64
    ensures { result ≡ calls.start_of first from }
{
    if from == 0 { first } else { from }
}

// How many numbers a sample considers at most: the count, or the default where it is 0, that is absent (asking::Asked).
pub fn count_or(count: u64) -> u64
    ensures { (result ≡ calls.count_or count) × (1 ≤ result) }
{
    if count == 0 {
        spec::DEFAULT_COUNT
    } else {
        count
    }
}

// The end of a sample of at most n numbers from f on.
pub fn end_of(f: u64, n: u64, last: u64) -> u64
    requires f_bound { (f ≤ suc last) × (1 ≤ n) }
    requires last_le_max_number { last ≤ max_number }
    ensures { result ≡ calls.end_of f n last }
{
    f + n.min(last + 1 - f)
}
