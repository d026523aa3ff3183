// The 24 bytes of a time's stamp, written.
#![tactic(auto)]

ghost use Rattle.std.specs.Prelude.{◌≡◌, ◌+◌, ◌*◌, ◌/◌, ◌%◌, ◌<◌};
ghost use Rattle.lines.specs.Stamps.{date_text, stamp_text};
ghost use Rattle.writer.specs.Puts.{Put};
ghost use Rattle.stamp.specs.Shown.{Shown};

use calendar::date_of;
use lines::Date;
use writer::Output;

// The last millisecond of 2099: no later time has a stamp.
pub const MAX_TIME: u64 = 4102444799999;

// How many bytes every stamp has.
const STAMP_BYTES: usize = 24;

// The last digit of n. A remainder by 10 fits a byte.
fn digit(n: u64) -> u8
    ensures { result ≡ 48 + n % 10 }
{
    b'0' + ((n % 10) as u8)
}

// The two digits of n as one number, the first of them its low byte, so that both are stored at once: the tens t, and
// 256 times n - 10 * t behind them, each with 48 added.
fn pair(n: u64) -> u64
    requires { n < 100 }
    ensures { result ≡ 48 + n / 10 + 256 * (48 + n % 10) }
{
    256 * n + 12336 - 2559 * (n / 10)
}

// The first digit of a pair.
fn tens(pair: u64) -> u8
    ensures { result ≡ pair % 256 }
{
    (pair % 256) as u8
}

// The second.
fn ones(pair: u64) -> u8
    requires { pair < 65536 }
    ensures { result ≡ pair / 256 }
{
    (pair / 256) as u8
}

// The 24 bytes of a date, made in an array of their own and put at once. Its fields are as long as they are shown; of
// a year the last four digits are. Its first two are no pair: of two beside each other the compiler makes vectors, with
// constants in the archive.
fn put_date(out: &mut Output, d: Date)
    requires { Shown d }
    ensures { Put out.old (date_text d) out.new }
{
    let year = pair(d.year % 100);
    let month = pair(d.month);
    let day = pair(d.day);
    let hour = pair(d.hour);
    let minute = pair(d.minute);
    let second = pair(d.second);
    let centi = pair(d.milli / 10);
    out.put_bytes(&[
        digit(d.year / 1000),
        digit(d.year / 100),
        tens(year),
        ones(year),
        b'-',
        tens(month),
        ones(month),
        b'-',
        tens(day),
        ones(day),
        b'T',
        tens(hour),
        ones(hour),
        b':',
        tens(minute),
        ones(minute),
        b':',
        tens(second),
        ones(second),
        b'.',
        tens(centi),
        ones(centi),
        digit(d.milli),
        b'Z',
    ]);
}

// The 24 bytes of a time; behind the buffer they are only counted.
pub fn put_stamp(out: &mut Output, t: u64)
    ensures { Put out.old (stamp_text t) out.new }
{
    if out.is_full() {
        out.skip(STAMP_BYTES);
        return;
    }
    put_date(out, date_of(t));
}
