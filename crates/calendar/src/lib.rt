// Times as dates and times of day, 1970 to 2099.
#![tactic(auto)]

ghost use Rattle.std.specs.Prelude.{cond, true, ◌≡◌, ◌≤◌, Some, None};
ghost use Rattle.lines.specs.Stamps.{month_length, real_date, day_number, time_of, date_of};

use lines::Date;

// The days of a month. Whether its year is a leap year is all that it takes of it.
#[tactic(auto, unfolding(lines::specs::Stamps::month_length))]
fn month_length(long: bool, m: u64) -> u64
    requires { (1 ≤ m) × (m ≤ 12) }
    ensures { result ≡ month_length long m }
{
    match m {
        4 | 6 | 9 | 11 => 30,
        2 if long => 29,
        2 => 28,
        _ => 31,
    }
}

// Whether there is such a date, 1970 to 2099.
#[tactic(auto, unfolding(lines::specs::Stamps::real_date))]
pub fn real_date(d: Date) -> bool
    ensures { result ≡ real_date d }
{
    (1970..=2099).contains(&d.year)
        && (1..=12).contains(&d.month)
        && (1..=month_length(d.year % 4 == 0, d.month)).contains(&d.day)
        && d.hour <= 23
        && d.minute <= 59
        && d.second <= 59
        && d.milli <= 999
}

// The days from 1970-01-01 on, counted from 1968-03-01 in years that begin in March.
#[tactic(auto, using(crate::proofs::Laws::real_dates))]
fn day_number(d: Date) -> u64
    requires { real_date d ≡ true }
    ensures { result ≡ day_number d.year d.month d.day }
{
    let m = d.month;
    let a = d.year - 1968 - (14 - m) / 12;
    a / 4 * 1461 + (365 * (a % 4) + (153 * ((m + 9) % 12) + 2) / 5 + (d.day - 1)) - 671
}

// The time of a date.
#[tactic(auto, unfolding(lines::specs::Stamps::time_of), using(crate::proofs::Laws::real_dates))]
pub fn time_of(d: Date) -> u64
    requires { real_date d ≡ true }
    ensures { result ≡ time_of d }
{
    let days = day_number(d);
    (((days * 24 + d.hour) * 60 + d.minute) * 60 + d.second) * 1000 + d.milli
}

// The time of a date, where there is such a date.
pub fn checked_time(d: Date) -> Option<u64>
    ensures { result ≡ cond (real_date d) (Some (time_of d)) None }
{
    real_date(d).then(|| time_of(d))
}

// The date of a time. What is within a day and within four years fits 32 bits, where a division takes fewer
// instructions.
pub fn date_of(t: u64) -> Date
    ensures { result ≡ date_of t }
{
    let seconds = t / 1000;
    let of_day = (seconds % 86400) as u32;
    let minutes = of_day / 60;
    let n = seconds / 86400 + 671;
    let r = (n % 1461) as u32;
    let y = (4 * r + 3) / 1461;
    let e = r - 365 * y;
    let p = (5 * e + 2) / 153;
    Date {
        year: 1968 + 4 * (n / 1461) + u64::from(y + p / 10),
        month: u64::from((p + 2) % 12 + 1),
        day: u64::from(e - (153 * p + 2) / 5 + 1),
        hour: u64::from(minutes / 60),
        minute: u64::from(minutes % 60),
        second: u64::from(of_day % 60),
        milli: t % 1000,
    }
}
