// The types of adapter lines and their time stamps. What they mean stands in specs/.
#![tactic(auto)]

ghost use Rattle.std.specs.Prelude.{◌≡◌};
ghost use Rattle.lines.specs.Refusals.{refusal_for};

use spec::{Level, Refusal};

// A date and time of day.
#[derive(Clone, Copy)]
pub struct Date {
    pub year: u64,
    pub month: u64,
    pub day: u64,
    pub hour: u64,
    pub minute: u64,
    pub second: u64,
    pub milli: u64,
}

// The form of a line's value: UNAVAILABLE, a decimal by its sign, its whole part and, where it has a point, the
// thousandths behind it, or a level with its code. The sign stands apart: -0.5 has one, and its whole part, 0, has
// none.
#[derive(Clone, Copy)]
pub enum Form {
    Missing,
    Decimal {
        minus: bool,
        whole: u64,
        part: Option<u64>,
    },
    State(Level, u64),
}

// What a line says. A time of 0 is missing, as in the calls, which have that number for it: then the host's is taken.
#[derive(Clone, Copy)]
pub struct Line {
    pub time: u64,
    pub item: u64,
    pub form: Form,
}

// Why a line says nothing: it has not the form of one, or its stamp is no date of 1970 to 2099.
#[derive(Clone, Copy)]
pub enum LineError {
    Malformed,
    BadStamp,
}

impl From<LineError> for Refusal {
    ghost from_gives = { λ e r. r ≡ refusal_for e };

    fn from(e: LineError) -> Refusal {
        match e {
            LineError::Malformed => Refusal::Line,
            LineError::BadStamp => Refusal::Stamp,
        }
    }
}
