ghost use Rattle.std.specs.Prelude.{◌≤◌};

/// A civil date in UTC, with its number of days from 1970-01-01.
#[derive(Clone, Copy, Debug, PartialEq, Eq)]
pub struct Day {
    /// The year, 9999 at most.
    pub year: u16,
    /// The month, from 1 to 12.
    pub month: u8,
    /// The day of the month, from 1 to 31.
    pub day: u8,
    /// Days from 1970-01-01, below 0 before it.
    pub number: i32,
    ghost first_month: { 1 ≤ month },
    ghost last_month: { month ≤ 12 },
    ghost first_day: { 1 ≤ day },
    ghost last_day: { day ≤ 31 },
    ghost last_year: { year ≤ 9999 },
}

/// How long a pool is good.
#[derive(Clone, Copy, Debug, PartialEq, Eq)]
pub enum Expiry {
    /// For ever.
    Never,
    /// To the end of this day in UTC.
    On(Day),
}
