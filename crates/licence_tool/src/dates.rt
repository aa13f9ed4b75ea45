//! The dates of days.
ghost use Rattle.std.specs.Prelude.{◌≡◌, ◌<◌, IfOk, MatchOption};
ghost use Rattle.licence_tool.specs.UsageText.{AreDated, IsDateOf, IsDatedAt};

use jiff_core::civil::Date;
use lic_types::{Day, NoMemory};
use log_audit::DaySum;
use std::alloc::Global;

/// The sums of a day with its date.
#[derive(Clone, Copy)]
pub struct DatedSum {
    /// The sums.
    pub sum: DaySum,
    /// The date, which a day behind 31-dec-9999 doesn't have.
    pub date: Option<Day>,
}

/// The date of the day of this number from 1970-01-01. `None` comes exactly where the day is behind 31-dec-9999.
fn date_of(number: u32) -> Option<Day>
    ensures { IsDatedAt number result }
{
    let Ok(date) = Date::from_unix_epoch_day(i64::from(number)) else {
        return None;
    };
    Some(Day {
        year: date.year as u16,
        month: date.month,
        day: date.day,
        number: number as i32,
    })
}

/// The days with their dates. The one error is want of memory.
pub fn date_days(alloc: Global, days: &[DaySum]) -> Result<Vec<DatedSum>, NoMemory>
    ensures { IfOk result (λ dated. AreDated days.now dated.items) }
{
    let mut dated = Vec::new(alloc);
    for sum in days {
        dated.push(DatedSum {
            sum: *sum,
            date: date_of(sum.day),
        })?;
    }
    Ok(dated)
}
