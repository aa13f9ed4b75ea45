//! The sums of a log.
ghost use Rattle.std.specs.Prelude.{◌≡◌, IfOk, flat_map, length};
ghost use Rattle.log_audit.specs.Desks.{days_so_far};
ghost use Rattle.log_audit.specs.Summed.{AreUsers};

use crate::day_sum::DaySum;
use crate::desk::Desk;
use crate::log::Numbered;
use crate::users::{UserSum, users_of};
use no_memory::NoMemory;
use std::alloc::Global;
use std::marker::Model;

/// The sums of a log. Contracts see them as the number of its entries, the list of the sums of its users and that of
/// the sums of its days.
#[derive(Drop)]
pub struct Sums {
    entries: u64,
    users: Vec<UserSum>,
    days: Vec<DaySum>,
}

impl Model for Sums {
    ghost use Rattle.log_audit.specs.Summed.{Summed};

    ghost Value = { Summed };

    ghost view = { λ s. record { entries = s.entries; users = s.users.items; days = s.days.items } };
}

impl Sums {
    /// How many entries the log has, over all pools.
    pub fn entries(&self) -> u64
        ensures { result ≡ self.now.entries }
    {
        self.entries
    }

    /// The users that were granted a seat, in the order of the bytes of their names.
    pub fn users(&self) -> &[UserSum]
        ensures { result.now ≡ self.now.users }
    {
        self.users.as_slice()
    }

    /// The days of each pool that have entries of it, pool by pool, and of one pool in the order of the calendar.
    pub fn days(&self) -> &[DaySum]
        ensures { result.now ≡ self.now.days }
    {
        self.days.as_slice()
    }
}

/// The days of the entries that desks made, pool by pool.
fn days_of(alloc: Global, desks: &[Desk]) -> Result<Vec<DaySum>, NoMemory>
    ensures { IfOk result (λ days. days.items ≡ flat_map days_so_far desks.now) }
{
    let mut days = Vec::new(alloc);
    for desk in desks {
        desk.days.put(&mut days)?;
    }
    Ok(days)
}

/// The sums of the entries of a log, which these desks made.
pub(crate) fn sum_up(alloc: Global, desks: &[Desk], log: &[Numbered]) -> Result<Sums, NoMemory>
    ensures entries { IfOk result (λ sums. sums.entries ≡ length log.now) }
    ensures users { IfOk result (λ sums. AreUsers log.now sums.users) }
    ensures days { IfOk result (λ sums. sums.days ≡ flat_map days_so_far desks.now) }
{
    let users = users_of(alloc, log)?;
    let days = days_of(alloc, desks)?;
    Ok(Sums {
        entries: log.len() as u64,
        users,
        days,
    })
}
