//! The days of a pool, summed while its entries come.
ghost use Rattle.std.specs.Prelude.{◌≡◌, ◌++◌, ◌+◌, ◌<◌, ◌≤◌, ◌^◌, [], None, IfOk, IfSome, OnOk, option_to_list};
ghost use Rattle.log_audit.specs.Running.{HasRoom, days_with_entry, over_at, sum_at};
ghost use Rattle.log_audit.specs.Times.{seat_seconds};

use crate::day_sum::{DaySum, Stretch, day_of};
use no_memory::NoMemory;
use options_machine::Reply;
use std::alloc::Global;
use std::marker::Model;

/// The days of a pool's entries so far, each with its sums.
#[derive(Drop)]
pub(crate) struct Days {
    /// Those that are over.
    over: Vec<DaySum>,
    /// That of the last entry.
    last: Option<DaySum>,
}

impl Model for Days {
    ghost use Rattle.log_audit.specs.Running.{Running};

    ghost Value = { Running };

    ghost view = { λ d. record { over = d.over.items; last = d.last } };
}

impl Days {
    /// No day, before the first entry.
    pub(crate) fn new(alloc: Global) -> Days
        ensures { result ≡ record { over = []; last = None } }
    {
        Days {
            over: Vec::new(alloc),
            last: None,
        }
    }

    /// Comes to the day of the pool's next entry, which ends this stretch, and gives the day's sums so far.
    fn come_to(&mut self, pool: u32, stretch: &Stretch) -> Result<DaySum, NoMemory>
        requires order { stretch.now.from ≤ stretch.now.until }
        requires room { IfSome self.old.last HasRoom }
        requires seconds { IfSome self.old.last (λ sum. sum.seconds + seat_seconds stretch.now < 2 ^ 64) }
        ensures sum { IfOk result (λ sum. sum ≡ sum_at self.old.last pool stretch.now) }
        ensures over { OnOk result (self.new.over ≡ over_at self.old.over self.old.last stretch.now) }
        ensures room { IfOk result HasRoom }
    {
        let today = day_of(stretch.until);
        let Some(last) = self.last else {
            return Ok(DaySum::no_entries(pool, today));
        };
        let sum = last.with_stretch(stretch);
        if sum.day == today {
            return Ok(sum);
        }
        self.over.push(sum)?;
        Ok(DaySum::no_entries(pool, today))
    }

    /// Counts the pool's next entry, which ends this stretch, and after which so many seats are held.
    pub(crate) fn count(
        &mut self,
        pool: u32,
        stretch: &Stretch,
        held: u32,
        reply: &Reply,
    ) -> Result<(), NoMemory>
        requires order { stretch.now.from ≤ stretch.now.until }
        requires room { IfSome self.old.last HasRoom }
        requires seconds { IfSome self.old.last (λ sum. sum.seconds + seat_seconds stretch.now < 2 ^ 64) }
        ensures { OnOk result (self.new ≡ days_with_entry self.old pool stretch.now held reply.now) }
    {
        let sum = self.come_to(pool, stretch)?;
        self.last = Some(sum.with_entry(held, reply));
        Ok(())
    }

    /// Puts the days behind others, in their order.
    pub(crate) fn put(&self, days: &mut Vec<DaySum>) -> Result<(), NoMemory>
        ensures { OnOk result (days.new.items ≡ days.old.items ++ (self.now.over ++ option_to_list self.now.last)) }
    {
        days.extend_from_slice(self.over.as_slice())?;
        if let Some(last) = self.last {
            days.push(last)?;
        }
        Ok(())
    }
}
