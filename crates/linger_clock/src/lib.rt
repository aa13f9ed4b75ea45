//! Deadlines in order: whose time is up first.
//!
//! A clock holds at most one deadline for each owner. An owner is any number that the clock's user hands out, such as
//! the place of a lingering seat in a table. Deadlines fall due in the order of their moments, and those of one moment
//! in the order of their owners (this project). All memory is taken when the clock is made.
#![tactic(auto)]

ghost use Rattle.std.specs.Prelude.{◌≡◌, ◌≤◌, ◌<◌, ◌↔◌, [], Some, length, find, slice_get, All, IsNone, IsSome, IfOk, IfSome, IfNone, OnOk, OnErr};
ghost use Rattle.std.specs.Option.{option_map};
ghost use Rattle.linger_clock.specs.Deadlines.{is_due, until_of, without, with_deadline, IsClock};

mod spare;
mod tree;

pub use no_memory::NoMemory;
use spare::{Spare, spares};
use std::alloc::Global;
use std::marker::Model;
use thiserror::Error;
use tree::{Order, Tree};

/// A moment that an owner waits for.
#[derive(Clone, Copy, Debug, PartialEq, Eq)]
pub struct Deadline {
    /// The number that the clock's user knows the owner by.
    pub owner: u64,
    /// When the deadline falls due, in seconds since 1970-01-01 UTC. At that very second it is due.
    pub until: u64,
}

/// Why a clock doesn't take a deadline. The faults are tried in this order.
#[derive(Clone, Copy, Debug, PartialEq, Eq, Error)]
pub enum ClockFault {
    /// As many deadlines wait as the clock has room for.
    #[error("no room for another deadline")]
    Full,
    /// The owner has a deadline already.
    #[error("a second deadline of one owner")]
    Twice,
}

/// The deadlines that wait. A clause sees the clock's room and the deadlines in the order in which they fall due.
#[derive(Drop)]
pub struct Clock {
    room: u32,
    /// No deadline falls due before this moment. It may be earlier than the first one's: where that one is taken out,
    /// it stays until `settle` looks again.
    earliest: u64,
    by_moment: Tree,
    by_owner: Tree,
    spare: Vec<Spare>,
}

impl Model for Clock {
    ghost use Rattle.std.specs.Prelude.{vec_len, vec_capacity};
    ghost use Rattle.linger_clock.specs.Deadlines.{Deadlines};
    ghost use Rattle.linger_clock.specs.Kept.{IsKept};

    ghost Value = { Deadlines };

    ghost view = { λ c. record { room = c.room; pairs = c.by_moment.0 } };

    ghost invariant = { λ c.
        IsKept c.room c.earliest c.by_moment.0 c.by_owner.0 (vec_len c.spare) (vec_capacity c.spare) };
}

impl Clock {
    /// A clock with room for `room` deadlines, none of which waits yet. All its memory is taken here, and no other call
    /// takes any. `NoMemory` comes where there was too little.
    pub fn make(alloc: Global, room: u32) -> Result<Self, NoMemory>
        ensures { IfOk result (λ clock. clock ≡ record { room = room; pairs = [] }) }
    {
        // A deadline stands in both trees.
        let spare = spares(alloc, 2 * room as usize)?;
        Ok(Clock {
            room,
            earliest: u64::MAX,
            by_moment: Tree::new(),
            by_owner: Tree::new(),
            spare,
        })
    }

    /// Lets `owner` wait for the moment `until`, in seconds since 1970-01-01 UTC. It is refused as `Full` where as many
    /// deadlines wait as there is room for, and else as `Twice` where the owner waits already; then nothing has
    /// changed.
    pub fn add(&mut self, owner: u64, until: u64) -> Result<(), ClockFault>
        ensures full { (result ≡ Err ClockFault.Full) ↔ (length self.old.pairs ≡ self.old.room) }
        ensures twice { (result ≡ Err ClockFault.Twice) ↔ ((length self.old.pairs < self.old.room) × IsSome (until_of owner self.old.pairs)) }
        ensures added { OnOk result (self.new ≡ record self.old { pairs = with_deadline (record { owner = owner; until = until }) self.old.pairs }) }
        ensures there { OnOk result (until_of owner self.new.pairs ≡ Some until) }
        ensures others { OnOk result (without owner self.new.pairs ≡ self.old.pairs) }
        ensures refused { OnErr result (self.new ≡ self.old) }
        ensures kept { IsClock self.new }
    {
        if self.spare.is_empty() {
            return Err(ClockFault::Full);
        }
        if self.moment_of(owner).is_some() {
            return Err(ClockFault::Twice);
        }
        self.put_in(Deadline { owner, until });
        Ok(())
    }

    /// Takes the owner's deadline out and gives its moment, in seconds since 1970-01-01 UTC; `None` where the owner
    /// doesn't wait.
    pub fn remove(&mut self, owner: u64) -> Option<u64>
        ensures moment { result ≡ until_of owner self.old.pairs }
        ensures removed { self.new ≡ record self.old { pairs = without owner self.old.pairs } }
        ensures absent { IfNone result (self.new ≡ self.old) }
        ensures kept { IsClock self.new }
    {
        let until = self.moment_of(owner)?;
        self.take_out(Deadline { owner, until });
        Some(until)
    }

    /// The earliest moment that is waited for, in seconds since 1970-01-01 UTC; `None` where nobody waits.
    pub fn due(&self) -> Option<u64>
        ensures first { result ≡ option_map (λ d. d.until) (slice_get self.now.pairs 0) }
        ensures least { IfSome result (λ moment. All (λ d. moment ≤ d.until) self.now.pairs) }
        ensures kept { IsClock self.now }
    {
        self.by_moment.first().map(|d| d.until)
    }

    /// Takes out the first deadline in order that has come at the moment `now`, in seconds since 1970-01-01 UTC, and
    /// gives its owner; `None` where none has come, and then nothing has changed. The clock keeps a moment before which
    /// none falls due, and a call before it looks at no deadline.
    pub fn settle(&mut self, now: u64) -> Option<u64>
        ensures first { result ≡ option_map (λ d. d.owner) (find (is_due now) self.old.pairs) }
        ensures taken { IfSome result (λ owner. self.new ≡ record self.old { pairs = without owner self.old.pairs }) }
        ensures none { IfNone result (self.new ≡ self.old) }
        ensures kept { IsClock self.new }
    {
        if now < self.earliest {
            return None;
        }
        let Some(first) = self.by_moment.first() else {
            self.earliest = u64::MAX;
            return None;
        };
        if now < first.until {
            self.earliest = first.until;
            return None;
        }
        self.take_out(first);
        Some(first.owner)
    }

    /// The moment of the owner's deadline.
    fn moment_of(&self, owner: u64) -> Option<u64>
        ensures moment { result ≡ until_of owner self.now.pairs }
        ensures kept { IsClock self.now }
    {
        // By owner the moment doesn't count.
        let like = Deadline { owner, until: 0 };
        self.by_owner.get(Order::ByOwner, like).map(|d| d.until)
    }

    /// Puts in a deadline of a new owner.
    fn put_in(&mut self, deadline: Deadline)
        requires room_left { length self.old.pairs < self.old.room }
        requires absent { IsNone (until_of deadline.owner self.old.pairs) }
        ensures added { self.new ≡ record self.old { pairs = with_deadline deadline self.old.pairs } }
        ensures there { until_of deadline.owner self.new.pairs ≡ Some deadline.until }
        ensures others { without deadline.owner self.new.pairs ≡ self.old.pairs }
        ensures kept { IsClock self.new }
    {
        let (Some(first), Some(second)) = (self.spare.pop(), self.spare.pop()) else {
            unreachable!()
        };
        self.earliest = self.earliest.min(deadline.until);
        self.by_moment.insert(Order::ByMoment, deadline, first);
        self.by_owner.insert(Order::ByOwner, deadline, second);
    }

    /// Takes out a deadline that waits.
    fn take_out(&mut self, deadline: Deadline)
        requires { until_of deadline.owner self.old.pairs ≡ Some deadline.until }
        ensures removed { self.new ≡ record self.old { pairs = without deadline.owner self.old.pairs } }
        ensures kept { IsClock self.new }
    {
        let first = self.by_moment.remove(Order::ByMoment, deadline);
        let second = self.by_owner.remove(Order::ByOwner, deadline);
        self.spare.push_reserved(first);
        self.spare.push_reserved(second);
    }
}
