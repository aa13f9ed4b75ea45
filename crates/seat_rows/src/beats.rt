//! When the parties were last heard, in a clock that lags behind.
ghost use Rattle.std.specs.Prelude.{◌≡◌, ◌+◌, ◌<◌, None, Some, IfNone, IfOk, IfSome, IsNone, IsSome, length, replicate, set, slice_index_or};
ghost use Rattle.linger_clock.specs.Deadlines.{IsClock, until_of};
ghost use Rattle.seat_rows.specs.Beats.{ChangesMoment, due_marks, earlier_mark};

use linger_clock::Clock;
use no_memory::NoMemory;
use std::alloc::Global;
use std::marker::Model;

/// The mark of a party that has none yet, in seconds since 1970-01-01 UTC.
fn add_beat(beats: &mut Clock, party: usize, beat: u64)
    requires room { length beats.old.pairs < beats.old.room }
    requires absent { IsNone (until_of party beats.old.pairs) }
    requires kept { IsClock beats.old }
    ensures moment { ChangesMoment party (Some beat) beats.old beats.new }
    ensures len { length beats.new.pairs ≡ length beats.old.pairs + 1 }
{
    match beats.add(party as u64, beat) {
        Ok(()) => {}
        Err(_) => unreachable!(),
    }
}

/// The party has no mark any more.
fn drop_beat(beats: &mut Clock, party: usize)
    requires there { IsSome (until_of party beats.old.pairs) }
    requires kept { IsClock beats.old }
    ensures moment { ChangesMoment party None beats.old beats.new }
    ensures len { length beats.new.pairs + 1 ≡ length beats.old.pairs }
{
    let _beat = beats.remove(party as u64);
}

/// A mark for each party that was heard: a moment, in seconds since 1970-01-01 UTC, from which on its last beat may be
/// over. So a later beat changes nothing here: it is only looked at once its mark has come. A clause sees the marks, by
/// the numbers of their parties.
#[derive(Drop)]
pub struct Beats {
    marks: Vec<Option<u64>>,
    // The marks once more, under their parties.
    clock: Clock,
}

impl Model for Beats {
    ghost use Rattle.std.specs.Prelude.{ℕ, List, Option};
    ghost use Rattle.seat_rows.specs.Beats.{AreTimed};

    ghost Value = { List (Option ℕ) };

    ghost view = { λ b. b.marks.items };

    ghost invariant = { λ b. AreTimed b.marks.items b.clock };
}

impl Beats {
    /// No marks yet, with room for one of each of this many parties. All memory is taken here. `NoMemory` comes where
    /// there was too little.
    pub fn make(alloc: Global, parties: u32) -> Result<Self, NoMemory>
        ensures { IfOk result (λ beats. beats ≡ replicate parties None) }
    {
        let marks = vec![in alloc; None; parties as usize]?;
        let clock = Clock::make(alloc, parties)?;
        Ok(Beats { marks, clock })
    }

    /// Notes a beat of a party, in seconds since 1970-01-01 UTC. A mark that is no later stays.
    pub fn note(&mut self, party: usize, beat: u64)
        requires { party < length self.old }
        ensures { self.new ≡ set self.old party (Some (earlier_mark (slice_index_or self.old party None) beat)) }
    {
        match self.marks[party] {
            None => self.put_in(party, beat),
            Some(mark) => {
                if beat < mark {
                    self.take_out(party);
                    self.put_in(party, beat);
                }
            }
        }
    }

    /// Takes out the first mark that has come at this moment, in seconds since 1970-01-01 UTC, and gives its party;
    /// `None` where none has come, and then nothing has changed.
    pub fn settle(&mut self, over: u64) -> Option<usize>
        ensures inside { IfSome result (λ party. party < length self.old) }
        ensures taken { IfSome result (λ party. self.new ≡ set self.old party None) }
        ensures fewer { IfSome result (λ _. due_marks over self.new + 1 ≡ due_marks over self.old) }
        ensures same { IfNone result (self.new ≡ self.old) }
        ensures none { IfNone result (due_marks over self.old ≡ 0) }
    {
        let party = self.clock.settle(over)? as usize;
        self.marks[party] = None;
        Some(party)
    }

    /// The mark of a party that has none.
    fn put_in(&mut self, party: usize, beat: u64)
        requires inside { party < length self.old }
        requires none { slice_index_or self.old party None ≡ None }
        ensures { self.new ≡ set self.old party (Some beat) }
    {
        self.marks[party] = Some(beat);
        add_beat(&mut self.clock, party, beat);
    }

    /// The party has no mark any more.
    fn take_out(&mut self, party: usize)
        requires inside { party < length self.old }
        requires some { IsSome (slice_index_or self.old party None) }
        ensures { self.new ≡ set self.old party None }
    {
        self.marks[party] = None;
        drop_beat(&mut self.clock, party);
    }
}
