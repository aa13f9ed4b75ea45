//! The end of an office.
ghost use Rattle.std.specs.Prelude.{◌≡◌, ◌<◌, ◌≤◌, ℕ, List, [], All, IfOk, get_or, length, vec_len, vec_capacity};
ghost use Rattle.options_machine.specs.declared.reply.Entry.{Entry};
ghost use Rattle.desk_book.specs.declared.end.DeskLog.{DeskLog};
ghost use Rattle.feature_desk.specs.declared.closing.DeskTally.{DeskTally};
ghost use Rattle.feature_desk.specs.Closings.{HasLog, Tells};
ghost use Rattle.feature_desk.specs.Sitters.{DeskView};
ghost use Rattle.licence_office.specs.Logs.{AreLogsOf};
ghost use Rattle.licence_office.specs.Offices.{AreAt, accounts_at};
ghost use Rattle.licence_office.specs.Rooms.{AreEnds, HasRoom};

use crate::dealing::take_in;
use crate::logs::{DeskEnd, OfficeLogs};
use crate::office::{Office, OfficePass, Opened};
use desk_book::DeskLog;
use feature_desk::DeskTally;
use no_memory::NoMemory;
use std::alloc::Global;
use std::sync::Wait;

/// What an office tells when it is closed.
#[derive(Drop)]
pub struct OfficeEnd {
    /// The numbers of each desk, in the order of the pools.
    pub tallies: Vec<DeskTally>,
    /// The log of each desk, in the order of the pools.
    pub logs: Vec<DeskLog>,
}

impl OfficeEnd {
    /// Empty, with room for what so many desks tell.
    pub(crate) fn room(alloc: Global, desks: usize) -> Result<OfficeEnd, NoMemory>
        ensures { IfOk result (HasRoom desks) }
    {
        let tallies = Vec::with_capacity(alloc, desks)?;
        let logs = Vec::with_capacity(alloc, desks)?;
        Ok(OfficeEnd { tallies, logs })
    }
}

/// Closes desks with all their passes, and tells the numbers and the log of each, in order. The parties keep none.
pub(crate) fn close_all<R: Wait>(rt: &R, opened: Opened, parties: &mut [OfficePass]) -> OfficeEnd
    requires ends { AreEnds (length parties.old) opened.desks.items opened.ends.items }
    requires told { HasRoom (vec_len opened.desks) opened.told }
    requires ready { All (λ p. AreAt opened.desks.items p.items) parties.old }
    ensures { (histories : List (List Entry)) × (length histories ≡ length opened.desks.items)
        × ((j : ℕ) (d : DeskView) (t : DeskTally) (l : DeskLog) → j < length opened.desks.items
        → Tells (get_or opened.desks.items j d) (accounts_at j parties.old) (get_or result.tallies.items j t) (get_or histories j [])
        × HasLog (get_or result.logs.items j l) (get_or histories j []))
        × (vec_len result.tallies ≡ length opened.desks.items) × (vec_len result.logs ≡ length opened.desks.items) }
{
    let Opened {
        mut desks,
        mut ends,
        told,
    } = opened;
    let OfficeEnd {
        mut tallies,
        mut logs,
    } = told;
    while let Some(end) = ends.pop() {
        let Some(desk) = desks.pop() else {
            unreachable!()
        };
        let DeskEnd { keeper, mut room } = end;
        take_in(parties, &mut room);
        let (tally, log) = desk.close_with_log(rt, room, keeper);
        tallies.push_reserved(tally);
        logs.push_reserved(log);
    }
    desks.destroy_empty();
    tallies.reverse();
    logs.reverse();
    OfficeEnd { tallies, logs }
}

impl Office {
    /// Takes the passes of all parties in, in any order, and the office's logs, ends the boards of all desks, and tells
    /// the numbers of each desk's whole history, in the order of the pools. No party may hold a seat.
    ///
    /// It takes no memory. It waits for those who read a board, and for nobody's turn.
    pub fn close<R: Wait>(self, rt: &R, passes: Vec<OfficePass>, logs: OfficeLogs) -> Vec<DeskTally>
        requires count { vec_len passes ≡ self.parties }
        requires ready { All (λ p. AreAt self.view.desks p.items) passes.items }
        requires logs { AreLogsOf logs self }
        ensures { (histories : List (List Entry)) × (length histories ≡ length self.view.desks)
            × ((j : ℕ) (d : DeskView) (t : DeskTally) → j < length self.view.desks
            → Tells (get_or self.view.desks j d) (accounts_at j passes.items) (get_or result.items j t) (get_or histories j []))
            × (vec_len result ≡ length self.view.desks) }
    {
        let OfficeEnd { tallies, logs: _ } = self.close_with_log(rt, passes, logs);
        tallies
    }

    /// Takes the passes of all parties in, in any order, and the office's logs, ends the boards of all desks, and tells
    /// the numbers of each desk's whole history, and the log of its first 4,096 entries, in the order of the pools,
    /// whatever was taken out of the logs before. No party may hold a seat.
    ///
    /// It takes no memory. It waits for those who read a board, and for nobody's turn.
    pub fn close_with_log<R: Wait>(
        self,
        rt: &R,
        passes: Vec<OfficePass>,
        logs: OfficeLogs,
    ) -> OfficeEnd
        requires count { vec_len passes ≡ self.parties }
        requires ready { All (λ p. AreAt self.view.desks p.items) passes.items }
        requires logs { AreLogsOf logs self }
        ensures { (histories : List (List Entry)) × (length histories ≡ length self.view.desks)
            × ((j : ℕ) (d : DeskView) (t : DeskTally) (l : DeskLog) → j < length self.view.desks
            → Tells (get_or self.view.desks j d) (accounts_at j passes.items) (get_or result.tallies.items j t) (get_or histories j [])
            × HasLog (get_or result.logs.items j l) (get_or histories j []))
            × (vec_len result.tallies ≡ length self.view.desks) × (vec_len result.logs ≡ length self.view.desks) }
    {
        let mut passes = passes;
        let Office { view, parties: _ } = self;
        let OfficeLogs { ends, told, .. } = logs;
        let opened = Opened {
            desks: view.into_desks(),
            ends,
            told,
        };
        close_all(rt, opened, passes.as_mut_slice())
    }
}
