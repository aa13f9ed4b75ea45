//! The value behind a desk's lock, and its step.
ghost use Rattle.std.specs.Prelude.{◌≡◌, ◌<◌, true};
ghost use Rattle.lic_types.specs.declared.limits.TheConstants.{MOMENT_END};
ghost use Rattle.options_machine.specs.Run.{after};

use crate::logging::log_entry;
use audit_log::{LogPush, QueueId};
use options_machine::{EntryRef, Reply, Request};
use policy::DeskRules;
use seat_book::Book;
use stat_board::{Board, BoardNote};
use std::collections::LinkedList;
use std::sync::Wait;
use turn_lock::{Kept, Stepped};

/// What no step of a desk's book changes. Contracts speak of it, and no value of this type is made.
pub struct DeskLaw {
    /// The rule sets.
    pub sets: LinkedList<DeskRules>,
    /// For how many parties the book is.
    pub parties: u32,
    /// The queue of its log.
    pub queue: QueueId,
    /// What its board shows before the first entry.
    pub board: BoardNote,
}

/// What a step answers.
#[derive(Drop)]
pub struct NotedReply {
    /// The reply.
    pub reply: Reply,
    /// What the board shows after the step. It stands for all entries up to and with this one, or, once the board has
    /// ended, for those that it shows for good.
    pub note: BoardNote,
}

/// A book with its log and its board. It can't be dropped, since the board can't: [`DeskBook::end`] ends it.
pub struct DeskBook {
    pub(crate) book: Book,
    pub(crate) log: LogPush,
    // Whether more entries were made than the log keeps.
    pub(crate) cut: bool,
    pub(crate) board: Board,
    ghost small: { book.state.now < MOMENT_END },
    ghost sets: { board.front.sets ≡ book.sets },
    ghost shown: { board.live ≡ true → book.state ≡ after book.sets board.front.list },
}

impl Kept for DeskBook {
    type Request = Request;

    type Answer = NotedReply;

    type Law = DeskLaw;

    ghost use Rattle.desk_book.specs.Standing.{law_of, Fits, Runs, used_at, Stands};

    ghost law = { law_of };

    ghost fits = { Fits };

    ghost party = { λ q. q.party };

    ghost run = { Runs };

    ghost used = { used_at };

    ghost stands = { Stands };

    fn step<R: Wait>(&mut self, rt: &R, request: &Request, moment: u64) -> Stepped<NotedReply> {
        let (reply, used) = self.book.step(request, moment);
        let entry = EntryRef::of(request, used, reply);
        self.cut = log_entry(rt, &mut self.log, &entry, self.cut);
        self.board.publish(rt, &entry, self.book.glance(0));
        let answer = NotedReply {
            reply,
            note: self.board.note(),
        };
        Stepped { answer, used }
    }
}
