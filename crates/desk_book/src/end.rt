//! How a desk's book ends.
ghost use Rattle.std.specs.Prelude.{◌≡◌, ◌≤◌, ◌++◌, ◌∷◌, [], All, List, MatchBool, vec_len, vec_capacity};
ghost use Rattle.options_machine.specs.declared.reply.Entry.{Entry};
ghost use Rattle.desk_book.specs.Ends.{AreTickets, Tells};

use crate::book::DeskBook;
use crate::pass::BookPass;
use audit_log::LogTake;
use options_machine::Entry;
use std::marker::Model;
use std::sync::Wait;
use turn_lock::{TurnPass, Turns};

/// The log of a desk.
#[derive(Drop)]
pub struct DeskLog {
    /// The first 4,096 entries of the desk.
    pub entries: Vec<Entry>,
    /// Whether there were more.
    pub cut: bool,
}

/// What a closed book tells, each number modulo 2^64.
#[derive(Drop)]
pub struct Closed {
    /// Its log.
    pub log: DeskLog,
    /// How many entries were made.
    pub calls: u64,
    /// How many replies brought a seat.
    pub grants: u64,
}

/// The end of a book's log at which its entries come out, with the room that the close needs.
///
/// Contracts see it as a `KeeperView`: of which `queue`, what was `taken` out, and for how many passes there is `room`.
#[derive(Drop)]
pub struct Keeper {
    pub(crate) take: LogTake,
    pub(crate) tickets: Vec<TurnPass<DeskBook>>,
    ghost empty: { tickets.items ≡ [] },
}

impl Model for Keeper {
    ghost use Rattle.std.specs.Prelude.{vec_capacity};
    ghost use Rattle.desk_book.specs.Ends.{KeeperView};

    ghost Value = { KeeperView };

    ghost view = { λ k. record { queue = k.take.queue; taken = k.take.taken; room = vec_capacity k.tickets } };
}

impl Keeper {
    /// Takes the next entry out of the log's queue, and says whether there was one. It takes no memory.
    pub fn take<R: Wait>(&mut self, rt: &R) -> bool
        ensures taken { MatchBool result ((x : Entry) × (self.new.taken ≡ self.old.taken ++ x ∷ [])) (self.new.taken ≡ self.old.taken) }
        ensures same { (self.new.queue ≡ self.old.queue) × (self.new.room ≡ self.old.room) }
    {
        self.take.take(rt)
    }
}

/// Takes all passes of a book in, ends its board and its log, and tells the numbers of its whole history.
///
/// It takes no memory. It waits for those who read the board, and for nobody's turn.
pub fn close_book<R: Wait>(
    rt: &R,
    turns: Turns<DeskBook>,
    passes: Vec<BookPass>,
    keeper: Keeper,
) -> Closed
    requires count { vec_len passes ≡ turns.id.parties }
    requires lock { All (λ p. p.lock ≡ turns.id) passes.items }
    requires queue { keeper.queue ≡ turns.law.queue }
    requires room { turns.id.parties ≤ keeper.room }
    ensures { (history : List Entry) × Tells turns.law passes.items result history }
{
    let Keeper { take, mut tickets } = keeper;
    collect(passes, &mut tickets);
    let (book, calls) = turns.close(tickets);
    end(rt, book, take, calls)
}

/// The lock's passes of all parties, in order.
fn collect(passes: Vec<BookPass>, tickets: &mut Vec<TurnPass<DeskBook>>)
    requires empty { tickets.old.items ≡ [] }
    requires room { vec_len passes ≤ vec_capacity tickets.old }
    ensures { AreTickets passes.items tickets.new.items }
{
    for pass in passes {
        tickets.push_reserved(pass.into_ticket());
    }
}

/// Ends a book that made so many calls, with the entries that are left in its log's queue.
fn end<R: Wait>(rt: &R, book: DeskBook, take: LogTake, calls: u64) -> Closed
    requires queue { take.queue ≡ book.log.queue }
    ensures entries { result.log.entries.items ≡ book.log.pushed }
    ensures cut { result.log.cut ≡ book.cut }
    ensures numbers { (result.calls ≡ calls) × (result.grants ≡ book.book.grants) }
{
    let DeskBook {
        book,
        log,
        cut,
        board,
    } = book;
    let grants = book.grants();
    board.end(rt);
    let mut take = take;
    take.finish(rt, log);
    let log = DeskLog {
        entries: take.into_entries(),
        cut,
    };
    Closed { log, calls, grants }
}

/// Ends a book whose lock could not be made.
pub(crate) fn discard<R: Wait>(rt: &R, book: DeskBook) {
    let DeskBook {
        book: _,
        log: _,
        cut: _,
        board,
    } = book;
    board.end(rt);
}
