//! The end of a desk.
ghost use Rattle.std.specs.Prelude.{◌≡◌, ◌%◌, ◌^◌, ◌≤◌, ◌++◌, ◌∷◌, [], All, List, MatchBool, length, map, sum_by, vec_len, vec_capacity};
ghost use Rattle.options_machine.specs.declared.reply.Entry.{Entry};
ghost use Rattle.desk_seats.specs.Views.{parties_of};
ghost use Rattle.feature_desk.specs.Closings.{AreClosable, HasLog, IsKeeperOf, IsSettled, Rests, Tells};
ghost use Rattle.feature_desk.specs.Sitters.{account_of};

use crate::desk::Desk;
use crate::passes::{Chair, DeskPass};
use desk_book::{BookPass, Closed, DeskLog, Keeper, close_book};
use desk_seats::{DeskSeats, SeatGathering, SeatOut};
use kex_words::Card;
use std::marker::Model;
use std::sync::Wait;

/// What a desk tells when it is closed, each modulo 2^64.
#[derive(Clone, Copy, Debug, PartialEq, Eq)]
pub struct DeskTally {
    /// How many entries were made.
    pub calls: u64,
    /// How many replies brought a seat.
    pub grants: u64,
    /// How often the cards of the seats were taken.
    pub uses: u64,
}

/// The end of a desk's log at which its entries come out, with the room that the close needs.
///
/// Contracts see it as a `DeskKeeperView`: the `book`'s keeper, for how many passes there is `room`, and of which
/// `seats` the passes will be taken in.
#[derive(Drop)]
pub struct DeskKeeper {
    pub(crate) book: Keeper,
    pub(crate) tickets: Vec<BookPass>,
    pub(crate) gathering: SeatGathering,
    ghost empty: { tickets.items ≡ [] },
    ghost untaken: { (gathering.numbers ≡ []) × (gathering.got ≡ []) },
}

impl Model for DeskKeeper {
    ghost use Rattle.std.specs.Prelude.{vec_capacity};
    ghost use Rattle.feature_desk.specs.Closings.{DeskKeeperView};

    ghost Value = { DeskKeeperView };

    ghost view = { λ k. record { book = k.book; room = vec_capacity k.tickets; seats = k.gathering.table } };
}

impl DeskKeeper {
    /// Takes the next entry out of the log's queue, and says whether there was one. It takes no memory.
    pub fn take<R: Wait>(&mut self, rt: &R) -> bool
        ensures taken { MatchBool result ((x : Entry) × (self.new.book.taken ≡ self.old.book.taken ++ x ∷ [])) (self.new.book.taken ≡ self.old.book.taken) }
        ensures same { (self.new.book.queue ≡ self.old.book.queue) × (self.new.book.room ≡ self.old.book.room) × (self.new.room ≡ self.old.room) }
        ensures seats { self.new.seats ≡ self.old.seats }
    {
        self.book.take(rt)
    }
}

impl Desk {
    /// Takes all passes in, ends the desk's board, and tells the numbers of its whole history.
    ///
    /// It takes no memory. It waits for those who read the board, and for nobody's turn. The cards of the seats were
    /// taken as often as replies brought a seat.
    pub fn close<R: Wait>(self, rt: &R, passes: Vec<DeskPass>, keeper: DeskKeeper) -> DeskTally
        requires count { vec_len passes ≡ self.lock.id.parties }
        requires all { AreClosable self passes.items }
        requires keeper { IsKeeperOf keeper self }
        ensures { (history : List Entry) × Tells self (map account_of passes.items) result history }
    {
        let (tally, _log) = self.close_with_log(rt, passes, keeper);
        tally
    }

    /// Takes all passes in, ends the desk's board, and tells the numbers of its whole history, and the log of its first
    /// 4,096 entries.
    ///
    /// It takes no memory. It waits for those who read the board, and for nobody's turn. The cards of the seats were
    /// taken as often as replies brought a seat.
    pub fn close_with_log<R: Wait>(
        self,
        rt: &R,
        passes: Vec<DeskPass>,
        keeper: DeskKeeper,
    ) -> (DeskTally, DeskLog)
        requires count { vec_len passes ≡ self.lock.id.parties }
        requires all { AreClosable self passes.items }
        requires keeper { IsKeeperOf keeper self }
        ensures { (history : List Entry) × Tells self (map account_of passes.items) result.0 history × HasLog result.1 history }
    {
        let Desk { turns, seats } = self;
        let DeskKeeper {
            book,
            mut tickets,
            gathering,
        } = keeper;
        let gathering = split(&seats, gathering, passes, &mut tickets);
        let Closed { log, calls, grants } = close_book(rt, turns, tickets, book);
        let cards = seats.close_gathered(gathering);
        let tally = DeskTally {
            calls,
            grants,
            uses: uses(&cards),
        };
        (tally, log)
    }
}

/// The passes of the book of all parties, in order; those of the seats are taken in.
fn split(
    seats: &DeskSeats,
    mut gathering: SeatGathering,
    passes: Vec<DeskPass>,
    tickets: &mut Vec<BookPass>,
) -> SeatGathering
    requires gathering { (gathering.table ≡ seats.now) × (gathering.numbers ≡ []) × (gathering.got ≡ []) }
    requires few { vec_len passes ≤ parties_of seats.now }
    requires own { All (λ s. s.seat.table ≡ seats.now) passes.items }
    requires rest { All Rests passes.items }
    requires empty { tickets.old.items ≡ [] }
    requires room { vec_len passes ≤ vec_capacity tickets.old }
    ensures tickets { tickets.new.items ≡ map (λ s. s.ticket) passes.items }
    ensures table { result.table ≡ seats.now }
    ensures count { length result.numbers ≡ vec_len passes }
    ensures got { length result.got ≡ sum_by (λ s. length s.seat.got) passes.items }
    ensures settled { All IsSettled passes.items }
{
    for pass in passes {
        let (ticket, out) = pass.into_parts();
        tickets.push_reserved(ticket);
        gathering = seats.gather(gathering, out);
    }
    gathering
}

impl DeskPass {
    /// The two passes of a party that has no seat.
    fn into_parts(self) -> (BookPass, SeatOut)
        requires { Rests self }
        ensures same { (result.0 ≡ self.ticket) × (result.1 ≡ self.seat) }
        ensures settled { IsSettled self }
    {
        let DeskPass {
            ticket,
            chair,
            queued: _,
        } = self;
        let Chair::Out(out) = chair else {
            unreachable!()
        };
        (ticket, out)
    }
}

/// The uses of all cards together.
fn uses(cards: &[Card]) -> u64
    ensures { result ≡ sum_by (λ c. c.uses) cards.now % 2 ^ 64 }
{
    let mut all = 0u64;
    for card in cards {
        all = all.wrapping_add(card.uses);
    }
    all
}
