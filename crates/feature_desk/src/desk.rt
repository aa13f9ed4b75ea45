//! A desk, and the entries that are made at it.
ghost use Rattle.std.specs.Prelude.{◌≡◌, ◌≤◌, ℕ, length, min, if◌then◌else◌, List, false};
ghost use Rattle.std.specs.Option.{is_none};
ghost use Rattle.options_machine.specs.declared.reply.Entry.{Entry};
ghost use Rattle.options_machine.specs.Own.{is_of_holding, is_of_queueing};
ghost use Rattle.options_machine.specs.Run.{AsksForSet, IsBelow};
ghost use Rattle.options_machine.specs.Step.{set_asked};
ghost use Rattle.counter.specs.Account.{Enters, Extends, seat_of};
ghost use Rattle.desk_seats.specs.Passes.{held_at};
ghost use Rattle.desk_book.specs.Askers.{Makes};
ghost use Rattle.feature_desk.specs.Sitters.{account_of, IsOf};
ghost use Rattle.feature_desk.specs.Sittings.{state_at, state_of};
ghost use Rattle.stat_board.specs.Fronts.{IsSameBoard};

use crate::passes::{Chair, DeskPass, DeskState, Noted};
use counter::Asked;
use desk_book::{BookPass, DeskBook};
use desk_seats::DeskSeats;
use lic_types::Client;
use options_machine::{Kind, Request};
use stat_board::BoardNote;
use std::marker::Model;
use std::sync::Wait;
use turn_lock::Turns;

/// The desk of a pool, which threads share by reference.
///
/// Contracts see it as a `DeskView`: the lock of its book, with the rule sets as its law, and its seats. It can't be
/// dropped, since its book can't: [`Desk::close`] ends it.
pub struct Desk {
    pub(crate) turns: Turns<DeskBook>,
    pub(crate) seats: DeskSeats,
}

impl Model for Desk {
    ghost use Rattle.feature_desk.specs.Sitters.{DeskView};
    ghost use Rattle.feature_desk.specs.Rooms.{IsDesk};

    ghost Value = { DeskView };

    ghost view = { λ d. record { lock = d.turns; seats = d.seats } };

    ghost invariant = { IsDesk };
}

/// Whether the reply to a request of this kind stands.
pub(crate) fn answers(kind: &Kind) -> bool
    ensures { result ≡ is_none (set_asked kind.now) }
{
    kind.set_asked().is_none()
}

/// The standing answer to a question, after a reply that answers it or does not.
pub(crate) fn standing(answers: bool, now: bool, before: bool) -> bool
    ensures { result ≡ (if answers then now else before) }
{
    if answers { now } else { before }
}

impl Desk {
    /// Makes the entry of a request, at a moment in seconds since 1970-01-01 UTC. It may wait for the desk's lock.
    ///
    /// The entry stands, and the seat is as before.
    pub fn enter_book<R: Wait>(
        &self,
        rt: &R,
        pass: DeskPass,
        kind: Kind,
        client: &Client,
        moment: u64,
    ) -> Noted
        requires of { IsOf pass self.now }
        requires fits { IsBelow (set_asked kind) (length (account_of pass).sets) }
        ensures entry { (before : List Entry) × (e : Entry) × Enters (account_of pass) (account_of result.sitter) kind client.now moment result.asked before e }
        ensures seat { result.sitter.seat ≡ pass.seat }
        ensures board { (pass.ticket.board ≤ result.sitter.ticket.board) × (result.sitter.ticket.board ≤ length result.sitter.ticket.seen) }
        ensures published { (n : ℕ) × (result.sitter.ticket.board ≡ min (length result.sitter.ticket.seen) n) × (pass.ticket.board ≡ min (length pass.ticket.seen) n) }
        ensures known { Extends pass.ticket.known.list result.sitter.ticket.known.list }
        ensures rests { result.entering ≡ false }
        ensures of { IsOf result.sitter self.now }
    {
        let DeskPass {
            mut ticket,
            chair,
            queued,
        } = pass;
        let request = Request {
            party: ticket.number(),
            client: *client,
            kind,
        };
        let asked = self.enter(rt, &mut ticket, &request, moment, chair.is_hold());
        let queued = standing(answers(&kind), asked.reply.is_of_queueing(), queued);
        Noted {
            ticket,
            chair,
            queued,
            asked,
        }
    }

    /// Makes the entry of a request of a party that held a seat before it or did not.
    pub(crate) fn enter<R: Wait>(
        &self,
        rt: &R,
        ticket: &mut BookPass,
        request: &Request,
        moment: u64,
        held: bool,
    ) -> Asked
        requires lock { ticket.old.lock ≡ self.now.lock.id }
        requires party { request.now.party ≡ ticket.old.number }
        requires fits { AsksForSet ticket.old.law.sets request.now }
        ensures same { (ticket.new.lock ≡ ticket.old.lock) × (ticket.new.number ≡ ticket.old.number) × (ticket.new.law ≡ ticket.old.law) }
        ensures makes { (before : List Entry) × Makes ticket.old ticket.new moment result.place before (record { request = request.now; moment = result.moment; reply = result.reply }) }
        ensures held { result.held ≡ (if is_none (set_asked request.now.kind) then is_of_holding result.reply else held) }
        ensures board { (ticket.old.board ≤ ticket.new.board) × (ticket.new.board ≤ length ticket.new.seen) }
        ensures published { (n : ℕ) × (ticket.new.board ≡ min (length ticket.new.seen) n) × (ticket.old.board ≡ min (length ticket.old.seen) n) }
        ensures known { Extends ticket.old.known.list ticket.new.known.list }
    {
        let told = ticket.ask(rt, &self.turns, request, moment);
        Asked {
            reply: told.answer,
            place: told.place,
            moment: told.used,
            held: standing(answers(&request.kind), told.answer.is_of_holding(), held),
        }
    }
}

impl DeskPass {
    /// What the party has at the seats: the seat that its account tells of, exactly while its standing reply is of
    /// holding, and else none.
    pub fn state(&self) -> DeskState
        ensures place { result ≡ state_at self.now.seat.place }
        ensures seat { result ≡ state_of (seat_of (account_of self.now)) }
    {
        self.chair.state()
    }

    /// What this party knows of the desk's board, for other parties of the desk: at least what the board showed at its
    /// last call.
    pub fn note(&self) -> BoardNote
        ensures known { result ≡ self.now.ticket.known }
        ensures board { self.now.ticket.board ≤ length result.list }
        ensures same { IsSameBoard self.now.ticket.law.board result }
    {
        self.ticket.note()
    }

    /// Takes in what another party of the desk knows of its board.
    pub fn hear(&mut self, note: &BoardNote)
        requires { IsSameBoard self.old.ticket.law.board note.now }
        ensures since { Extends self.old.ticket.known.list self.new.ticket.known.list }
        ensures heard { Extends note.now.list self.new.ticket.known.list }
        ensures same { self.new ≡ record self.old { ticket = record self.old.ticket { known = self.new.ticket.known } } }
    {
        self.ticket.hear(note);
    }
}

impl Noted {
    /// What was asked and answered.
    pub fn asked(&self) -> Asked
        ensures { result ≡ self.now.asked }
    {
        self.asked
    }

    /// The seat that is held: None exactly without one.
    pub fn seat(&self) -> Option<u32>
        ensures { result ≡ held_at self.now.sitter.seat.place }
    {
        match &self.chair {
            Chair::Hold(hold) => Some(hold.seat()),
            Chair::Out(_) => None,
            Chair::Entering(entering) => entering.seat(),
        }
    }
}
