//! What a party asks a desk's book with.
ghost use Rattle.std.specs.Prelude.{◌≡◌, ◌≤◌, ℕ, [], List, length, min, take};
ghost use Rattle.counter.specs.Account.{Extends};
ghost use Rattle.counter.specs.Glances.{glance_of};
ghost use Rattle.options_machine.specs.declared.reply.Entry.{Entry};
ghost use Rattle.options_machine.specs.Run.{AsksForSet};
ghost use Rattle.stat_board.specs.Fronts.{IsSameBoard};
ghost use Rattle.desk_book.specs.Askers.{Makes, asker_of};
ghost use Rattle.desk_book.specs.Standing.{Runs};

use crate::book::{DeskBook, NotedReply};
use counter::Glance;
use options_machine::{Reply, Request};
use stat_board::{BoardNote, BoardPass};
use std::marker::Model;
use std::sync::Wait;
use turn_lock::{Answered, TurnPass, Turns};

/// What a party asks a desk's book with, and sees its board. One thread at a time has it.
///
/// Contracts see it as an `Asker`: of which lock, its `number`, the book's `law`, the history that it has `seen`, the
/// entries of it that are its own as `mine`, how many entries the `board` showed at its last call, and what is `known`
/// of the board.
#[derive(Drop)]
pub struct BookPass {
    ticket: TurnPass<DeskBook>,
    board: u64,
    view: BoardPass,
}

impl Model for BookPass {
    ghost use Rattle.desk_book.specs.Askers.{Asker, IsInformed, asker_of};

    ghost Value = { Asker };

    ghost view = { λ p. asker_of p.ticket p.board p.view };

    ghost invariant = { λ p. IsInformed p.ticket p.board p.view };
}

impl BookPass {
    /// The pass of a party that has made no call.
    pub(crate) fn of(ticket: TurnPass<DeskBook>, view: BoardPass) -> BookPass
        requires whole { ticket.law.parties ≡ ticket.lock.parties }
        requires fresh { (ticket.seen ≡ []) × (ticket.mine ≡ []) }
        requires opens { Runs ticket.law [] }
        requires view { view ≡ ticket.law.board }
        ensures { result ≡ asker_of ticket 0 view }
    {
        BookPass {
            ticket,
            board: 0,
            view,
        }
    }

    /// The pass of the lock alone.
    pub(crate) fn into_ticket(self) -> TurnPass<DeskBook>
        ensures { asker_of result self.board self.known ≡ self }
    {
        let BookPass {
            ticket,
            board: _,
            view: _view,
        } = self;
        ticket
    }

    /// The number of the party, which is below the number of the book's parties.
    pub fn number(&self) -> u32
        ensures { result ≡ self.now.number }
    {
        self.ticket.number()
    }

    /// Makes the entry of a request in the caller's turn, at a moment in seconds since 1970-01-01 UTC. It may wait
    /// forever.
    ///
    /// The answer is the entry's: its reply, the moment that it used, and how many entries came before it, modulo 2^64.
    pub fn ask<R: Wait>(
        &mut self,
        rt: &R,
        turns: &Turns<DeskBook>,
        request: &Request,
        moment: u64,
    ) -> Answered<Reply>
        requires lock { self.old.lock ≡ turns.now.id }
        requires party { request.now.party ≡ self.old.number }
        requires set { AsksForSet self.old.law.sets request.now }
        ensures same { (self.new.lock ≡ self.old.lock) × (self.new.number ≡ self.old.number) × (self.new.law ≡ self.old.law) }
        ensures makes { (before : List Entry) × Makes self.old self.new moment result.place before (record { request = request.now; moment = result.used; reply = result.answer }) }

        // What was on the board stays there, and it shows all of the history, or, once it has ended, what it showed then.
        ensures board { (self.old.board ≤ self.new.board) × (self.new.board ≤ length self.new.seen) }
        ensures published { (n : ℕ) × (self.new.board ≡ min (length self.new.seen) n) × (self.old.board ≡ min (length self.old.seen) n) }
        ensures known { Extends self.old.known.list self.new.known.list }
    {
        let _inside = self.ticket.number();
        let Answered {
            answer,
            place,
            used,
        } = turns.ask(rt, &mut self.ticket, request, moment);
        let NotedReply { reply, note } = answer;
        self.view.hear(&note);
        self.board = note.front();
        Answered {
            answer: reply,
            place,
            used,
        }
    }

    /// How many entries of the history, from its beginning, the board showed at the last call.
    pub fn board(&self) -> u64
        ensures { result ≡ self.now.board }
    {
        self.board
    }

    /// Reads the board. It waits for nobody, takes no memory and makes no entry.
    ///
    /// The answer shows the desk after a list that begins with all that was shown and heard before, and with all
    /// entries that the board showed at the last call.
    pub fn glance(&mut self) -> Glance
        ensures shows { result ≡ glance_of self.new.law.sets self.new.known.list }
        ensures since { Extends self.old.known.list self.new.known.list }
        ensures fresh { Extends (take self.new.board self.new.seen) self.new.known.list }
        ensures same { self.new ≡ record self.old { known = self.new.known } }
    {
        self.view.glance()
    }

    /// What this party knows of the board, for other parties of the desk: at least what the board showed at its last
    /// call.
    pub fn note(&self) -> BoardNote
        ensures known { result ≡ self.now.known }
        ensures board { self.now.board ≤ length result.list }
        ensures same { IsSameBoard self.now.law.board result }
    {
        self.view.note()
    }

    /// Takes in what another party of the desk knows of the board.
    pub fn hear(&mut self, note: &BoardNote)
        requires { IsSameBoard self.old.law.board note.now }
        ensures since { Extends self.old.known.list self.new.known.list }
        ensures heard { Extends note.now.list self.new.known.list }
        ensures same { self.new ≡ record self.old { known = self.new.known } }
    {
        self.view.hear(note);
    }
}
