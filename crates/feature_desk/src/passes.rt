//! The passes of a desk.
ghost use Rattle.std.specs.Prelude.{◌≡◌, []};

use counter::Asked;
use desk_book::BookPass;
use desk_seats::{SeatEntering, SeatHold, SeatOut};
use std::marker::Model;

/// Where a party is at the seats.
#[derive(Drop)]
pub(crate) enum Chair {
    // At none.
    Out(SeatOut),
    // It holds one.
    Hold(SeatHold),
    // On its way to one.
    Entering(SeatEntering),
}

/// A party's pass of a desk, with the party's seat where it has one. One thread at a time has it.
///
/// Contracts see it as a `Sitter`: its pass of the desk's book, and its pass of the seats.
#[derive(Drop)]
pub struct DeskPass {
    pub(crate) ticket: BookPass,
    pub(crate) chair: Chair,
    // Whether the standing reply is of queueing.
    pub(crate) queued: bool,
}

impl Model for DeskPass {
    ghost use Rattle.feature_desk.specs.Sitters.{Sitter};
    ghost use Rattle.feature_desk.specs.Sittings.{pass_in, Agree};

    ghost Value = { Sitter };

    ghost view = { λ p. record { ticket = p.ticket; seat = pass_in p.chair } };

    ghost invariant = { λ p. Agree p.ticket p.chair p.queued };
}

impl DeskPass {
    /// The pass of a party that has asked nothing yet.
    pub(crate) fn of(ticket: BookPass, out: SeatOut) -> DeskPass
        requires { (out.number ≡ ticket.number) × (ticket.mine ≡ []) × (out.got ≡ []) }
        ensures { result ≡ record { ticket = ticket; seat = out } }
    {
        DeskPass {
            ticket,
            chair: Chair::Out(out),
            queued: false,
        }
    }
}

/// A party's pass after an entry. The entry stands, and the seat is as it was before, or on its way.
///
/// Contracts see it as a `NotedView`.
#[derive(Drop)]
pub struct Noted {
    pub(crate) ticket: BookPass,
    pub(crate) chair: Chair,
    pub(crate) queued: bool,
    pub(crate) asked: Asked,
}

impl Model for Noted {
    ghost use Rattle.feature_desk.specs.Sitters.{NotedView};
    ghost use Rattle.feature_desk.specs.Sittings.{pass_in, is_entering, Waits};

    ghost Value = { NotedView };

    ghost view = { λ n. record { sitter = record { ticket = n.ticket; seat = pass_in n.chair }; asked = n.asked; entering = is_entering n.chair } };

    ghost invariant = { λ n. Waits n.ticket n.chair n.queued n.asked };
}

/// What one step towards a seat leads to.
#[derive(Drop)]
pub enum Seating {
    /// The party is on its way, and has to take another step.
    Again(Noted),
    /// The seat agrees with the entry.
    Matched(DeskPass, Asked),
}

/// What a party has at the seats.
#[derive(Clone, Copy, Debug, PartialEq, Eq)]
pub enum DeskState {
    /// No seat.
    Out,
    /// The seat of this number.
    Hold(u32),
}

impl Chair {
    ghost use Rattle.std.specs.Prelude.{false};
    ghost use Rattle.feature_desk.specs.Sittings.{is_entering, is_hold, pass_in, state_at, Sits};

    /// Whether a seat is held.
    pub(crate) fn is_hold(&self) -> bool
        ensures { result ≡ is_hold self.now }
    {
        matches!(self, Chair::Hold(_))
    }

    /// What is held.
    pub(crate) fn state(&self) -> DeskState
        requires sits { Sits self.now }
        requires rests { is_entering self.now ≡ false }
        ensures { result ≡ state_at (pass_in self.now).place }
    {
        match self {
            Chair::Out(_) => DeskState::Out,
            Chair::Hold(hold) => DeskState::Hold(hold.seat()),
            Chair::Entering(_) => unreachable!(),
        }
    }
}
