//! The seats and their calls.
ghost use Rattle.std.specs.Prelude.{◌≡◌, ◌<◌, [], ◌∷◌, ◌++◌};
ghost use Rattle.kex_core.specs.declared.place.Place.TheVariants.{Holding};
ghost use Rattle.desk_seats.specs.Passes.{IsOut};
ghost use Rattle.desk_seats.specs.Turns.{pass_in_turn, Begins, Enters, Goes, Leaves, Turned};

use crate::passes::{HoldKind, OutKind, SeatEntering, SeatHold, SeatOut, SeatThrough};
use crate::turns::SeatTurn;
use crate::waiting::go_through;
use kex_gate::GatedSeats;
use seat_names::Seats;
use std::marker::Model;
use std::sync::Wait;

/// The seats of each kind.
#[derive(Drop)]
pub(crate) enum SeatsKind {
    Plain(Seats),
    Gated(GatedSeats),
}

/// The seats of a desk, with a gate before them or without. Threads share them by reference.
///
/// Contracts see them as a `SeatsView`: their `id` tells them from others, `net` is their net, and `gate` tells the
/// gate before them from others, where there is one. Each call that takes a pass has the condition that the pass is of
/// these seats. No call but `go_on` waits, and none but the making takes memory.
#[derive(Drop)]
pub struct DeskSeats {
    pub(crate) kind: SeatsKind,
}

impl Model for DeskSeats {
    ghost use Rattle.desk_seats.specs.Views.{SeatsView};
    ghost use Rattle.desk_seats.specs.Kinds.{seats_in};

    ghost Value = { SeatsView };

    ghost view = { λ s. seats_in s.kind };
}

impl DeskSeats {
    /// A party begins to enter. Behind a gate it takes its place there, and gets the pass that it is to use; with no
    /// gate it makes no access.
    ///
    /// It is through exactly where the pass that it uses starts at Exit. Else its first access to a stage comes with
    /// [`turn`](DeskSeats::turn).
    pub fn begin(&self, out: SeatOut) -> SeatTurn
        requires own { out.table ≡ self.now }
        ensures begins { Begins out result }
        ensures goes { Goes out (pass_in_turn result) }
        ensures got { (pass_in_turn result).got ≡ out.got }
    {
        match &self.kind {
            SeatsKind::Plain(seats) => SeatTurn::of_plain(seats.begin(out.plain(seats))),
            SeatsKind::Gated(gate) => SeatTurn::of_gated(gate.begin(out.gated(gate))),
        }
    }

    /// One turn of a party among the stages: the one access that is due.
    ///
    /// Again comes exactly where this access read the spin word and found the number of the pass, or was Dec with old
    /// 0, Mark, or Look with the counter below 0, or passed a stage whose next isn't Exit.
    pub fn turn(&self, e: SeatEntering) -> SeatTurn
        requires own { e.table ≡ self.now }
        ensures turned { Turned e result }
        ensures goes { Goes e (pass_in_turn result) }
        ensures got { (pass_in_turn result).got ≡ e.got }
    {
        match &self.kind {
            SeatsKind::Plain(seats) => SeatTurn::of_plain(seats.turn(e.plain(seats))),
            SeatsKind::Gated(gate) => SeatTurn::of_gated(gate.turn(e.gated(gate))),
        }
    }

    /// Gives a party that is through the stages its number and the seat's card.
    pub fn name(&self, t: SeatThrough) -> SeatHold
        requires own { t.table ≡ self.now }
        ensures place { result.pass.place ≡ Holding result.card.number }
        ensures low { result.card.number < self.now.net.width }
        ensures got { result.pass.got ≡ t.got ++ result.card.number ∷ [] }
        ensures goes { Goes t result.pass }
        ensures enters { Enters t result }
    {
        match &self.kind {
            SeatsKind::Plain(seats) => SeatHold {
                kind: HoldKind::Plain(seats.name(t.plain(seats))),
            },
            SeatsKind::Gated(gate) => SeatHold {
                kind: HoldKind::Gated(gate.name(t.gated(gate))),
            },
        }
    }

    /// Goes on from a turn at any step: takes turns until the party is through, and then its seat.
    ///
    /// It may wait forever. While it waits it spins a little, then lets other threads run, and then sleeps between its
    /// turns, for a millisecond at most.
    pub fn go_on<R: Wait>(&self, rt: &R, turn: SeatTurn) -> SeatHold
        requires own { (pass_in_turn turn).table ≡ self.now }
        ensures place { result.pass.place ≡ Holding result.card.number }
        ensures low { result.card.number < self.now.net.width }
        ensures got { result.pass.got ≡ (pass_in_turn turn).got ++ result.card.number ∷ [] }
        ensures goes { Goes (pass_in_turn turn) result.pass }
        ensures enters { Enters (pass_in_turn turn) result }
    {
        match &self.kind {
            SeatsKind::Plain(seats) => SeatHold {
                kind: HoldKind::Plain(seats.go_on(rt, turn.plain(seats))),
            },
            SeatsKind::Gated(gate) => SeatHold {
                kind: HoldKind::Gated(go_through(rt, gate, turn.gated(gate))),
            },
        }
    }

    /// Leaves: gives the seat back, and behind a gate then the pass that the party used, and its place there.
    pub fn leave(&self, hold: SeatHold) -> SeatOut
        requires own { hold.pass.table ≡ self.now }
        ensures out { IsOut result }
        ensures got { result.got ≡ hold.pass.got }
        ensures goes { Goes hold.pass result }
        ensures leaves { Leaves hold result }
    {
        match &self.kind {
            SeatsKind::Plain(seats) => SeatOut {
                kind: OutKind::Plain(seats.leave(hold.plain(seats))),
            },
            SeatsKind::Gated(gate) => SeatOut {
                kind: OutKind::Gated(gate.leave(hold.gated(gate))),
            },
        }
    }
}
