//! What a turn leads to.
ghost use Rattle.std.specs.Prelude.{◌≡◌};
ghost use Rattle.seat_names.specs.Turns as names;
ghost use Rattle.kex_gate.specs.Turns.{guest_in_turn};
ghost use Rattle.desk_seats.specs.Views.{gated_seats, plain_seats};
ghost use Rattle.desk_seats.specs.Turns.{gate_turn, pass_in_turn, plain_turn};

use crate::passes::{EnteringKind, SeatEntering, SeatThrough, ThroughKind};
use kex_gate::{GateTurn, GatedSeats};
use seat_names::{Seats, Turn};

/// Where a party stands that takes its turns.
#[derive(Drop)]
pub enum SeatTurn {
    /// Among the stages: it has to take another turn.
    Again(SeatEntering),
    /// Through all stages of its path.
    Through(SeatThrough),
}

impl SeatTurn {
    /// A turn at seats with no gate.
    pub(crate) fn of_plain(turn: Turn) -> SeatTurn
        ensures { result ≡ plain_turn turn }
    {
        match turn {
            Turn::Again(entering) => SeatTurn::Again(SeatEntering {
                kind: EnteringKind::Plain(entering),
            }),
            Turn::Through(through) => SeatTurn::Through(SeatThrough {
                kind: ThroughKind::Plain(through),
            }),
        }
    }

    /// A turn at seats behind a gate.
    pub(crate) fn of_gated(turn: GateTurn) -> SeatTurn
        ensures { result ≡ gate_turn turn }
    {
        match turn {
            GateTurn::Again(entering) => SeatTurn::Again(SeatEntering {
                kind: EnteringKind::Gated(entering),
            }),
            GateTurn::Through(through) => SeatTurn::Through(SeatThrough {
                kind: ThroughKind::Gated(through),
            }),
        }
    }

    /// The turn of the seats, where there is no gate.
    pub(crate) fn plain(self, seats: &Seats) -> Turn
        requires { (pass_in_turn self).table ≡ plain_seats seats.now }
        ensures own { (names.pass_in_turn result).table ≡ seats.now }
        ensures same { plain_turn result ≡ self }
    {
        match self {
            SeatTurn::Again(entering) => Turn::Again(entering.plain(seats)),
            SeatTurn::Through(through) => Turn::Through(through.plain(seats)),
        }
    }

    /// The turn of the gate, where there is one.
    pub(crate) fn gated(self, gate: &GatedSeats) -> GateTurn
        requires { (pass_in_turn self).table ≡ gated_seats gate.now }
        ensures own { (guest_in_turn result).gate ≡ gate.now }
        ensures same { gate_turn result ≡ self }
    {
        match self {
            SeatTurn::Again(entering) => GateTurn::Again(entering.gated(gate)),
            SeatTurn::Through(through) => GateTurn::Through(through.gated(gate)),
        }
    }
}
