//! Passes that are taken in, one after another, for the close.
ghost use Rattle.std.specs.Prelude.{◌≡◌, ◌<◌, ◌∷◌, ◌++◌, length};
ghost use Rattle.desk_seats.specs.Views.{parties_of};

use crate::passes::SeatOut;
use crate::seats::{DeskSeats, SeatsKind};
use kex_gate::{GateOut, GatedSeats};
use kex_words::{Gathering, Out};
use seat_names::Seats;
use std::marker::Model;
use std::snapshot::Snapshot;

/// The passes of each kind of seats.
#[derive(Drop)]
pub(crate) enum Gathered {
    // Seats with no gate, none of whose passes was taken in yet.
    Nothing,
    Plain(Gathering),
    // They have room for all.
    Gated(Vec<GateOut>),
}

/// Passes of a desk's seats that were taken in one after another, for the close.
///
/// Contracts see them as a `SeatsTaken`: the `table` of the seats that they are of, their `numbers`, the last first,
/// and `got`, the numbers that they took.
#[derive(Drop)]
pub struct SeatGathering {
    pub(crate) about: Snapshot<DeskSeats>,
    pub(crate) kind: Gathered,
}

impl Model for SeatGathering {
    ghost use Rattle.desk_seats.specs.Taken.{got_in, numbers_in, AreTaken, SeatsTaken};

    ghost Value = { SeatsTaken };

    ghost view = { λ g. record { table = g.about.value; numbers = numbers_in g.kind; got = got_in g.kind } };

    ghost invariant = { λ g. AreTaken g.about.value g.kind };
}

impl DeskSeats {
    /// Takes one more pass in, for the close. It takes no memory and waits for nobody.
    pub fn gather(&self, gathering: SeatGathering, out: SeatOut) -> SeatGathering
        requires gathering { gathering.table ≡ self.now }
        requires own { out.table ≡ self.now }
        requires room { length gathering.numbers < parties_of self.now }
        ensures table { result.table ≡ self.now }
        ensures numbers { result.numbers ≡ out.number ∷ gathering.numbers }
        ensures got { result.got ≡ gathering.got ++ out.got }
    {
        let SeatGathering { about, kind } = gathering;
        let kind = match &self.kind {
            SeatsKind::Plain(seats) => kind.with_plain(seats, out.plain(seats)),
            SeatsKind::Gated(gate) => kind.with_gated(gate, out.gated(gate)),
        };
        SeatGathering { about, kind }
    }
}

impl Gathered {
    ghost use Rattle.std.specs.Prelude.{◌≡◌, ◌<◌, ◌∷◌, ◌++◌, length};
    ghost use Rattle.kex_gate.specs.Passes.{seats_of};
    ghost use Rattle.desk_seats.specs.Views.{gated_seats, parties_of, plain_seats};
    ghost use Rattle.desk_seats.specs.Taken.{got_in, numbers_in, AreTaken};

    /// With one more pass, where there is no gate.
    fn with_plain(self, seats: &Seats, out: Out) -> Gathered
        requires own { out.table ≡ seats.now }
        requires taken { AreTaken (plain_seats seats.now) self }
        ensures taken { AreTaken (plain_seats seats.now) result }
        ensures numbers { numbers_in result ≡ out.number ∷ numbers_in self }
        ensures got { got_in result ≡ got_in self ++ out.got }
    {
        match self {
            Gathered::Nothing => Gathered::Plain(Gathering::of(out)),
            Gathered::Plain(gathering) => Gathered::Plain(seats.gather(gathering, out)),
            Gathered::Gated(_) => unreachable!(),
        }
    }

    /// With one more pass, where there is a gate.
    fn with_gated(self, gate: &GatedSeats, out: GateOut) -> Gathered
        requires own { out.gate ≡ gate.now }
        requires taken { AreTaken (gated_seats gate.now) self }
        requires room { length (numbers_in self) < parties_of (gated_seats gate.now) }
        ensures taken { AreTaken (gated_seats gate.now) result }
        ensures numbers { numbers_in result ≡ out.number ∷ numbers_in self }
        ensures got { got_in result ≡ got_in self ++ seats_of out.visits }
    {
        let _ = gate;
        let Gathered::Gated(mut passes) = self else {
            unreachable!()
        };
        passes.push_reserved(out);
        Gathered::Gated(passes)
    }
}
