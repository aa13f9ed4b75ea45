//! The passes of a desk's seats, of one type for each kind of spot.
//!
//! None can be copied. Contracts see a pass as a `SeatPass`: the `table` of the seats that it is of, its party's
//! `number` and `place`, and `got`, the numbers that the party took, in order; behind a gate also the `lane` that it is
//! on.
ghost use Rattle.std.specs.Prelude.{◌≡◌, ◌<◌};
ghost use Rattle.kex_core.specs.declared.place.Place.TheVariants.{Holding};
ghost use Rattle.seat_names.specs.Turns.{pass_in_through};
ghost use Rattle.desk_seats.specs.Views.{gated_seats, plain_seats};
ghost use Rattle.desk_seats.specs.Passes.{gate_held, guest_pass, held_at, plain_held, plain_pass, way_pass, way_through};

use kex_gate::{GateEntering, GateHold, GateOut, GateThrough, GatedSeats};
use kex_words::{Entering, Hold, Out};
use seat_names::{Seats, Through};
use std::marker::Model;

/// The pass of each kind of seats.
#[derive(Drop)]
pub(crate) enum OutKind {
    Plain(Out),
    Gated(GateOut),
}

/// The pass of a party that has no seat.
#[derive(Drop)]
pub struct SeatOut {
    pub(crate) kind: OutKind,
}

impl Model for SeatOut {
    ghost use Rattle.desk_seats.specs.Passes.{SeatPass};
    ghost use Rattle.desk_seats.specs.Kinds.{out_in};

    ghost Value = { SeatPass };

    ghost view = { λ o. out_in o.kind };
}

/// The pass of each kind of seats.
#[derive(Drop)]
pub(crate) enum EnteringKind {
    Plain(Entering),
    Gated(GateEntering),
}

/// The pass of a party among the stages.
#[derive(Drop)]
pub struct SeatEntering {
    pub(crate) kind: EnteringKind,
}

impl Model for SeatEntering {
    ghost use Rattle.desk_seats.specs.Passes.{SeatPass};
    ghost use Rattle.desk_seats.specs.Kinds.{entering_in};

    ghost Value = { SeatPass };

    ghost view = { λ e. entering_in e.kind };
}

/// The pass of each kind of seats.
#[derive(Drop)]
pub(crate) enum ThroughKind {
    Plain(Through),
    Gated(GateThrough),
}

/// The pass of a party that is through the stages, and has no card yet.
#[derive(Drop)]
pub struct SeatThrough {
    pub(crate) kind: ThroughKind,
}

impl Model for SeatThrough {
    ghost use Rattle.desk_seats.specs.Passes.{SeatPass};
    ghost use Rattle.desk_seats.specs.Kinds.{through_in};

    ghost Value = { SeatPass };

    ghost view = { λ t. through_in t.kind };
}

/// The pass of each kind of seats.
#[derive(Drop)]
pub(crate) enum HoldKind {
    Plain(Hold),
    Gated(GateHold),
}

/// The pass of a party that holds a seat. It owns the seat's card.
///
/// Contracts see it as a `SeatHeld`: the `pass` and the `card`.
#[derive(Drop)]
pub struct SeatHold {
    pub(crate) kind: HoldKind,
}

impl Model for SeatHold {
    ghost use Rattle.desk_seats.specs.Passes.{SeatHeld, IsLow};
    ghost use Rattle.desk_seats.specs.Kinds.{held_in};

    ghost Value = { SeatHeld };

    ghost view = { λ h. held_in h.kind };

    ghost invariant = { λ h. IsLow (held_in h.kind) };
}

impl SeatOut {
    /// The number of the party: pass i of the making has the number i.
    pub fn number(&self) -> u32
        ensures { result ≡ self.now.number }
    {
        match &self.kind {
            OutKind::Plain(out) => out.number(),
            OutKind::Gated(out) => out.number(),
        }
    }

    /// The pass of the seats, where there is no gate.
    pub(crate) fn plain(self, seats: &Seats) -> Out
        requires { self.table ≡ plain_seats seats.now }
        ensures own { result.table ≡ seats.now }
        ensures same { plain_pass result ≡ self }
    {
        let _ = seats;
        let SeatOut { kind } = self;
        let OutKind::Plain(out) = kind else {
            unreachable!()
        };
        out
    }

    /// The pass of the gate, where there is one.
    pub(crate) fn gated(self, gate: &GatedSeats) -> GateOut
        requires { self.table ≡ gated_seats gate.now }
        ensures own { result.gate ≡ gate.now }
        ensures same { guest_pass result ≡ self }
    {
        let _ = gate;
        let SeatOut { kind } = self;
        let OutKind::Gated(out) = kind else {
            unreachable!()
        };
        out
    }
}

impl SeatEntering {
    /// The seat that is held: None, since whoever is on its way holds none.
    pub fn seat(&self) -> Option<u32>
        ensures { result ≡ held_at self.now.place }
    {
        if let EnteringKind::Plain(entering) = &self.kind {
            let _place = entering.place();
        }
        None
    }

    /// The pass of the seats, where there is no gate.
    pub(crate) fn plain(self, seats: &Seats) -> Entering
        requires { self.table ≡ plain_seats seats.now }
        ensures own { result.table ≡ seats.now }
        ensures same { plain_pass result ≡ self }
    {
        let _ = seats;
        let SeatEntering { kind } = self;
        let EnteringKind::Plain(entering) = kind else {
            unreachable!()
        };
        entering
    }

    /// The pass of the gate, where there is one.
    pub(crate) fn gated(self, gate: &GatedSeats) -> GateEntering
        requires { self.table ≡ gated_seats gate.now }
        ensures own { result.guest.gate ≡ gate.now }
        ensures same { way_pass result ≡ self }
    {
        let _ = gate;
        let SeatEntering { kind } = self;
        let EnteringKind::Gated(entering) = kind else {
            unreachable!()
        };
        entering
    }
}

impl SeatThrough {
    /// The pass of the seats, where there is no gate.
    pub(crate) fn plain(self, seats: &Seats) -> Through
        requires { self.table ≡ plain_seats seats.now }
        ensures own { (pass_in_through result).table ≡ seats.now }
        ensures same { plain_pass (pass_in_through result) ≡ self }
    {
        let _ = seats;
        let SeatThrough { kind } = self;
        let ThroughKind::Plain(through) = kind else {
            unreachable!()
        };
        through
    }

    /// The pass of the gate, where there is one.
    pub(crate) fn gated(self, gate: &GatedSeats) -> GateThrough
        requires { self.table ≡ gated_seats gate.now }
        ensures own { result.guest.gate ≡ gate.now }
        ensures same { way_pass (way_through result) ≡ self }
    {
        let _ = gate;
        let SeatThrough { kind } = self;
        let ThroughKind::Gated(through) = kind else {
            unreachable!()
        };
        through
    }
}

impl SeatHold {
    /// The number of the party.
    pub fn number(&self) -> u32
        ensures { result ≡ self.now.pass.number }
    {
        match &self.kind {
            HoldKind::Plain(hold) => hold.number(),
            HoldKind::Gated(hold) => hold.number(),
        }
    }

    /// The number of the seat that is held: that of its card.
    pub fn seat(&self) -> u32
        ensures card { result ≡ self.now.card.number }
        ensures place { self.now.pass.place ≡ Holding result }
        ensures low { result < self.now.pass.table.net.width }
    {
        match &self.kind {
            HoldKind::Plain(hold) => hold.seat(),
            HoldKind::Gated(hold) => hold.seat(),
        }
    }

    /// The pass of the seats, where there is no gate.
    pub(crate) fn plain(self, seats: &Seats) -> Hold
        requires { self.pass.table ≡ plain_seats seats.now }
        ensures own { result.pass.table ≡ seats.now }
        ensures same { plain_held result ≡ self }
    {
        let _ = seats;
        let SeatHold { kind } = self;
        let HoldKind::Plain(hold) = kind else {
            unreachable!()
        };
        hold
    }

    /// The pass of the gate, where there is one.
    pub(crate) fn gated(self, gate: &GatedSeats) -> GateHold
        requires { self.pass.table ≡ gated_seats gate.now }
        ensures own { result.guest.gate ≡ gate.now }
        ensures same { gate_held result ≡ self }
    {
        let _ = gate;
        let SeatHold { kind } = self;
        let HoldKind::Gated(hold) = kind else {
            unreachable!()
        };
        hold
    }
}
