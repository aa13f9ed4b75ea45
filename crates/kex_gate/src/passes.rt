//! The passes of a gate, of one type for each kind of spot.
//!
//! None can be copied, and only the calls of a [`GatedSeats`](crate::GatedSeats) make them. Contracts see the session
//! of a pass as a `Guest`: its `gate`, its `number` and the seats that it had, `visits`, in order, each with the way
//! that it came. Of one that has entered they see whether it came by the `fast` way, how many others it `met` that were
//! not Free when it took its place, and the pass of the seats that it uses.
ghost use Rattle.std.specs.Prelude.{◌≡◌, ◌<◌, [], ◌∷◌};
ghost use Rattle.seat_names.specs.Turns.{pass_in_turn};
ghost use Rattle.kex_gate.specs.Passes.{IsPassFor};
ghost use Rattle.kex_gate.specs.Steps.{GoesOn};
ghost use Rattle.kex_gate.specs.Turns.{turn_in, guest_in_turn, fast_in_turn, met_in_turn};

use crate::gate::GateSeat;
use kex_words::{Entering, Hold, Out};
use seat_names::{Through, Turn};
use std::marker::Model;

/// The pass of a session that is Free. Contracts see it as its `Guest`.
#[derive(Drop)]
pub struct GateOut {
    pub(crate) own: Out,
    pub(crate) seat: GateSeat,
}

impl Model for GateOut {
    ghost use Rattle.kex_gate.specs.Passes.{Guest};
    ghost use Rattle.kex_gate.specs.Steps.{guest_of, IsIdle};

    ghost Value = { Guest };

    ghost view = { λ o. guest_of o.seat.table_id o.seat.me.0 };

    ghost invariant = { λ o. IsIdle o.own (guest_of o.seat.table_id o.seat.me.0) o.seat.me };
}

/// What a session keeps while it uses a pass: its place at the gate, and its own pass where it came by the fast way.
/// Contracts see it as the way that it came, with the pass as it was.
#[derive(Drop)]
pub(crate) struct Lane {
    pub own: Option<Out>,
    pub seat: GateSeat,
}

impl Model for Lane {
    ghost use Rattle.kex_gate.specs.Passes.{Way};
    ghost use Rattle.kex_gate.specs.Steps.{guest_of, way_of, IsLane};

    ghost Value = { Way };

    ghost view = { λ l. way_of l.seat.table_id l.seat.me.0 };

    ghost invariant = { λ l. IsLane l.own (guest_of l.seat.table_id l.seat.me.0) l.seat.me };
}

impl Lane {
    /// Which pass the session came with.
    pub(crate) fn tells(&self)
        ensures { IsPassFor self.now.guest self.now.fast self.now.pass }
    {
        let _ = &self.seat;
    }
}

/// The pass of a session among the stages.
#[derive(Drop)]
pub struct GateEntering {
    pub(crate) entering: Entering,
    pub(crate) lane: Lane,
}

impl Model for GateEntering {
    ghost use Rattle.std.specs.Prelude.{[]};
    ghost use Rattle.kex_gate.specs.Passes.{Way};
    ghost use Rattle.kex_gate.specs.Steps.{GoesOn};

    ghost Value = { Way };

    ghost view = { λ e. record { guest = e.lane.guest; fast = e.lane.fast; met = e.lane.met; pass = e.entering } };

    ghost invariant = { λ e. GoesOn e.lane.pass e.entering [] };
}

/// The pass of a session that is through the stages, and has no card yet.
#[derive(Drop)]
pub struct GateThrough {
    pub(crate) through: Through,
    pub(crate) lane: Lane,
}

impl Model for GateThrough {
    ghost use Rattle.std.specs.Prelude.{[]};
    ghost use Rattle.seat_names.specs.Turns.{pass_in_through};
    ghost use Rattle.kex_gate.specs.Passes.{WayThrough};
    ghost use Rattle.kex_gate.specs.Steps.{GoesOn};

    ghost Value = { WayThrough };

    ghost view = { λ t. record { guest = t.lane.guest; fast = t.lane.fast; met = t.lane.met; through = t.through } };

    ghost invariant = { λ t. GoesOn t.lane.pass (pass_in_through t.through) [] };
}

/// The pass of a session that holds a seat. It owns a [`Hold`] of the seats, and with it the seat's card.
///
/// Contracts see it as a `GateHeld`: the session, the way that it came, how many others it met, and the hold. So what
/// is said of the holds of one table is said of it, word for word.
#[derive(Drop)]
pub struct GateHold {
    pub(crate) hold: Hold,
    pub(crate) lane: Lane,
}

impl Model for GateHold {
    ghost use Rattle.std.specs.Prelude.{[], ◌∷◌};
    ghost use Rattle.kex_gate.specs.Passes.{GateHeld};
    ghost use Rattle.kex_gate.specs.Steps.{GoesOn};

    ghost Value = { GateHeld };

    ghost view = { λ h. record { guest = h.lane.guest; fast = h.lane.fast; met = h.lane.met; held = h.hold } };

    ghost invariant = { λ h. GoesOn h.lane.pass h.hold.pass (h.hold.card.number ∷ []) };
}

/// Where a session stands that takes its turns.
#[derive(Drop)]
pub enum GateTurn {
    /// Among the stages: it has to take another turn.
    Again(GateEntering),
    /// Through all stages of its path.
    Through(GateThrough),
}

impl GateHold {
    /// The number of the seat that is held: that of its card.
    pub fn seat(&self) -> u32
        ensures card { result ≡ self.now.held.card.number }
        ensures low { result < self.now.held.pass.table.net.width }
    {
        self.hold.seat()
    }

    /// How often the seat's card was taken out, this time among them, modulo 2^64.
    pub fn uses(&self) -> u64
        ensures { result ≡ self.now.held.card.uses }
    {
        self.hold.uses()
    }

    /// The number of the session.
    pub fn number(&self) -> u32
        ensures { result ≡ self.now.guest.number }
    {
        match &self.lane.own {
            Some(own) => own.number(),
            None => self.hold.number(),
        }
    }

    /// Whether the session came by the fast way.
    pub fn fast(&self) -> bool
        ensures { result ≡ self.now.fast }
    {
        self.lane.own.is_some()
    }
}

impl GateOut {
    /// The number of the session: pass i of `make` has the number i.
    pub fn number(&self) -> u32
        ensures { result ≡ self.now.number }
    {
        self.own.number()
    }
}

impl GateTurn {
    /// A turn of the seats by a session on this lane.
    pub(crate) fn of(turn: Turn, lane: Lane) -> GateTurn
        requires on { GoesOn lane.pass (pass_in_turn turn) [] }
        ensures lane { (guest_in_turn result ≡ lane.guest) × (fast_in_turn result ≡ lane.fast) × (met_in_turn result ≡ lane.met) }
        ensures turn { turn_in result ≡ turn }
    {
        match turn {
            Turn::Again(entering) => GateTurn::Again(GateEntering { entering, lane }),
            Turn::Through(through) => GateTurn::Through(GateThrough { through, lane }),
        }
    }
}
