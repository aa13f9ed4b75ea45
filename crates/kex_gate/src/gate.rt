//! The gate's table of words and slots, its rule, and the kinds of step.
ghost use Rattle.std.specs.Prelude.{◌≡◌, ◌≤◌};
ghost use Rattle.kex_core.specs.declared.limits.TheConstants.{PARTY_LIMIT};
ghost use Rattle.kex_gate.specs.Passes as passes;

use crate::view::View;
use atomic_table::{Join, Play, Seat, Split, Table, TableRule};
use kex_words::Out;
use seat_names::Seats;
use std::alloc::Global;
use std::marker::{Brand, PhantomData};
use std::snapshot::Snapshot;

/// The word that is read where a view is cut or joined, and where a pass leaves its slot or goes home. It is never
/// written.
pub(crate) const STILL: usize = 0;

/// The word that counts down as sessions come: [`FULL`] and the number of seats, less those that are not Free.
pub(crate) const ROOM: usize = 1;

/// What is left in the count of room, or less, once as many sessions came as there are seats. There are never so many
/// sessions that it falls below 0.
pub(crate) const FULL: u64 = 256;

/// The word of bit i: 1 where the number i is a session's, and else 0.
pub(crate) fn bit_word(i: u32) -> usize
    requires { i ≤ PARTY_LIMIT }
    ensures { result ≡ passes.bit_word i }
{
    i as usize + 2
}

/// The rule of the gate's table.
pub(crate) struct Gated;

impl TableRule<Option<Out>, View, Snapshot<Seats>> for Gated {
    ghost use Rattle.kex_gate.specs.Rule.{IsGate};
    ghost use Rattle.kex_gate.specs.Steps.{maker};

    ghost holds = { λ key. IsGate key.value };

    ghost first = { λ key. maker key.value 0 };
}

/// The words, and a slot for each pass of the gate.
pub(crate) type GateTable = Table<Option<Out>, View, Snapshot<Seats>, Gated, Global>;

/// A seat at the gate's table.
pub(crate) type GateSeat = Seat<Option<Out>, View>;

/// Lowers the count of room: the session is let through, or goes the slow way.
pub(crate) struct Takes;

impl Play<Option<Out>, View> for Takes {
    ghost use Rattle.kex_gate.specs.Steps.{meets_others};

    ghost then = { meets_others };
}

/// Sets a bit: the pass is the session's to take where the bit was clear.
pub(crate) struct Tests;

impl Play<Option<Out>, View> for Tests {
    ghost use Rattle.kex_gate.specs.Steps.{tested_bit};

    ghost then = { tested_bit };
}

/// A pass leaves its slot.
pub(crate) struct PassesOut;

impl Play<Option<Out>, View> for PassesOut {
    ghost use Rattle.kex_gate.specs.Steps.{went_out};

    ghost then = { went_out };
}

/// A pass goes home, and its last number is noted.
pub(crate) struct PassesIn;

impl Play<Option<Out>, View> for PassesIn {
    ghost use Rattle.kex_gate.specs.Steps.{went_home};

    ghost then = { went_home };
}

/// Clears a bit.
pub(crate) struct Clears;

impl Play<Option<Out>, View> for Clears {
    ghost use Rattle.kex_gate.specs.Steps.{cleared_bit};

    ghost then = { cleared_bit };
}

/// Raises the count of room, by a session that was let through.
pub(crate) struct Gives;

impl Play<Option<Out>, View> for Gives {
    ghost use Rattle.kex_gate.specs.Steps.{gave};

    ghost then = { gave };
}

/// The seat that a session had by the slow way, picked where it is noted.
pub(crate) trait Noting {
    ghost use Rattle.std.specs.Prelude.{ℕ};

    ghost seat: { ℕ };
}

impl Noting for Brand {
    ghost seat = { 0 };
}

/// Raises the count of room, by a session that went the slow way, and notes its seat.
pub(crate) struct GivesSlow<J> {
    of: PhantomData<J>,
}

impl<J: Noting> Play<Option<Out>, View> for GivesSlow<J> {
    ghost use Rattle.kex_gate.specs.Steps.{gave_slow};

    ghost then = { gave_slow J.seat };
}

/// A new pass's view is cut off the maker's.
pub(crate) struct Deal;

impl Split<View> for Deal {
    ghost use Rattle.kex_gate.specs.Steps.{dealt_view, newcomer};

    ghost left = { dealt_view };

    ghost right = { newcomer };
}

/// A session's view goes into another's.
pub(crate) struct Gather;

impl Join<View> for Gather {
    ghost use Rattle.kex_gate.specs.Steps.{both, spent_view};

    ghost both = { both };

    ghost spent = { spent_view };
}
