//! How a session of a gate waits for its seat.
ghost use Rattle.std.specs.Prelude.{◌≡◌, ◌+◌, ◌*◌, ◌<◌, ◌≤◌, true, false};
ghost use Rattle.kex_core.specs.Costs.{depth};
ghost use Rattle.kex_core.specs.Shapes.{plan};
ghost use Rattle.kex_gate.specs.Turns.{fast_in_turn, guest_in_turn, met_in_turn};

use kex_gate::{GateHold, GateTurn, GatedSeats};
use std::sync::Wait;
use std::sync::atomic::AtomicU64;
use std::time::Duration;
use std::{hint, thread};

/// So many turns of a session spin, those up to the second number yield, and before each later one it sleeps.
///
/// The accesses of a path are fewer than the first number, so whoever never waits never sleeps. The count isn't set
/// back where a stage is passed: whoever waited long at one may sleep before its further accesses too.
const SPINS: u32 = 1024;

const YIELDS: u32 = 1536;

/// The first sleep of a wait and the longest.
const FIRST_NAP_MICROS: u64 = 50;

const LONGEST_NAP_MICROS: u64 = 1000;

/// Takes turns until the session is through, and then its seat. It may wait forever.
pub(crate) fn go_through<R: Wait>(rt: &R, gate: &GatedSeats, mut turn: GateTurn) -> GateHold
    requires own { (guest_in_turn turn).gate ≡ gate.now }
    ensures same { (result.guest ≡ guest_in_turn turn) × (result.fast ≡ fast_in_turn turn) × (result.met ≡ met_in_turn turn) }
    ensures low { result.held.card.number < gate.now.seats.net.width }
    ensures fast { result.fast ≡ true → result.held.pass.firsts ≤ 4 * gate.now.seats.net.width }
    ensures slow { result.fast ≡ false → result.held.pass.firsts ≤ 3 * depth (plan gate.now.seats.net) (guest_in_turn turn).number + gate.now.seats.net.width }
{
    let mut turns = 0;
    for _ in rt.forever() {
        match turn {
            GateTurn::Through(through) => return gate.name(through),
            GateTurn::Again(entering) => {
                turns = pause(rt, turns);
                turn = gate.turn(entering);
            }
        }
    }
    unreachable!()
}

/// One round of a wait, of which there were so many before: a short spin, then a yield, then sleeps that grow. It gives
/// the rounds with this one.
fn pause<R: Wait>(rt: &R, turns: u32) -> u32 {
    if turns < SPINS {
        hint::spin_loop();
    } else if turns < YIELDS {
        thread::yield_now();
    } else {
        let sleeps = u64::from(turns - YIELDS) + 1;
        let micros = (sleeps * FIRST_NAP_MICROS).min(LONGEST_NAP_MICROS);
        // nobody wakes it
        AtomicU64::new(0).park_timeout(rt, 0, Duration::from_micros(micros));
    }
    turns.saturating_add(1)
}
