//! The worker at a door.
ghost use Rattle.std.specs.Prelude.{◌≡◌, ◌<◌, ◌≤◌, List};
ghost use Rattle.daemon_outside.specs.Doors.{most_fails};
ghost use Rattle.door_worker.specs.Ends.{HasCause, HasCauseIfAny};
ghost use Rattle.door_worker.specs.Visits.{AreSessions, Served, Visit};
ghost use Rattle.session.specs.Pass.{AreIdle, AreOf};
ghost use Rattle.session.specs.Session.{setup_of};

use crate::end::DoorEnd;
use counter::Counter;
use daemon_outside::{Came, Door, FAIL_LIMIT};
use office_view::OfficeView;
use session::{Buffers, serve_session};
use session_outside::{Bell, Clock, Gate};
use std::sync::Wait;

/// Accepts once, and serves what came.
fn turn<R: Wait, C: Counter, D: Door, K: Clock, G: Gate, B: Bell>(
    rt: &R,
    office: &OfficeView<C::Desk>,
    pass: &mut Vec<C>,
    door: &mut D,
    clock: &mut K,
    gate: &mut G,
    bell: &mut B,
    room: &mut Buffers,
    fails: &mut u64,
) -> Option<DoorEnd>
    requires of { AreOf C.is_of C.account pass.old.items office.now }
    requires idle { AreIdle C.account pass.old.items }
    requires fails { D.fails door.old ≡ fails.old }
    requires few { fails.old < most_fails }
    ensures served { (visits : List Visit) × AreSessions (setup_of C.account office.now pass.old.items) visits
        × Served C.account D.talks K.gave B.tolls B.rings visits pass.old.items pass.new.items door.old door.new clock.old clock.new bell.old bell.new }
    ensures of { AreOf C.is_of C.account pass.new.items office.now }
    ensures idle { AreIdle C.account pass.new.items }
    ensures lent { D.lent door.new ≡ D.lent door.old }
    ensures fails { D.fails door.new ≡ fails.new }
    ensures cause { HasCauseIfAny result (B.tolls bell.old) (B.tolls bell.new) (D.quiets door.old) (D.quiets door.new) (D.faults door.old) (D.faults door.new) (D.fails door.new) }
    ensures quiets { D.quiets door.old ≤ D.quiets door.new }
    ensures faults { D.faults door.old ≤ D.faults door.new }
{
    match door.accept() {
        Came::Link(mut link) => {
            *fails = 0;
            serve_session(rt, office, pass, &mut link, clock, gate, bell, room);
            door.done(link);
            None
        }
        Came::Quiet => bell.rung().then_some(DoorEnd::Rung),
        Came::Failed => {
            *fails += 1;
            if *fails >= FAIL_LIMIT {
                return Some(DoorEnd::Broken);
            }
            bell.rung().then_some(DoorEnd::Rung)
        }
    }
}

/// Serves the links of a door, one session after another, until the bell is heard or the door is broken.
///
/// `pass` has one counter for each pool of the office, of that pool's desk, and none of them is holding or queued; so
/// it is at the end too. A session never ends the worker: the bell is asked where nothing came for a while and where an
/// accept failed. `Rung` comes only where it said yes there, `Broken` only where 1,000 accepts failed with no link
/// between them. Each link goes back to the door. It takes no memory but what a desk's step takes.
pub fn serve_door<R: Wait, C: Counter, D: Door, K: Clock, G: Gate, B: Bell>(
    rt: &R,
    office: &OfficeView<C::Desk>,
    pass: &mut Vec<C>,
    door: &mut D,
    clock: &mut K,
    gate: &mut G,
    bell: &mut B,
    room: &mut Buffers,
) -> DoorEnd
    requires of { AreOf C.is_of C.account pass.old.items office.now }
    requires idle { AreIdle C.account pass.old.items }
    requires fails { D.fails door.old ≡ 0 }
    ensures served { (visits : List Visit) × AreSessions (setup_of C.account office.now pass.old.items) visits
        × Served C.account D.talks K.gave B.tolls B.rings visits pass.old.items pass.new.items door.old door.new clock.old clock.new bell.old bell.new }
    ensures of { AreOf C.is_of C.account pass.new.items office.now }
    ensures idle { AreIdle C.account pass.new.items }
    ensures lent { D.lent door.new ≡ D.lent door.old }
    ensures cause { HasCause result (B.tolls bell.old) (B.tolls bell.new) (D.quiets door.old) (D.quiets door.new) (D.faults door.old) (D.faults door.new) (D.fails door.new) }
{
    let mut fails = 0;
    for _ in rt.forever() {
        let end = turn(rt, office, pass, door, clock, gate, bell, room, &mut fails);
        if let Some(end) = end {
            return end;
        }
    }
    unreachable!()
}
