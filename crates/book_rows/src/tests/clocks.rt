use linger_clock::{Clock, ClockFault};
use std::process::Abort;
use std::test::Fail;

/// A call of a clock, and the answer that it is to give.
#[derive(Clone, Copy)]
enum Call {
    Add(u64, u64, Result<(), ClockFault>),
    Remove(u64, Option<u64>),
    Due(Option<u64>),
    Settle(u64, Option<u64>),
}

/// Makes the calls of a clock, one after another.
fn answers(rt: &impl Abort, clock: &mut Clock, calls: &[Call]) {
    for (i, call) in calls.iter().enumerate() {
        match *call {
            Call::Add(owner, until, answer) => {
                assert_eq!(rt; clock.add(owner, until), answer, "call {i}")
            }
            Call::Remove(owner, answer) => {
                assert_eq!(rt; clock.remove(owner), answer, "call {i}")
            }
            Call::Due(answer) => assert_eq!(rt; clock.due(), answer, "call {i}"),
            Call::Settle(now, answer) => assert_eq!(rt; clock.settle(now), answer, "call {i}"),
        }
    }
}

/// Makes the calls of a new clock with this room.
fn new_answers(rt: &(impl Abort + AllocGlobal), room: u32, calls: &[Call]) -> Result<(), Fail> {
    let mut clock = Clock::make(rt.alloc(), room)?;
    answers(rt, &mut clock, calls);
    Ok(())
}

#[test]
fn two_fall_due_at_one_moment(rt: HostRuntime) -> Result<(), Fail> {
    const CALLS: &[Call] = &[
        Call::Add(5, 30, Ok(())),
        Call::Add(3, 30, Ok(())),
        Call::Add(9, 1, Err(ClockFault::Full)),
        Call::Settle(29, None),
        Call::Settle(30, Some(3)),
        Call::Settle(30, Some(5)),
        Call::Settle(30, None),
    ];
    new_answers(&rt, 2, CALLS)
}

#[test]
fn refusals_removals_and_the_ends_of_time(rt: HostRuntime) -> Result<(), Fail> {
    const CALLS: &[Call] = &[
        // Nothing waits.
        Call::Due(None),
        Call::Remove(1, None),
        Call::Settle(u64::MAX, None),
        // An owner has one deadline, and the first stays.
        Call::Add(1, 50, Ok(())),
        Call::Add(1, 20, Err(ClockFault::Twice)),
        Call::Due(Some(50)),
        Call::Add(2, 0, Ok(())),
        Call::Add(3, u64::MAX, Ok(())),
        Call::Add(u64::MAX, 50, Ok(())),
        // A full clock says so, also to an owner that it has.
        Call::Add(1, 20, Err(ClockFault::Full)),
        Call::Due(Some(0)),
        // The least goes, one of the middle, one that isn't there.
        Call::Remove(2, Some(0)),
        Call::Due(Some(50)),
        Call::Remove(2, None),
        Call::Add(2, 60, Ok(())),
        Call::Remove(u64::MAX, Some(50)),
        Call::Due(Some(50)),
        Call::Add(0, 50, Ok(())),
        // Equal moments go by owner, and the last moment is one like any other.
        Call::Settle(49, None),
        Call::Settle(50, Some(0)),
        Call::Settle(50, Some(1)),
        Call::Settle(59, None),
        Call::Due(Some(60)),
        Call::Settle(u64::MAX - 1, Some(2)),
        Call::Settle(u64::MAX - 1, None),
        Call::Settle(u64::MAX, Some(3)),
        Call::Due(None),
        // At moment 0 a deadline of 0 is due.
        Call::Add(7, 0, Ok(())),
        Call::Settle(0, Some(7)),
    ];
    new_answers(&rt, 4, CALLS)
}

#[test]
fn the_first_deadline_is_found_after_each_change(rt: HostRuntime) -> Result<(), Fail> {
    const CALLS: &[Call] = &[
        Call::Add(1, 50, Ok(())),
        Call::Settle(40, None),
        // An earlier one comes when the clock has been asked before.
        Call::Add(2, 40, Ok(())),
        Call::Settle(39, None),
        Call::Settle(40, Some(2)),
        Call::Settle(49, None),
        // The first one goes, and a later one comes.
        Call::Remove(1, Some(50)),
        Call::Add(2, 60, Ok(())),
        Call::Settle(50, None),
        Call::Settle(60, Some(2)),
    ];
    new_answers(&rt, 2, CALLS)
}

#[test]
fn no_room_takes_no_deadline(rt: HostRuntime) -> Result<(), Fail> {
    const CALLS: &[Call] = &[
        Call::Add(1, 1, Err(ClockFault::Full)),
        Call::Due(None),
        Call::Settle(1, None),
        Call::Remove(1, None),
    ];
    new_answers(&rt, 0, CALLS)
}
