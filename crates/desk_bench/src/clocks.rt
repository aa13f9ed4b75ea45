//! Calls of a full clock of lingering seats.
ghost use Rattle.std.specs.Prelude.{◌<◌};

use anyhow::{Result, bail, ensure};
use linger_clock::Clock;
use std::alloc::Global;

/// Which call goes with `add` in a round.
#[derive(Clone, Copy)]
pub enum Taking {
    /// The first deadline is taken out.
    Settle,
    /// That of an owner is taken out whom a generator picks.
    Remove,
}

/// The next state of Knuth's 64-bit linear congruential generator (MMIX).
fn next(state: u64) -> u64 {
    state
        .wrapping_mul(6364136223846793005)
        .wrapping_add(1442695040888963407)
}

/// A moment below 2^24, from the upper bits of a state.
fn moment(state: u64) -> u64 {
    state >> 40
}

fn fill(clock: &mut Clock, room: u32) -> u64 {
    let mut state = 1;
    for owner in 0..room {
        state = next(state);
        let _ = clock.add(u64::from(owner), moment(state));
    }
    state
}

fn rounds(clock: &mut Clock, taking: Taking, room: u32, count: u32) -> u64
    requires { 0 < room }
{
    let mut state = fill(clock, room);
    let mut sum = 0u64;
    for _ in 0..count {
        state = next(state);
        let picked = (state >> 33) % u64::from(room);
        let taken = match taking {
            Taking::Settle => clock.settle(u64::MAX),
            Taking::Remove => clock.remove(picked).map(|_| picked),
        };
        if let Some(owner) = taken {
            sum = sum.wrapping_add(owner);
            let _ = clock.add(owner, moment(state));
        }
    }
    sum
}

/// The sum of the owners that are taken out, modulo 2^64, with the numbers of the room and of rounds.
pub fn owners_of_clock(alloc: Global, taking: Taking, numbers: &[u32]) -> Result<u64> {
    let &[room, count] = numbers else {
        bail!("not two numbers")
    };
    ensure!(room > 0, "a room of 0");
    let mut clock = Clock::make(alloc, room)?;
    Ok(rounds(&mut clock, taking, room, count))
}
