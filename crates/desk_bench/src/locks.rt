//! Calls of a sum behind a ticket lock.
ghost use Rattle.std.specs.Prelude.{◌≡◌, All, IfOk, vec_len};

use anyhow::{Result, bail, ensure};
use std::alloc::Global;
use std::sync::Wait;
use std::thread::{Threads, map_vec};
use turn_lock::sum::{Addend, Sum};
use turn_lock::{TurnPass, Turns};

/// Asks so often, with 1 each.
fn asks<R: Wait>(rt: &R, turns: &Turns<Sum>, mut pass: TurnPass<Sum>, rounds: u32) -> TurnPass<Sum>
    requires { pass.lock ≡ turns.now.id }
    ensures { result.lock ≡ pass.lock }
{
    let party = pass.number();
    for _round in 0..rounds {
        turns.ask(rt, &mut pass, &Addend { party, amount: 1 }, 0);
    }
    pass
}

/// Asks with each pass, in a thread of its own.
fn all_ask<R: Threads + Wait + Sync>(
    rt: &R,
    turns: &Turns<Sum>,
    passes: Vec<TurnPass<Sum>>,
    rounds: u32,
) -> Result<Vec<TurnPass<Sum>>>
    requires { All (λ p. p.lock ≡ turns.now.id) passes.items }
    ensures count { IfOk result (λ back. vec_len back ≡ vec_len passes) }
    ensures lock { IfOk result (λ back. All (λ p. p.lock ≡ turns.now.id) back.items) }
{
    let asking = |pass: TurnPass<Sum>| -> TurnPass<Sum>
        requires { pass.lock ≡ turns.now.id }
        ensures { result.lock ≡ pass.lock }
    { asks(rt, turns, pass, rounds) };
    Ok(map_vec(rt, passes, &asking)?)
}

/// How many calls the threads make, with the numbers of threads and of rounds.
pub fn calls_of_lock<R: Threads + Wait + Sync>(
    rt: &R,
    alloc: Global,
    numbers: &[u32],
) -> Result<u64> {
    let &[threads, rounds] = numbers else {
        bail!("not two numbers")
    };
    ensure!(1 <= threads && threads <= 256, "not from 1 to 256 threads");
    let Ok((turns, passes)) = Turns::make(alloc, Sum { total: 0 }, threads) else {
        bail!("no memory")
    };
    let passes = all_ask(rt, &turns, passes, rounds)?;
    let (sum, calls) = turns.close(passes);
    ensure!(sum.total == calls, "a call was lost");
    Ok(calls)
}
