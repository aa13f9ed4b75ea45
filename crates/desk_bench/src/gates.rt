//! Pairs of enter and leave on the seats behind a fast gate.
ghost use Rattle.std.specs.Prelude.{◌≡◌, All};

use anyhow::{Result, bail, ensure};
use kex_gate::{GateOut, GatedSeats};
use std::alloc::Global;
use std::sync::Wait;
use std::thread::{Threads, map_vec};

/// How many pairs of calls were made, and how many of them by the fast way.
#[derive(Clone, Copy)]
pub struct Pairs {
    /// All pairs.
    pub all: u64,
    /// Those by the fast way.
    pub fast: u64,
}

impl Pairs {
    fn and(self, others: Pairs) -> Pairs {
        Pairs {
            all: self.all.wrapping_add(others.all),
            fast: self.fast.wrapping_add(others.fast),
        }
    }
}

const NONE: Pairs = Pairs { all: 0, fast: 0 };

/// Enters and leaves so often, and counts.
fn come_and_go<R: Wait>(rt: &R, gate: &GatedSeats, mut out: GateOut, rounds: u32) -> Pairs
    requires { out.gate ≡ gate.now }
{
    let mut count = NONE;
    for _round in 0..rounds {
        let hold = gate.enter(rt, out);
        let fast = u64::from(hold.fast());
        out = gate.leave(hold);
        count = count.and(Pairs { all: 1, fast });
    }
    count
}

/// The pairs that are made in all, by a thread for each pass.
fn pairs_of_all<R: Threads + Wait + Sync>(
    rt: &R,
    gate: &GatedSeats,
    passes: Vec<GateOut>,
    rounds: u32,
) -> Result<Pairs>
    requires { All (λ out. out.gate ≡ gate.now) passes.items }
{
    let counting = |out: GateOut| -> Pairs
        requires { out.gate ≡ gate.now }
    { come_and_go(rt, gate, out, rounds) };
    let counts = map_vec(rt, passes, &counting)?;
    let mut total = NONE;
    for count in &counts {
        total = total.and(*count);
    }
    Ok(total)
}

/// The pairs that the threads make at a gate, with the numbers of sessions, of licences, of threads and of rounds.
pub fn pairs_at_gate<R: Threads + Wait + Sync>(
    rt: &R,
    alloc: Global,
    numbers: &[u32],
) -> Result<Pairs> {
    let &[n, k, threads, rounds] = numbers else {
        bail!("not four numbers")
    };
    ensure!(2 <= n && n <= 256 && 1 <= k && k <= 256, "no such gate");
    ensure!(
        2 * k < n,
        "not fewer than half as many licences as sessions"
    );
    ensure!(n + k <= 256, "more than 256 sessions and seats");
    let (gate, mut passes) = GatedSeats::make(alloc, n, k)?;
    passes.truncate(threads as usize);
    pairs_of_all(rt, &gate, passes, rounds)
}
