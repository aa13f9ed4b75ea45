//! Pairs of enter and leave on the seats of a net.
ghost use Rattle.std.specs.Prelude.{◌≡◌, ◌≤◌, All};

use anyhow::{Result, bail, ensure};
use kex_core::{Net, NoMemory};
use kex_net::{chain, tree};
use kex_words::Out;
use seat_names::Seats;
use std::alloc::Global;
use std::sync::Wait;
use std::thread::{Threads, map_vec};

/// Which net the seats have.
#[derive(Clone, Copy)]
pub enum Shape {
    /// One stage behind another.
    Chain,
    /// Groups that meet by twos.
    Tree,
}

impl Shape {
    fn net(self, alloc: Global, n: u32, k: u32) -> Result<Net, NoMemory>
        requires two { 2 ≤ n }
        requires small { n ≤ 256 }
        requires licences { 1 ≤ k }
    {
        match self {
            Shape::Chain => chain(alloc, n, k),
            Shape::Tree => tree(alloc, n, k),
        }
    }
}

/// Enters and leaves so often, and counts.
fn pairs<R: Wait>(rt: &R, seats: &Seats, mut out: Out, rounds: u32) -> u64
    requires { out.table ≡ seats.now }
{
    let mut count = 0u64;
    for _round in 0..rounds {
        let hold = seats.enter(rt, out);
        out = seats.leave(hold);
        count = count.wrapping_add(1);
    }
    count
}

/// How many pairs are made in all, by a thread for each pass.
fn pairs_of_all<R: Threads + Wait + Sync>(
    rt: &R,
    seats: &Seats,
    passes: Vec<Out>,
    rounds: u32,
) -> Result<u64>
    requires { All (λ out. out.table ≡ seats.now) passes.items }
{
    let counting = |out: Out| -> u64
        requires { out.table ≡ seats.now }
    { pairs(rt, seats, out, rounds) };
    let counts = map_vec(rt, passes, &counting)?;
    let mut total = 0u64;
    for count in &counts {
        total = total.wrapping_add(*count);
    }
    Ok(total)
}

/// How many pairs the threads make on the seats of such a net, with the numbers of parties, of licences, of threads and
/// of rounds.
pub fn pairs_on_net<R: Threads + Wait + Sync>(
    rt: &R,
    alloc: Global,
    shape: Shape,
    numbers: &[u32],
) -> Result<u64> {
    let &[n, k, threads, rounds] = numbers else {
        bail!("not four numbers")
    };
    ensure!(2 <= n && n <= 256, "not from 2 to 256 parties");
    ensure!(1 <= k, "no licence");
    let net = shape.net(alloc, n, k)?;
    let (seats, mut passes) = Seats::make(alloc, net)?;
    passes.truncate(threads as usize);
    pairs_of_all(rt, &seats, passes, rounds)
}
