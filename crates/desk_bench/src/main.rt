//! Makes calls on a desk, or on one of the parts that a desk has, to measure what a call costs.
//!
//! `desk_bench desk THREADS ROUNDS SEATS` makes a desk of SEATS licences with a party for each of THREADS, from 1 to
//! 256, but two at least, and each asks CHECKOUT and CHECKIN in turn, ROUNDS times each, on so many threads at once. It
//! closes the desk and prints the number of the grants, so that a lost one shows.
//!
//! `desk_bench lock THREADS ROUNDS` puts a sum behind a lock with THREADS passes, from 1 to 256, and asks it ROUNDS
//! times with each, every pass in a thread of its own. It closes the lock and prints the number of the calls, so that a
//! lost one shows.
//!
//! `desk_bench publish N ROUNDS` makes a board with N passes, from 1 to 256, and publishes ROUNDS entries;
//! `desk_bench glance N ROUNDS` publishes one and reads it ROUNDS times with the last of the N passes. It prints the
//! front that is read at the end, so that a lost one shows.
//!
//! `desk_bench log THREADS ROUNDS` makes a queue for each round and pushes 4,096 entries: with one thread they are taken
//! out behind that, with two by another thread meanwhile. It prints the number of the entries that came out, so that a
//! lost one shows.
//!
//! `desk_bench chain N K THREADS ROUNDS` makes the seats of `chain(N, K)`, and the first THREADS of the N parties enter
//! and leave ROUNDS times each, every one in a thread of its own; `desk_bench tree ..` does so with `tree(N, K)`. It
//! prints the number of the pairs, so that a lost one shows. With no threads it only makes the seats, to measure their
//! memory. `desk_bench gate N K THREADS ROUNDS` does so with the seats behind a fast gate for N sessions and K licences,
//! and prints as well how many of the pairs went the fast way: all of them, where there are at most K threads.
//!
//! `desk_bench settle ROOM ROUNDS` takes the first deadline out of a full clock of lingering seats and adds one for its
//! owner, ROUNDS times over; `desk_bench remove ROOM ROUNDS` does so with the deadline of an owner that a generator
//! picks. It prints the sum of the owners, modulo 2^64, so that a wrong answer shows.
#![tactic(auto)]

mod boards;
mod clocks;
mod desks;
mod gates;
mod locks;
mod logs;
mod nets;

use anyhow::{Context, Result, bail};
use boards::{Call, front_of_board};
use clocks::{Taking, owners_of_clock};
use desks::grants_of_desk;
use gates::{Pairs, pairs_at_gate};
use locks::calls_of_lock;
use logs::entries_of_log;
use nets::{Shape, pairs_on_net};
use std::alloc::Global;
use std::env;
use std::env::Args;

/// The number that a word writes.
fn number_of(word: &str) -> Result<u32> {
    Ok(word.parse()?)
}

/// The numbers behind the word that says what is measured.
fn numbers_of(alloc: Global, words: Args) -> Result<Vec<u32>> {
    let mut numbers = Vec::new(alloc);
    for word in words {
        numbers.push(number_of(word.as_str())?)?;
    }
    Ok(numbers)
}

fn main(rt: HostRuntime) -> Result<()> {
    let alloc = rt.alloc();
    let mut words = env::args(&rt)?;
    let _ = words.next();
    let part = words.next().context("no part of a desk")?;
    let numbers = numbers_of(alloc, words)?;
    let told = match part.as_str() {
        "desk" => grants_of_desk(&rt, alloc, &numbers)?,
        "lock" => calls_of_lock(&rt, alloc, &numbers)?,
        "publish" => front_of_board(&rt, alloc, Call::Publish, &numbers)?,
        "glance" => front_of_board(&rt, alloc, Call::Glance, &numbers)?,
        "log" => entries_of_log(&rt, alloc, &numbers)?,
        "chain" => pairs_on_net(&rt, alloc, Shape::Chain, &numbers)?,
        "tree" => pairs_on_net(&rt, alloc, Shape::Tree, &numbers)?,
        "settle" => owners_of_clock(alloc, Taking::Settle, &numbers)?,
        "remove" => owners_of_clock(alloc, Taking::Remove, &numbers)?,
        "gate" => {
            let Pairs { all, fast } = pairs_at_gate(&rt, alloc, &numbers)?;
            println!(rt; "{all} pairs, {fast} fast")?;
            return Ok(());
        }
        _ => bail!("no part of a desk is called so"),
    };
    println!(rt; "{told}")?;
    Ok(())
}
