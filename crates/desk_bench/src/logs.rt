//! Pushes into the queue of a log and takes out of it.
ghost use Rattle.std.specs.Prelude.{◌≡◌};

use anyhow::{Result, bail, ensure};
use audit_log::{LogPush, LogTake, log_queue};
use lic_types::{Client, Name};
use options_machine::{Entry, Kind, Reply, Request};
use std::alloc::Global;
use std::sync::Wait;
use std::thread::{Threads, join};

/// How many entries a queue takes.
const ENTRIES: usize = 4096;

/// How often the taker looks, at most.
const LOOKS: u64 = 1_000_000_000;

/// An entry of no importance.
fn entry() -> Result<Entry> {
    let name = Name::read(b"n")?;
    let client = Client {
        user: name,
        host: name,
        display: name,
        project: name,
    };
    Ok(Entry {
        request: Request {
            party: 0,
            client,
            kind: Kind::Look,
        },
        moment: 0,
        reply: Reply::NotHeld,
    })
}

/// Pushes as many entries as the queue takes.
fn push_all<R: Wait>(rt: &R, mut push: LogPush, entry: &Entry) -> LogPush
    ensures { result.queue ≡ push.queue }
{
    for _place in 0..ENTRIES {
        push.push(rt, entry);
    }
    push
}

/// Takes until all entries were taken.
fn take_all<R: Wait>(rt: &R, mut take: LogTake) -> LogTake
    ensures { result.queue ≡ take.queue }
{
    for _look in 0..LOOKS {
        if take.taken().len() >= ENTRIES {
            break;
        }
        take.take(rt);
    }
    take
}

/// How many entries came out of a queue that one thread filled and another emptied meanwhile.
fn round_of_two<R: Threads + Wait + Sync>(
    rt: &R,
    push: LogPush,
    take: LogTake,
    entry: &Entry,
) -> usize
    requires { push.queue ≡ take.queue }
{
    let (push, mut take) = join(
        rt,
        move || -> LogPush
            ensures { result.queue ≡ push.queue }
        { push_all(rt, push, entry) },
        move || -> LogTake
            ensures { result.queue ≡ take.queue }
        { take_all(rt, take) },
    );
    take.finish(rt, push);
    take.taken().len()
}

/// How many entries came out of a queue that was filled first.
fn round_of_one<R: Wait>(rt: &R, push: LogPush, take: LogTake, entry: &Entry) -> usize
    requires { push.queue ≡ take.queue }
{
    let push = push_all(rt, push, entry);
    let mut take = take_all(rt, take);
    take.finish(rt, push);
    take.taken().len()
}

/// How many entries came out of all queues.
fn rounds_of<R: Threads + Wait + Sync>(
    rt: &R,
    alloc: Global,
    threads: u32,
    rounds: u32,
) -> Result<u64> {
    let entry = entry()?;
    let mut total = 0u64;
    for _round in 0..rounds {
        let (push, take) = log_queue(alloc)?;
        let taken = if threads == 1 {
            round_of_one(rt, push, take, &entry)
        } else {
            round_of_two(rt, push, take, &entry)
        };
        total = total.wrapping_add(taken as u64);
    }
    Ok(total)
}

/// How many entries come out of the queues, with the numbers of threads and of rounds.
pub fn entries_of_log<R: Threads + Wait + Sync>(
    rt: &R,
    alloc: Global,
    numbers: &[u32],
) -> Result<u64> {
    let &[threads, rounds] = numbers else {
        bail!("not two numbers")
    };
    ensure!(threads == 1 || threads == 2, "neither one thread nor two");
    rounds_of(rt, alloc, threads, rounds)
}
