//! Pairs of a checkout and a check-in on a desk.
ghost use Rattle.std.specs.Prelude.{◌≡◌, ◌<◌, ◌≤◌, All, IfOk, length, min, vec_len};
ghost use Rattle.options_machine.specs.Rules.{IsSound};
ghost use Rattle.options_machine.specs.Run.{IsBelow};
ghost use Rattle.options_machine.specs.Step.{set_asked};
ghost use Rattle.feature_desk.specs.Closings.{Rests};
ghost use Rattle.feature_desk.specs.Sitters.{IsOf};

use anyhow::{Result, bail, ensure};
use counter::Counter;
use feature_desk::{Desk, DeskPass};
use feature_lines::Pool;
use kex_core::Net;
use kex_net::tree;
use lic_types::{Client, Expiry, Name, Version};
use options_machine::Kind;
use options_text::read_options;
use policy::DeskRules;
use std::alloc::Global;
use std::sync::Wait;
use std::thread::{Threads, for_each_mut};

/// The pool of so many licences.
fn pool(count: u32) -> Result<Pool>
    ensures { IfOk result (λ pool. pool.count ≡ count) }
{
    let name = Name::read(b"1.0")?;
    Ok(Pool {
        name,
        version: Version { key: 1_000_000_000 },
        version_text: name,
        vendor: name,
        expiry: Expiry::Never,
        count,
        line: 1,
    })
}

/// A client of no importance.
fn client() -> Result<Client> {
    let name = Name::read(b"n")?;
    Ok(Client {
        user: name,
        host: name,
        display: name,
        project: name,
    })
}

/// The rules of so many licences without options.
fn rules_of(alloc: Global, count: u32) -> Result<DeskRules>
    ensures sound { IfOk result IsSound }
    ensures count { IfOk result (λ rules. rules.count ≡ count) }
{
    let pool = pool(count)?;
    let options = read_options(alloc, b"")?;
    Ok(DeskRules::of(alloc, &options, &pool)?)
}

/// The rules of so many licences, and a net for so many parties that is as wide as their desk needs it.
fn parts_of(alloc: Global, count: u32, parties: u32) -> Result<(DeskRules, Net)>
    requires count { 1 ≤ count }
    requires parties { (2 ≤ parties) × (parties ≤ 256) }
    ensures sound { IfOk result (λ parts. IsSound parts.0) }
    ensures width { IfOk result (λ parts. parts.1.width ≡ min parts.0.count parts.1.parties) }
{
    let net = tree(alloc, parties, count)?;
    ensure!(
        net.width() == count.min(net.parties()),
        "a net of another width"
    );
    Ok((rules_of(alloc, count)?, net))
}

/// Checks out and in, so often, and quits.
fn pairs<R: Wait>(rt: &R, desk: &Desk, pass: &mut DeskPass, client: &Client, rounds: u32)
    requires { IsOf pass.old desk.now }
    ensures { IsOf pass.new desk.now × Rests pass.new }
{
    for _round in 0..rounds {
        asks(rt, desk, pass, Kind::Checkout, client);
        asks(rt, desk, pass, Kind::Checkin, client);
    }
    quit(rt, desk, pass, client);
}

/// One call of a party.
fn asks<R: Wait>(rt: &R, desk: &Desk, pass: &mut DeskPass, kind: Kind, client: &Client)
    requires of { IsOf pass.old desk.now }
    requires fits { IsBelow (set_asked kind) (length pass.old.ticket.law.sets) }
    ensures { IsOf pass.new desk.now }
{
    pass.ask(rt, desk, kind, client, 0);
}

/// Quits.
fn quit<R: Wait>(rt: &R, desk: &Desk, pass: &mut DeskPass, client: &Client)
    requires { IsOf pass.old desk.now }
    ensures { IsOf pass.new desk.now × Rests pass.new }
{
    pass.ask(rt, desk, Kind::Quit, client, 0);
}

/// Each party asks, on so many threads at once.
fn pairs_of_all<R: Threads + Wait + Sync>(
    rt: &R,
    desk: &Desk,
    passes: &mut Vec<DeskPass>,
    client: &Client,
    rounds: u32,
    threads: usize,
)
    requires some { 0 < threads }
    requires own { All (λ p. IsOf p desk.now) passes.old.items }
    ensures len { vec_len passes.new ≡ vec_len passes.old }
    ensures own { All (λ p. IsOf p desk.now) passes.new.items }
    ensures rest { All Rests passes.new.items }
{
    all_at_once(rt, desk, passes.as_mut_slice(), client, rounds, threads);
}

/// As `pairs_of_all`, over a slice.
fn all_at_once<R: Threads + Wait + Sync>(
    rt: &R,
    desk: &Desk,
    passes: &mut [DeskPass],
    client: &Client,
    rounds: u32,
    threads: usize,
)
    requires some { 0 < threads }
    requires own { All (λ p. IsOf p desk.now) passes.old }
    ensures len { length passes.new ≡ length passes.old }
    ensures own { All (λ p. IsOf p desk.now) passes.new }
    ensures rest { All Rests passes.new }
{
    let asking = |_party: usize, pass: &mut DeskPass|
        requires { IsOf pass.old desk.now }
        ensures { IsOf pass.new desk.entry.now × Rests pass.new }
    { pairs(rt, desk, pass, client, rounds) };
    for_each_mut(rt, passes, threads, &asking);
}

/// How many grants the threads are given, with the numbers of threads, of rounds and of licences.
pub fn grants_of_desk<R: Threads + Wait + Sync>(
    rt: &R,
    alloc: Global,
    numbers: &[u32],
) -> Result<u64> {
    let &[threads, rounds, seats] = numbers else {
        bail!("not three numbers")
    };
    ensure!(1 <= threads, "no thread");
    ensure!(threads <= 256, "more than 256 threads");
    ensure!(
        1 <= seats && seats <= 65_535,
        "not from 1 to 65,535 licences"
    );
    let client = client()?;
    let parties = threads.max(2);
    let (rules, net) = parts_of(alloc, seats, parties)?;
    let (desk, mut passes, keeper) = Desk::make(rt, alloc, rules, net)?;
    pairs_of_all(rt, &desk, &mut passes, &client, rounds, threads as usize);
    Ok(desk.close(rt, passes, keeper).grants)
}
