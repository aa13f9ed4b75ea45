//! Asks the book by rows and the plain book the same requests at random, and compares all that they answer.
//!
//! It makes 200 sites, each a pool of 1 to 300 licences, few of them mostly, with four rule sets whose lines are drawn,
//! and asks both books 500 requests of every kind. The replies, the moments used and the glances have to be the same,
//! and each kind of reply has to come.
#![tactic(auto)]

mod draws;
mod pair;
mod site;

use anyhow::{Result, ensure};
use draws::Draws;
use pair::{Pair, Seen};
use std::alloc::Global;

const SITES: u32 = 200;

const REQUESTS: u32 = 500;

/// Plays one site whose lines and requests follow from the draws.
fn play(alloc: Global, draws: &mut Draws, seen: &mut Seen) -> Result<()> {
    let mut pair = Pair::of(alloc, draws)?;
    let mut moment = 0u64;
    for _request in 0..REQUESTS {
        moment = moment.wrapping_add(site::pause(draws));
        let request = site::request(draws)?;
        let reply = pair.ask(&request, moment)?;
        seen.note(&reply);
    }
    Ok(())
}

fn main(rt: HostRuntime) -> Result<()> {
    let mut draws = Draws::of(1);
    let mut seen = Seen::nothing();
    for _site in 0..SITES {
        play(rt.alloc(), &mut draws, &mut seen)?;
    }
    ensure!(seen.is_all(), "a kind of reply never came");
    println!(rt; "{SITES} sites of {REQUESTS} requests are answered alike")?;
    Ok(())
}
