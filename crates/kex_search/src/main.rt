//! Looks at every state of the k-assignment machine on some small chains, and at what the others do when one party
//! stops, beside the proof that each state is safe: it shows that the machine of the proof is the one that was meant,
//! and that the running words are this machine.
//!
//! For each chain it makes, from the opening on, each party's step in every state that was found, until there is no new
//! one. It prints the states, the moves out of them, the moves that change nothing, the most seats that are held at
//! once, and how many moves the last states are away.
//!
//! For each net it stops each party after 0 to 12 accesses, and lets the others go on for 200 rounds, in the machine
//! and by step calls on running words at once. Each access has to lead to the same place in both, and after it all
//! parties have to stand safely: no more have passed a stage than it admits, no more are inside than there are seats,
//! seats that are held differ, and whoever waits at a stage has as many others in it as that admits. It prints the
//! runs, the seats that the others took, the runs in which they took none, and the most seats that were held at once.
//! The same it does with the calls of a desk's seats, where a session stops after 0 to 12 calls.
//!
//! `checks/states.py` counts the same by another program.
#![tactic(auto)]

mod calls;
mod safety;
mod seats;
mod states;
mod stops;

use anyhow::Result;
use calls::{SeatsOf, stops_at};
use states::{Chain, Search};
use stops::{Kind, Stops};

fn main(rt: HostRuntime) -> Result<()> {
    for (parties, licences) in [(2, 1), (3, 1), (3, 2)] {
        let chain = Chain { parties, licences };
        let found = Search::of(rt.alloc(), chain)?.run(rt.alloc())?;
        println!(rt;
            "chain({parties}, {licences}): {} states, {} moves, {} of them change nothing, {} held at most, {} moves away at most",
            found.states, found.moves, found.still, found.most_held, found.deepest
        )?;
    }
    for kind in [Kind::Chain, Kind::Tree, Kind::Gated] {
        let stops = Stops::of(rt.alloc(), kind)?;
        println!(rt; "{}: {stops}", kind.name())?;
    }
    for at in [SeatsOf::Chain, SeatsOf::Tree, SeatsOf::Gate] {
        let stops = stops_at(rt.alloc(), at)?;
        println!(rt; "{}: {stops}", at.name())?;
    }
    Ok(())
}
