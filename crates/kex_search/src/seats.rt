//! The seats that are held in a world.
ghost use Rattle.std.specs.Prelude.{◌≡◌};

use anyhow::{Result, ensure};
use kex_core::{Place, World};

/// How many of the parties hold a seat. No two may hold the same.
pub(crate) fn held(world: &World, parties: u32) -> Result<u64>
    requires { world.now.net.parties ≡ parties }
{
    let mut held = 0u64;
    for party in 0..parties {
        if let Place::Holding(seat) = world.place(party) {
            held = held.wrapping_add(1);
            for other in 0..party {
                ensure!(
                    world.place(other) != Place::Holding(seat),
                    "two hold seat {seat}"
                );
            }
        }
    }
    Ok(held)
}
