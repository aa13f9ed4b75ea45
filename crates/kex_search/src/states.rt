//! Every state of the machine on a chain.
ghost use Rattle.std.specs.Prelude.{◌≡◌, ◌-◌, ◌≤◌, min, IfOk};
ghost use Rattle.kex_core.specs.declared.limits.TheConstants.{PARTY_LIMIT};
ghost use Rattle.kex_search.specs.Chained.{IsOf};

use crate::seats::held;
use anyhow::{Result, bail, ensure};
use kex_core::{NoMemory, World};
use kex_net::chain;
use std::alloc::Global;
use std::collections::{BTreeSet, VecDeque};

/// No chain here has more states.
const STATE_LIMIT: u32 = 1_000_000;

/// A chain of stages, for so many parties and licences.
#[derive(Clone, Copy)]
pub(crate) struct Chain {
    pub parties: u32,
    pub licences: u32,
    ghost some: { (2 ≤ parties) × (parties ≤ PARTY_LIMIT) × (1 ≤ licences) },
}

/// What a search found.
#[derive(Clone, Copy, Default)]
pub(crate) struct Found {
    pub states: u64,
    pub moves: u64,
    pub still: u64,
    pub most_held: u64,
    pub deepest: usize,
}

/// A search: how each state looks that was seen, and the moves to those from which nobody has moved yet.
#[derive(Drop)]
pub(crate) struct Search {
    chain: Chain,
    seen: BTreeSet<String>,
    waiting: VecDeque<Vec<u32>>,
    found: Found,
}

impl Chain {
    fn width(self) -> u32
        ensures { result ≡ min self.licences self.parties }
    {
        self.licences.min(self.parties)
    }

    fn stages(self) -> u32
        ensures { result ≡ self.parties - min self.licences self.parties }
    {
        self.parties - self.width()
    }

    /// The world in which all parties are out.
    fn opening(self, alloc: Global) -> Result<World, NoMemory>
        ensures { IfOk result (IsOf self.parties self.licences) }
    {
        World::make(alloc, chain(alloc, self.parties, self.licences)?)
    }

    /// The world after these moves, each of which names a party.
    fn after(self, alloc: Global, moves: &[u32]) -> Result<World>
        ensures { IfOk result (IsOf self.parties self.licences) }
    {
        let mut world = self.opening(alloc)?;
        for party in moves {
            ensure!(*party < self.parties, "there is no party {party}");
            world.step(*party);
        }
        Ok(world)
    }

    /// The look of the world after these moves.
    fn look_after(self, alloc: Global, moves: &[u32]) -> Result<String> {
        self.look(alloc, &self.after(alloc, moves)?)
    }

    /// All that there is in a world, as a text.
    fn look(self, alloc: Global, world: &World) -> Result<String>
        requires { IsOf self.parties self.licences world.now }
    {
        let mut look = String::new(alloc);
        for party in 0..self.parties {
            look.push_str(format!(in alloc; "{:?} ", world.place(party))?.as_str())?;
        }
        for stage in 0..self.stages() {
            look.push_str(format!(in alloc;
                "{} {:?} ",
                world.counter(stage),
                world.named(stage)
            )?.as_str())?;
        }
        for seat in 0..self.width() {
            look.push_str(format!(in alloc; "{} ", world.card(seat))?.as_str())?;
        }
        for bit in 1..self.width() {
            look.push_str(format!(in alloc; "{} ", world.bit(bit - 1))?.as_str())?;
        }
        Ok(look)
    }
}

impl Search {
    /// The search at its beginning: the opening is seen, and nobody has moved from it.
    pub(crate) fn of(alloc: Global, chain: Chain) -> Result<Search> {
        let mut seen = BTreeSet::new(alloc);
        let mut waiting = VecDeque::new(alloc);
        seen.insert(chain.look_after(alloc, &[])?)?;
        waiting.push_back(Vec::new(alloc))?;
        let found = Found::default();
        Ok(Search {
            chain,
            seen,
            waiting,
            found,
        })
    }

    /// Makes one party's move after these, and keeps the state to which it leads, if that is new.
    fn step(&mut self, alloc: Global, moves: &[u32], party: u32) -> Result<()> {
        let before = self.chain.look_after(alloc, moves)?;
        let mut path = moves.to_vec(alloc)?;
        path.push(party)?;
        let after = self.chain.look_after(alloc, path.as_slice())?;
        self.found.moves = self.found.moves.wrapping_add(1);
        if before == after {
            self.found.still = self.found.still.wrapping_add(1);
        } else if self.seen.insert(after)? {
            self.waiting.push_back(path)?;
        }
        Ok(())
    }

    /// Looks at the state after these moves, and makes each party's move from there.
    fn visit(&mut self, alloc: Global, moves: &[u32]) -> Result<()> {
        let held = held(&self.chain.after(alloc, moves)?, self.chain.parties)?;
        self.found.states = self.found.states.wrapping_add(1);
        self.found.most_held = self.found.most_held.max(held);
        self.found.deepest = self.found.deepest.max(moves.len());
        for party in 0..self.chain.parties {
            self.step(alloc, moves, party)?;
        }
        Ok(())
    }

    /// Visits every state.
    pub(crate) fn run(mut self, alloc: Global) -> Result<Found> {
        for _state in 0..STATE_LIMIT {
            let Some(moves) = self.waiting.pop_front() else {
                return Ok(self.found);
            };
            self.visit(alloc, moves.as_slice())?;
        }
        bail!("more than {STATE_LIMIT} states")
    }
}
