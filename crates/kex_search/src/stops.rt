//! What the others do when one party stops, in the machine and on running words.
ghost use Rattle.std.specs.Prelude.{◌≡◌, ◌<◌, IfOk};
ghost use Rattle.kex_search.specs.Kinds.{parties_of};

use crate::safety::Seen;
use crate::seats::held;
use anyhow::{Result, ensure};
use kex_core::{Net, NoMemory, Place, World};
use kex_net::{chain, gated, tree};
use kex_parties::Parties;
use std::alloc::Global;
use std::fmt::{self, Display, Formatter, Write};

/// A party stops after so many steps at most: accesses, or calls.
pub(crate) const STEP_LIMIT: u32 = 12;

/// Then the others go on, each in its turn, for so many rounds.
pub(crate) const ROUNDS: u32 = 200;

/// The nets in which parties stop.
#[derive(Clone, Copy)]
pub(crate) enum Kind {
    /// The chain for three parties and two licences.
    Chain,
    /// The tree for five parties and two licences.
    Tree,
    /// The net behind the fast gate, for five parties and one licence.
    Gated,
}

impl Kind {
    fn net(self, alloc: Global) -> Result<Net, NoMemory>
        ensures { IfOk result (λ net. net.parties ≡ parties_of self) }
    {
        match self {
            Kind::Chain => chain(alloc, 3, 2),
            Kind::Tree => tree(alloc, 5, 2),
            Kind::Gated => gated(alloc, 5, 1),
        }
    }

    /// How the net is called.
    pub(crate) fn name(self) -> &'static str {
        match self {
            Kind::Chain => "chain(3, 2)",
            Kind::Tree => "tree(5, 2)",
            Kind::Gated => "gated(5, 1)",
        }
    }
}

/// What happened in all runs with one stop each.
#[derive(Clone, Copy, Default)]
pub(crate) struct Stops {
    /// How many runs there were.
    pub runs: u64,
    /// How many seats the others took in all.
    pub taken: u64,
    /// In how many runs the others took none.
    pub idle: u64,
    /// How many seats were held at most at once.
    pub most_held: u64,
}

impl Stops {
    /// Notes a run in which the others took so many seats.
    pub(crate) fn note(&mut self, taken: u64) {
        self.runs = self.runs.wrapping_add(1);
        self.taken = self.taken.wrapping_add(taken);
        self.idle = self.idle.wrapping_add(u64::from(taken == 0));
    }

    /// Each party stops once after each number of accesses, from none.
    pub(crate) fn of(alloc: Global, kind: Kind) -> Result<Stops> {
        let parties = kind.net(alloc)?.parties();
        let mut stops = Stops::default();
        for stopped in 0..parties {
            for accesses in 0..=STEP_LIMIT {
                let mut pair = Pair::make(alloc, kind)?;
                stops.note(pair.run(stopped, accesses)?);
                stops.most_held = stops.most_held.max(pair.most_held);
            }
        }
        Ok(stops)
    }
}

impl Display for Stops {
    fn fmt<W: Write>(&self, f: &mut Formatter<W>) -> fmt::Result {
        write!(
            f,
            "{} stops, {} seats taken by the others, none in {} of them, {} held at most",
            self.runs, self.taken, self.idle, self.most_held
        )
    }
}

/// The machine and the parties of running words on one net, which make the same accesses, and what was seen of them.
#[derive(Drop)]
struct Pair {
    net: Net,
    world: World,
    parties: Parties,
    seen: Seen,
    most_held: u64,
    ghost machine: { world.net.parties ≡ net.parties },
    ghost running: { parties.table.net.parties ≡ net.parties },
}

impl Pair {
    fn make(alloc: Global, kind: Kind) -> Result<Pair, NoMemory> {
        let net = kind.net(alloc)?;
        let seen = Seen::make(alloc, &net)?;
        Ok(Pair {
            world: World::make(alloc, kind.net(alloc)?)?,
            parties: Parties::make(alloc, kind.net(alloc)?)?,
            net,
            seen,
            most_held: 0,
        })
    }

    /// One party's next access, in both. They have to lead to the same place, and all parties have to stand safely
    /// there. Tells whether it took a seat.
    fn step(&mut self, party: u32) -> Result<bool>
        requires { party < self.old.net.parties }
        ensures { self.new.net ≡ self.old.net }
    {
        self.world.step(party);
        self.parties.step(party);
        let place = self.parties.place(party);
        ensure!(
            place == self.world.place(party),
            "the words lead party {party} elsewhere"
        );
        self.seen.note(party, place);
        ensure!(self.seen.is_safe(&self.net), "party {party} breaks safety");
        self.most_held = self.most_held.max(held(&self.world, self.net.parties())?);
        Ok(matches!(place, Place::Holding(_)))
    }

    /// Every party but the one that stopped makes an access. Gives how many seats they took.
    fn round(&mut self, stopped: u32) -> Result<u64>
        ensures { self.new.net ≡ self.old.net }
    {
        let mut taken = 0u64;
        for party in 0..self.net.parties() {
            if party != stopped && self.step(party)? {
                taken = taken.wrapping_add(1);
            }
        }
        Ok(taken)
    }

    /// This party stops after so many accesses. Gives how many seats the others took.
    fn run(&mut self, stopped: u32, accesses: u32) -> Result<u64> {
        if stopped < self.net.parties() {
            for _access in 0..accesses {
                self.step(stopped)?;
            }
        }
        let mut taken = 0u64;
        for _round in 0..ROUNDS {
            taken = taken.wrapping_add(self.round(stopped)?);
        }
        Ok(taken)
    }
}
