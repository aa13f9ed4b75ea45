//! Whether the parties stand safely, computed over their places.
ghost use Rattle.std.specs.Prelude.{◌≡◌, ◌<◌};

use kex_core::{Net, NoMemory, Place};
use std::alloc::Global;

/// A set of parties, for a stage on their path.
#[derive(Clone, Copy)]
enum Set {
    /// Past the stage's Dec and before its Inc, and not waiting there.
    Passed,
    /// Past its Dec, and not yet past its Unmark.
    Between,
}

impl Set {
    fn has(self, place: Place, j: u32) -> bool {
        match place {
            Place::Dec(i) => j < i,
            Place::Inc(i) => j <= i,
            Place::Mark(i) | Place::Look(i) | Place::Spin(i) | Place::Unmark(i) => match self {
                Set::Passed => j < i,
                Set::Between => j <= i,
            },
            other => is_inside(other),
        }
    }
}

/// Whether whoever stands here is past all stages.
fn is_inside(place: Place) -> bool {
    matches!(
        place,
        Place::Naming(_) | Place::Named(_) | Place::Holding(_) | Place::Clearing(_)
    )
}

/// Whether stage j is on the party's path.
fn is_on_path(net: &Net, party: u32, j: u32) -> bool
    requires { party < net.now.parties }
{
    let stages = net.stages();
    let mut at = net.start(party);
    for _stage in 0..stages {
        match at {
            Some(i) if i < j && i < stages => at = net.next(i),
            _ => return at == Some(j),
        }
    }
    at == Some(j)
}

/// Where each party stands, and who wrote each stage's spin word last.
#[derive(Drop)]
pub(crate) struct Seen {
    places: Vec<Place>,
    writers: Vec<Option<u32>>,
}

impl Seen {
    /// All parties are Out, and nobody wrote.
    pub(crate) fn make(alloc: Global, net: &Net) -> Result<Seen, NoMemory> {
        Ok(Seen {
            places: vec![in alloc; Place::Out; net.parties() as usize]?,
            writers: vec![in alloc; None; net.stages() as usize]?,
        })
    }

    /// Notes to which place a party's access led.
    pub(crate) fn note(&mut self, party: u32, place: Place) {
        if let Place::Mark(j) | Place::Unmark(j) = self.place(party) {
            if let Some(writer) = self.writers.get_mut(j as usize) {
                *writer = Some(party);
            }
        }
        if let Some(old) = self.places.get_mut(party as usize) {
            *old = place;
        }
    }

    fn place(&self, party: u32) -> Place {
        self.places
            .get(party as usize)
            .copied()
            .unwrap_or(Place::Out)
    }

    fn is_named(&self, party: u32, j: u32) -> bool {
        self.writers.get(j as usize).copied().flatten() == Some(party)
    }

    /// How many parties are in the set of stage j, but for one.
    fn count(&self, net: &Net, set: Set, j: u32, but: Option<u32>) -> u32 {
        let mut total = 0u32;
        for party in 0..net.parties() {
            let is_in = set.has(self.place(party), j) && is_on_path(net, party, j);
            total = total.saturating_add(u32::from(is_in && but != Some(party)));
        }
        total
    }

    /// How many hold the seat s.
    fn holders(&self, net: &Net, s: u32) -> u32 {
        let mut total = 0u32;
        for party in 0..net.parties() {
            total = total.saturating_add(u32::from(self.place(party) == Place::Holding(s)));
        }
        total
    }

    /// How many are past all stages.
    fn insiders(&self, net: &Net) -> u32 {
        let mut total = 0u32;
        for party in 0..net.parties() {
            total = total.saturating_add(u32::from(is_inside(self.place(party))));
        }
        total
    }

    /// Whether a holder has a number of its own below the width, and a waiter that is named as many others at its stage
    /// as that admits.
    fn is_party_safe(&self, net: &Net, party: u32) -> bool {
        match self.place(party) {
            Place::Holding(s) => s < net.width() && self.holders(net, s) == 1,
            Place::Spin(j) => {
                j < net.stages()
                    && (!self.is_named(party, j)
                        || self.count(net, Set::Between, j, Some(party)) >= net.cap(j))
            }
            _ => true,
        }
    }

    /// Whether no more have passed a stage than it admits, no more are inside than the net is wide, and each party is
    /// safe.
    pub(crate) fn is_safe(&self, net: &Net) -> bool {
        for j in 0..net.stages() {
            if self.count(net, Set::Passed, j, None) > net.cap(j) {
                return false;
            }
        }
        for party in 0..net.parties() {
            if !self.is_party_safe(net, party) {
                return false;
            }
        }
        self.insiders(net) <= net.width()
    }
}
