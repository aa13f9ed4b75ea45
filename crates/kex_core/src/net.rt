ghost use Rattle.std.specs.Prelude.{◌⊎◌, false, ◌≡◌, ◌≢◌, ◌+◌, ◌<◌, ◌≤◌, length, true, MatchOption, IsOk, IfErr, IfOk, IfSome, ◌↔◌, map};
ghost use Rattle.kex_core.specs.Nets.{on_path, before, starts, feeds};
ghost use Rattle.kex_core.specs.Shapes.{Sheet, sheet, plan, IsNet};
ghost use Rattle.kex_core.specs.Faults.{Refused};
ghost use Rattle.kex_core.specs.Worlds.{due, place_past, back, after};
ghost use Rattle.kex_core.specs.Laws.{Placed};
ghost use Rattle.kex_core.specs.declared.limits.TheConstants.{STAGE_LIMIT};

use crate::fault::NetFault;
use crate::place::Place;
use crate::validity::fault_in;
use no_memory::NoMemory;
use std::alloc::Global;
use std::marker::Model;

/// A valid net of stages: how many parties it has, how many numbers it gives, each stage's capacity and next stage, and
/// each party's start.
///
/// Contracts see the lists from which it was made, or through `plan` the functions that they are. The number of stages
/// means Exit. The stages are after Anderson and Moir, Distributed Computing 11, 1997; nets of them in this form are
/// this project's.
#[derive(Drop)]
pub struct Net {
    parties: u32,
    width: u32,
    caps: Vec<u32>,
    next: Vec<u32>,
    start: Vec<u32>,
}

impl Model for Net {
    ghost Value = { Sheet };

    ghost view = { λ n. sheet n.parties n.width n.caps.items n.next.items n.start.items };

    ghost invariant = { λ n. IsNet (sheet n.parties n.width n.caps.items n.next.items n.start.items) };
}

impl Net {
    /// The net of n parties and m numbers with these capacities, next stages and starts.
    ///
    /// In `next` and `start` the number of stages means Exit. It is refused exactly where it isn't valid, by the first
    /// test that fails, in the order Size, BadNext, BadStart, BadCap, Overfull, OverfullExit (this project's order).
    pub fn of(
        n: u32,
        m: u32,
        caps: Vec<u32>,
        next: Vec<u32>,
        start: Vec<u32>,
    ) -> Result<Net, NetFault>
        ensures accepts { IsOk result ↔ IsNet (sheet n m caps.items next.items start.items) }
        ensures value { IfOk result (λ net. net ≡ sheet n m caps.items next.items start.items) }
        ensures fault { (e : NetFault) → (result ≡ Err e) ↔ Refused (sheet n m caps.items next.items start.items) e }
    {
        match fault_in(n, m, &caps, &next, &start) {
            Some(fault) => Err(fault),
            None => Ok(Net {
                parties: n,
                width: m,
                caps,
                next,
                start,
            }),
        }
    }

    /// The law of each net: its lists have their sizes, and it is valid.
    pub fn laws(&self)
        ensures { IsNet self.now }
    {
        let _caps = &self.caps;
    }

    /// The number of parties, from 2 to 256.
    pub fn parties(&self) -> u32
        ensures { result ≡ self.now.parties }
    {
        self.parties
    }

    /// How many numbers there are, and so the most that may hold one: from 1 to the number of parties.
    pub fn width(&self) -> u32
        ensures { result ≡ self.now.width }
    {
        self.width
    }

    /// The number of stages, at most 4,096. As a stage it means Exit.
    pub fn stages(&self) -> u32
        ensures value { result ≡ (plan self.now).stages }
        ensures small { result ≤ STAGE_LIMIT }
    {
        self.caps.len() as u32
    }

    /// The capacity of stage j, at least 1.
    pub fn cap(&self, j: u32) -> u32
        requires { j < (plan self.now).stages }
        ensures { result ≡ (plan self.now).cap j }
    {
        self.caps[j as usize]
    }

    /// The stored counters of the opening world: each capacity and one.
    pub(crate) fn counters(&self, alloc: Global) -> Result<Vec<u64>, NoMemory>
        ensures { IfOk result (λ v. v.items ≡ map (λ c. c + 1) self.now.caps) }
    {
        Ok(self.caps.iter().map(|c| u64::from(*c) + 1).collect(alloc)?)
    }

    /// The next stage of j, or the number of stages.
    fn next_or_exit(&self, j: u32) -> u32
        requires { j < (plan self.now).stages }
        ensures { result ≡ (plan self.now).next j }
    {
        self.next[j as usize]
    }

    /// The start of p, or the number of stages.
    fn start_or_exit(&self, p: u32) -> u32
        requires { p < self.now.parties }
        ensures { result ≡ (plan self.now).start p }
    {
        self.start[p as usize]
    }

    /// The stage after j. None is Exit.
    pub fn next(&self, j: u32) -> Option<u32>
        requires { j < (plan self.now).stages }
        ensures { MatchOption result ((plan self.now).next j ≡ (plan self.now).stages) (λ k. (k ≡ (plan self.now).next j) × (k ≢ (plan self.now).stages)) }
    {
        let k = self.next_or_exit(j);
        if k == self.stages() { None } else { Some(k) }
    }

    /// The stage at which p starts. None is Exit.
    pub fn start(&self, p: u32) -> Option<u32>
        requires { p < self.now.parties }
        ensures { MatchOption result ((plan self.now).start p ≡ (plan self.now).stages) (λ k. (k ≡ (plan self.now).start p) × (k ≢ (plan self.now).stages)) }
    {
        let k = self.start_or_exit(p);
        if k == self.stages() { None } else { Some(k) }
    }

    /// The stage before j on p's path. None exactly where j is p's start or isn't on p's path.
    ///
    /// j may be the number of stages, for the last stage on the path.
    pub fn before(&self, p: u32, j: u32) -> Option<u32>
        requires party { p < self.now.parties }
        requires stage { j ≤ (plan self.now).stages }
        ensures { MatchOption result ((on_path (plan self.now) p j ≡ false) ⊎ ((plan self.now).start p ≡ j)) (λ b. (b ≡ before (plan self.now) p j) × (on_path (plan self.now) p j ≡ true) × ((plan self.now).start p ≢ j)) }
    {
        let mut i = self.start_or_exit(p);
        if i == j {
            return None;
        }
        for _step in 0..self.stages() {
            if i >= j {
                return None;
            }
            let k = self.next_or_exit(i);
            if k == j {
                return Some(i);
            }
            i = k;
        }
        None
    }

    /// How many may come to j.
    fn room(&self, j: u32) -> u64
        requires { j ≤ (plan self.now).stages }
        ensures { starts (plan self.now) j + feeds (plan self.now) j ≤ result }
    {
        self.laws();
        if j == self.stages() {
            u64::from(self.width())
        } else {
            u64::from(self.cap(j)) + 1
        }
    }

    /// The stage in front of j, where as many come from there as may come to j, so that nobody else does.
    fn sole_feeder(&self, j: u32) -> Option<u32>
        requires { j ≤ (plan self.now).stages }
        ensures { IfSome result (λ i. (i < (plan self.now).stages) × ((plan self.now).next i ≡ j) × (starts (plan self.now) j + feeds (plan self.now) j ≤ (plan self.now).cap i)) }
    {
        if j == 0 {
            return None;
        }
        let room = self.room(j);
        if self.next_or_exit(j - 1) == j && u64::from(self.cap(j - 1)) >= room {
            Some(j - 1)
        } else {
            None
        }
    }

    /// The stage before j on p's path, where j isn't p's start.
    fn behind(&self, p: u32, j: u32) -> u32
        requires party { p < self.now.parties }
        requires stage { j ≤ (plan self.now).stages }
        requires path { on_path (plan self.now) p j ≡ true }
        requires later { (plan self.now).start p ≢ j }
        ensures { result ≡ before (plan self.now) p j }
    {
        self.laws();
        if let Some(i) = self.sole_feeder(j) {
            return i;
        }
        self.walked(p, j)
    }

    /// The same, by going along the path.
    fn walked(&self, p: u32, j: u32) -> u32
        requires party { p < self.now.parties }
        requires stage { j ≤ (plan self.now).stages }
        requires path { on_path (plan self.now) p j ≡ true }
        requires later { (plan self.now).start p ≢ j }
        ensures { result ≡ before (plan self.now) p j }
    {
        let mut i = self.start_or_exit(p);
        for _step in 0..self.stages() {
            let k = self.next_or_exit(i);
            if k == j {
                return i;
            }
            i = k;
        }
        i
    }

    /// The place of a party that has passed stage j: Dec of the next stage, or at Exit the first of the names, which
    /// where the width is 1 needs no test.
    pub fn passed(&self, j: u32) -> Place
        requires { j < (plan self.now).stages }
        ensures { result ≡ place_past (plan self.now) j }
    {
        let k = self.next_or_exit(j);
        if k == self.stages() {
            if self.width() == 1 {
                Place::Named(0)
            } else {
                Place::Naming(0)
            }
        } else {
            Place::Dec(k)
        }
    }

    /// The place to which p goes back from j, a stage on its path or, as the number of stages, Exit: Inc of the stage
    /// before, or Out.
    pub fn back(&self, p: u32, j: u32) -> Place
        requires party { p < self.now.parties }
        requires stage { j ≤ (plan self.now).stages }
        requires path { on_path (plan self.now) p j ≡ true }
        ensures { result ≡ back (plan self.now) p j }
    {
        if self.start_or_exit(p) == j {
            Place::Out
        } else {
            Place::Inc(self.behind(p, j))
        }
    }

    /// The place whose access is due for p: at Out that of its start, else its own.
    pub fn due(&self, p: u32, place: Place) -> Place
        requires { p < self.now.parties }
        ensures { result ≡ due (plan self.now) p place }
    {
        match place {
            Place::Out => {
                let j = self.start_or_exit(p);
                if j == self.stages() {
                    Place::Naming(0)
                } else {
                    Place::Dec(j)
                }
            }
            other => other,
        }
    }

    /// The place after the test of bit i, which was set unless `found` is 0.
    fn tested(&self, i: u32, found: u64) -> Place
        requires { i + 1 < self.now.width }
        ensures { result ≡ after (plan self.now) 0 (Place.Naming i) found }
    {
        let width = self.width();
        if found == 0 {
            Place::Named(i)
        } else if i + 2 == width {
            Place::Named(i + 1)
        } else {
            Place::Naming(i + 1)
        }
    }

    /// The place of p after the access of `place`, which found the number `found` in its word.
    ///
    /// Counters are found as stored, one more than they stand for, and spin words as the party's number and one. Of a
    /// write nothing that was found is used.
    pub fn after(&self, p: u32, place: Place, found: u64) -> Place
        requires party { p < self.now.parties }
        requires placed { Placed (plan self.now) p place }
        ensures { result ≡ after (plan self.now) p place found }
    {
        let width = self.width();
        match place {
            Place::Out => Place::Out,
            Place::Dec(j) => if found == 1 {
                Place::Mark(j)
            } else {
                self.passed(j)
            },
            Place::Mark(j) => Place::Look(j),
            Place::Look(j) => if found == 0 {
                Place::Spin(j)
            } else {
                self.passed(j)
            },
            Place::Spin(j) => if found == u64::from(p) + 1 {
                Place::Spin(j)
            } else {
                self.passed(j)
            },
            Place::Naming(i) => self.tested(i, found),
            Place::Named(s) => Place::Holding(s),
            Place::Holding(s) => if s + 1 == width {
                self.back(p, self.stages())
            } else {
                Place::Clearing(s)
            },
            Place::Clearing(_) => self.back(p, self.stages()),
            Place::Inc(j) => Place::Unmark(j),
            Place::Unmark(j) => self.back(p, j),
        }
    }
}
