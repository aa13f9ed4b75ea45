//! The logs of an office's desks, while its sessions run.
ghost use Rattle.std.specs.Prelude.{◌≡◌, ◌+◌, ◌∷◌, ◌++◌, [], MatchBool, length, map, sum_by};
ghost use Rattle.options_machine.specs.declared.reply.Entry.{Entry};
ghost use Rattle.licence_office.specs.Logs.{HaveGrown, untouched_keeper};
ghost use Rattle.licence_office.specs.Rooms.{AreTaken, taken_at};

use crate::closing::OfficeEnd;
use feature_desk::{DeskKeeper, DeskPass};
use std::alloc::Global;
use std::marker::Model;
use std::sync::atomic::{AtomicU64, Ordering};
use std::sync::{Arc, Wait};

/// What a desk's end takes.
#[derive(Drop)]
pub(crate) struct DeskEnd {
    // Who keeps the desk's log.
    pub(crate) keeper: DeskKeeper,
    // An empty list with room for the passes of all parties.
    pub(crate) room: Vec<DeskPass>,
}

impl DeskEnd {
    /// Takes the next entry out of the queue of the desk's log, and says whether there was one.
    fn take<R: Wait>(&mut self, rt: &R) -> bool
        ensures taken { MatchBool result ((x : Entry) × (taken_at self.new ≡ taken_at self.old ++ x ∷ [])) (taken_at self.new ≡ taken_at self.old) }
        ensures keeper { untouched_keeper self.new.keeper ≡ untouched_keeper self.old.keeper }
        ensures room { self.new.room ≡ self.old.room }
    {
        self.keeper.take(rt)
    }
}

/// Takes the next entry out of the queue of each desk's log, and tells how many there were.
fn take_each<R: Wait>(rt: &R, ends: &mut [DeskEnd]) -> usize
    ensures taken { AreTaken ends.old ends.new }
    ensures count { sum_by length (map taken_at ends.new) ≡ sum_by length (map taken_at ends.old) + result }
{
    let mut count = 0;
    for end in ends.iter_mut() {
        if end.take(rt) {
            count += 1;
        }
    }
    count
}

/// Adds so many entries to the word, if there is one.
fn add_to(word: &Option<Arc<AtomicU64, Global>>, entries: usize) {
    if let Some(count) = word {
        count.fetch_add(entries as u64, Ordering::SeqCst);
    }
}

/// The logs of an office's desks: of each the end at which its entries come out, and what the office's close takes.
///
/// Contracts see them as a `LogsSeen`: the `keepers` of the desks' logs, what was `taken` out at each desk, and for how
/// many `parties` they are.
#[derive(Drop)]
pub struct OfficeLogs {
    pub(crate) ends: Vec<DeskEnd>,
    pub(crate) told: OfficeEnd,
    pub(crate) parties: u32,
    // The word to which rounds add how many entries they took.
    pub(crate) count: Option<Arc<AtomicU64, Global>>,
}

impl Model for OfficeLogs {
    ghost use Rattle.std.specs.Prelude.{map};
    ghost use Rattle.licence_office.specs.Logs.{LogsSeen, untouched_keeper};
    ghost use Rattle.licence_office.specs.Rooms.{HasEnds, taken_at};

    ghost Value = { LogsSeen };

    ghost view = { λ l. record { keepers = map (λ e. untouched_keeper e.keeper) l.ends.items; taken = map taken_at l.ends.items; parties = l.parties } };

    ghost invariant = { HasEnds };
}

impl OfficeLogs {
    /// Goes round the desks once, takes the next entry out of each queue that has one, and tells how many it took. It
    /// takes no memory.
    pub fn take_round<R: Wait>(&mut self, rt: &R) -> usize
        ensures same { (self.new.keepers ≡ self.old.keepers) × (self.new.parties ≡ self.old.parties) }
        ensures grown { HaveGrown self.old.taken self.new.taken }
        ensures count { sum_by length self.new.taken ≡ sum_by length self.old.taken + result }
    {
        let taken = take_each(rt, self.ends.as_mut_slice());
        add_to(&self.count, taken);
        taken
    }

    /// The same logs, whose rounds add how many entries they took to this word, modulo 2^64. Threads may read it
    /// meanwhile.
    pub fn counted_in(self, count: Arc<AtomicU64, Global>) -> OfficeLogs
        ensures { result ≡ self }
    {
        OfficeLogs {
            count: Some(count),
            ..self
        }
    }
}
