//! The options machine kept as lists.
ghost use Rattle.counter.specs.Glances.{numbers_of};
ghost use Rattle.std.specs.Prelude.{◌≡◌, ℕ, ◌+◌, ◌<◌, ◌≤◌, ◌∷◌, [], ◌↔◌, IfOk, IsTrue, length};
ghost use Rattle.lic_types.specs.declared.limits.TheConstants.{MOMENT_END, PARTY_LIMIT};
ghost use Rattle.policy.specs.Books.{Book, rules_now};
ghost use Rattle.options_machine.specs.Law.{AreSets, IsLawful};
ghost use Rattle.options_machine.specs.Run.{AsksForSet, IsBelow};
ghost use Rattle.options_machine.specs.State.{opening, in_force, set_at};
ghost use Rattle.options_machine.specs.Step.{set_asked, step};

use crate::anew::charge_anew;
use crate::answers;
use crate::lists::{Lists, charges, decide, seat, seat_again, settle};
use crate::members::{
    drop_holder, drop_queuer, entry_left, find_holder, find_queuer, linger, position_of, tell,
};
use crate::rows::Rows;
use crate::rules::DeskRules;
use counter::Glance;
use lic_types::{Client, LINGER_LIMIT, NoMemory};
use options_machine::{Charge, Decision, Holder, Kind, Lingerer, Queuer, Reply, Request};
use std::alloc::Global;
use std::marker::Model;

/// The options machine of one pool, kept as lists: the plain reference. A clause sees it as its rule sets, the number
/// of parties that it is for, and the state of the machine.
#[derive(Drop)]
pub struct PlainBook {
    sets: Vec<DeskRules>,
    parties: u32,
    lists: Lists,
}

impl Model for PlainBook {
    ghost use Rattle.policy.specs.Books.{Book};
    ghost use Rattle.policy.specs.Kept.{IsBookKept, state_of};

    ghost Value = { Book };

    ghost view = { λ b. record { sets = b.sets.items; parties = b.parties; state = state_of b.lists } };

    ghost invariant = { λ b. IsBookKept b.sets.items b.parties b.lists };
}

impl PlainBook {
    /// A book in the opening state, with one to four rule sets of one count, for the parties below `n`. The set of
    /// number 0 holds until a request asks for another. The room for all that parties may ask for later is taken here.
    pub fn make_many(alloc: Global, sets: Vec<DeskRules>, n: u32) -> Result<PlainBook, NoMemory>
        requires sets { AreSets sets.items (in_force sets.items opening).count }
        requires parties { n ≤ PARTY_LIMIT }
        ensures { IfOk result (λ book. book ≡ record { sets = sets.items; parties = n; state = opening }) }
    {
        let holders = Vec::with_capacity(alloc, n as usize)?;
        let lingering = Vec::with_capacity(alloc, LINGER_LIMIT as usize)?;
        let queue = Vec::with_capacity(alloc, n as usize)?;
        Ok(PlainBook {
            sets,
            parties: n,
            lists: Lists {
                holders,
                lingering,
                queue,
                moment: 0,
                set: 0,
            },
        })
    }

    /// A book in the opening state, with one rule set, for the parties below `n`.
    pub fn make(alloc: Global, rules: DeskRules, n: u32) -> Result<PlainBook, NoMemory>
        requires parties { n ≤ PARTY_LIMIT }
        ensures book { IfOk result (λ book. book ≡ record { sets = rules ∷ []; parties = n; state = opening }) }
        ensures sets { IfOk result (λ book. AreSets book.sets rules.count) }
    {
        let sets = rules.alone(alloc)?;
        PlainBook::make_many(alloc, sets, n)
    }

    /// How many parties it is for: the `n` of its making.
    pub fn parties(&self) -> u32
        ensures { result ≡ self.now.parties }
    {
        self.parties
    }

    /// Whether a request of this kind may be made: where it asks for a rule set, there is one of that number.
    pub fn has_set(&self, kind: &Kind) -> bool
        ensures { IsTrue result ↔ IsBelow (set_asked kind.now) (length self.now.sets) }
    {
        match kind.set_asked() {
            None => true,
            Some(set) => (set as usize) < self.sets.len(),
        }
    }

    /// The numbers of its state, as a Glance of so many entries.
    pub fn glance(&self, front: u64) -> Glance
        ensures { result ≡ numbers_of self.now.sets front self.now.state }
    {
        answers::glance(self, front)
    }

    /// One step of the machine at a moment, in seconds since 1970-01-01 UTC: what is over goes, the queue is served,
    /// and the request is answered. The number is the moment that the step used: the later of the handed one, which
    /// counts as 2^40 - 1 at most, and the last one used. It takes no memory.
    pub fn step(&mut self, request: &Request, moment: u64) -> (Reply, u64)
        requires party { request.now.party < self.old.parties }
        requires fits { AsksForSet self.old.sets request.now }
        ensures step { (result.0, self.new.state) ≡ step self.old.sets self.old.state request.now moment }
        ensures moment { result.1 ≡ self.new.state.now }
        ensures same { (self.new.sets ≡ self.old.sets) × (self.new.parties ≡ self.old.parties) }
        ensures within { result.1 < MOMENT_END }
        ensures lawful { IsLawful self.new.sets (set_at self.new.sets 0).count self.new.state }
    {
        let said = answers::step(self, request, moment);
        let _ = &self.sets;
        said
    }

    /// The rules that hold.
    fn rules(&self) -> &DeskRules
        ensures { result.now ≡ rules_now self.now }
    {
        &self.sets[self.lists.set as usize]
    }
}

impl Rows for PlainBook {
    ghost seen = { λ b. b };

    fn settle(&mut self, moment: u64) {
        settle(&self.sets[self.lists.set as usize], &mut self.lists, moment);
    }

    fn now(&self) -> u64 {
        self.lists.moment
    }

    fn holder_of(&self, party: u32) -> Option<&Holder> {
        find_holder(self.lists.holders.as_slice(), party)
    }

    fn queuer_of(&self, party: u32) -> Option<&Queuer> {
        find_queuer(self.lists.queue.as_slice(), party)
    }

    fn decide(&self, client: &Client) -> Decision {
        decide(self.rules(), &self.lists, client)
    }

    fn entry_left(&self, holder: &Holder) -> Option<Lingerer> {
        entry_left(self.rules(), &self.lists, holder)
    }

    fn held(&self) -> u32 {
        self.lists.holders.len() as u32
    }

    fn lingering(&self) -> u32 {
        self.lists.lingering.len() as u32
    }

    fn queued(&self) -> u32 {
        self.lists.queue.len() as u32
    }

    fn taken(&self) -> u32 {
        charges(&self.lists, &Charge::Open) as u32
    }

    fn free(&self) -> u32 {
        self.rules().free()
    }

    fn position(&self, party: u32) -> u32 {
        position_of(&self.lists, party)
    }

    fn tell(&mut self, party: u32) {
        tell(&mut self.lists, party);
    }

    fn release(&mut self, party: u32) {
        drop_holder(&mut self.lists.holders, party);
    }

    fn linger(&mut self, party: u32, entry: &Lingerer) {
        linger(&mut self.lists, party, entry);
    }

    fn unqueue(&mut self, party: u32) {
        drop_queuer(&mut self.lists.queue, party);
    }

    fn seat(&mut self, party: u32, client: &Client, charge: Charge) {
        seat(&mut self.lists, party, client, charge, true);
    }

    fn reseat(&mut self, party: u32, client: &Client, charge: Charge) {
        seat_again(&mut self.lists, party, client, charge, true);
    }

    fn join(&mut self, party: u32, client: &Client) {
        self.lists.queue.push_reserved(Queuer {
            party,
            client: *client,
        });
    }

    fn reread(&mut self, set: u32) {
        self.lists.set = set;
        charge_anew(&self.sets[set as usize], &mut self.lists);
    }
}
