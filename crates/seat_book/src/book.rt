//! The book by rows.
ghost use Rattle.std.specs.Prelude.{◌≡◌, ℕ, ◌+◌, ◌%◌, ◌<◌, ◌≤◌, ◌^◌, ◌∷◌, [], ◌↔◌, IfOk, IsTrue, find, if◌then◌else◌, length, slice_get};
ghost use Rattle.lic_types.specs.declared.limits.TheConstants.{MOMENT_END, PARTY_LIMIT};
ghost use Rattle.counter.specs.Glances.{numbers_of};
ghost use Rattle.policy.specs.Books.{rules_now};
ghost use Rattle.options_machine.specs.Law.{AreSets, IsLawful};
ghost use Rattle.options_machine.specs.Own.{brings_seat};
ghost use Rattle.options_machine.specs.Run.{AsksForSet, IsBelow};
ghost use Rattle.options_machine.specs.State.{in_force, is_holder, opening, set_at};
ghost use Rattle.options_machine.specs.Step.{set_asked, step};
ghost use Rattle.seat_book.specs.Books.{BookWithGrants, rows_of};

use crate::charging::charge_anew;
use crate::deciding::decide;
use crate::members::{
    drop_queuer, entry_left, find_queuer, linger, position_of, release, seat, seat_again,
};
use crate::parts::Parts;
use crate::serving::settle;
use lic_types::{Client, LINGER_LIMIT, NoMemory};
use linger_table::LingerTable;
use options_machine::{Charge, Decision, Holder, Kind, Lingerer, Queuer, Reply, Request};
use policy::{DeskRules, Glance, Rows};
use seat_counters::Counters;
use seat_rows::SeatRows;
use std::alloc::Global;
use std::marker::Model;

/// The book of one pool: the options machine, kept by rows. A clause sees its rule sets, the number of parties that it
/// is for, the state of the machine, and how many replies brought a seat.
#[derive(Drop)]
pub struct Book {
    sets: Vec<DeskRules>,
    parts: Parts,
    grants: u64,
}

impl Model for Book {
    ghost use Rattle.seat_book.specs.Books.{BookWithGrants};
    ghost use Rattle.seat_book.specs.Parts.{IsBookKept, state_of};

    ghost Value = { BookWithGrants };

    ghost view = { λ b. record { sets = b.sets.items; parties = b.parts.seats.parties; state = state_of b.parts; grants = b.grants } };

    ghost invariant = { λ b. IsBookKept b.sets.items b.parts };
}

/// The grants with one more where the reply brings a seat, modulo 2^64.
fn grants_after(grants: u64, reply: &Reply) -> u64
    ensures { result ≡ (grants + (if brings_seat reply.now then 1 else 0)) % 2 ^ 64 }
{
    match reply {
        Reply::Granted(_) | Reply::Retaken(_) => grants.wrapping_add(1),
        _ => grants,
    }
}

impl Book {
    /// A book in the opening state, with one to four rule sets of one count, for the parties below `n`. The set of
    /// number 0 holds until a request asks for another. All memory is taken here, for all that parties may ask for
    /// later. The one error is want of memory.
    pub fn make_many(alloc: Global, sets: Vec<DeskRules>, n: u32) -> Result<Book, NoMemory>
        requires sets { AreSets sets.items (in_force sets.items opening).count }
        requires parties { n ≤ PARTY_LIMIT }
        ensures { IfOk result (λ book. book ≡ record { sets = sets.items; parties = n; state = opening; grants = 0 }) }
    {
        let first = &sets[0];
        let mut counters = Counters::make(alloc, sets.as_slice())?;
        counters.clear(first);
        let table = LingerTable::make(alloc, LINGER_LIMIT.min(first.count()))?;
        let seats = SeatRows::make(alloc, n)?;
        let queue = Vec::with_capacity(alloc, n as usize)?;
        Ok(Book {
            sets,
            parts: Parts {
                seats,
                table,
                queue,
                counters,
                moment: 0,
                set: 0,
                is_served: true,
            },
            grants: 0,
        })
    }

    /// A book in the opening state, with one rule set, for the parties below `n`. The one error is want of memory.
    pub fn make(alloc: Global, rules: DeskRules, n: u32) -> Result<Book, NoMemory>
        requires parties { n ≤ PARTY_LIMIT }
        ensures book { IfOk result (λ book. book ≡ record { sets = rules ∷ []; parties = n; state = opening; grants = 0 }) }
        ensures sets { IfOk result (λ book. AreSets book.sets rules.count) }
    {
        let mut sets = Vec::with_capacity(alloc, 1)?;
        sets.push_reserved(rules);
        Book::make_many(alloc, sets, n)
    }

    /// How many parties it is for: the `n` of its making.
    pub fn parties(&self) -> u32
        ensures { result ≡ self.now.parties }
    {
        self.parts.seats.parties()
    }

    /// Whether a request of this kind may be made: where it asks for a rule set, there is one of that number.
    pub fn has_set(&self, kind: &Kind) -> bool
        ensures { IsTrue result ↔ IsBelow (set_asked kind.now) (length self.now.sets) }
    {
        match kind.set_asked() {
            None => true,
            Some(set) => (set as usize) < self.sets.len(),
        }
    }

    /// The numbers of its state, as a Glance of so many entries.
    pub fn glance(&self, front: u64) -> Glance
        ensures { result ≡ numbers_of self.now.sets front self.now.state }
    {
        policy::glance(self, front)
    }

    /// One step of the machine at a moment, in seconds since 1970-01-01 UTC: what is over goes, the queue is served,
    /// and the request is answered. The number is the moment that the step used: the later of the handed one, which
    /// counts as 2^40 - 1 at most, and the last one used. It takes no memory.
    pub fn step(&mut self, request: &Request, moment: u64) -> (Reply, u64)
        requires party { request.now.party < self.old.parties }
        requires fits { AsksForSet self.old.sets request.now }
        ensures step { (result.0, self.new.state) ≡ step self.old.sets self.old.state request.now moment }
        ensures moment { result.1 ≡ self.new.state.now }
        ensures same { (self.new.sets ≡ self.old.sets) × (self.new.parties ≡ self.old.parties) }
        ensures grants { self.new.grants ≡ (self.old.grants + (if brings_seat result.0 then 1 else 0)) % 2 ^ 64 }
        ensures within { result.1 < MOMENT_END }
        ensures lawful { IsLawful self.new.sets (set_at self.new.sets 0).count self.new.state }
    {
        let grants = self.grants;
        let (reply, used) = policy::step(self, request, moment);
        self.grants = grants_after(grants, &reply);
        (reply, used)
    }

    /// How many replies Granted and Retaken there were since the book was made, modulo 2^64.
    pub fn grants(&self) -> u64
        ensures { result ≡ self.now.grants }
    {
        self.grants
    }

    /// How many seats no RESERVE line of the rule set that holds keeps.
    pub fn free(&self) -> u32
        ensures { result ≡ (in_force self.now.sets self.now.state).free }
    {
        self.rules().free()
    }

    /// The seat of a party; None where it has none.
    pub fn holder(&self, party: u32) -> Option<Holder>
        requires { party < self.now.parties }
        ensures { result ≡ find (is_holder party) self.now.state.holders }
    {
        self.parts.seats.get(party).copied()
    }

    /// All seats, in order of party. The one error is want of memory.
    pub fn holders(&self, alloc: Global) -> Result<Vec<Holder>, NoMemory>
        ensures { IfOk result (λ list. list.items ≡ self.now.state.holders) }
    {
        self.parts.seats.list(alloc)
    }

    /// How many seats linger.
    pub fn lingering(&self) -> u32
        ensures { result ≡ length self.now.state.lingering }
    {
        self.parts.table.len()
    }

    /// The lingering seat at a place in the order in which they came, from 0; None exactly where there are no more than
    /// `at`.
    pub fn linger_at(&self, at: u32) -> Option<Lingerer>
        ensures { result ≡ slice_get self.now.state.lingering at }
    {
        self.parts.table.get(at)
    }

    /// How many parties wait, which are 256 at most.
    pub fn queued(&self) -> u32
        ensures count { result ≡ length self.now.state.queue }
        ensures few { result ≤ PARTY_LIMIT }
    {
        self.parts.queue.len() as u32
    }

    /// The parties that wait, in the order in which they came, each with its client.
    pub fn queue(&self) -> &[Queuer]
        ensures { result.now ≡ self.now.state.queue }
    {
        self.parts.queue.as_slice()
    }

    /// The party that waits at a place of the queue, from 0, with its client; None exactly where there are no more than
    /// `at`.
    pub fn queued_at(&self, at: u32) -> Option<Queuer>
        ensures { result ≡ slice_get self.now.state.queue at }
    {
        self.parts.queue.get(at as usize).copied()
    }

    /// The rules that hold.
    fn rules(&self) -> &DeskRules
        ensures { result.now ≡ in_force self.now.sets self.now.state }
    {
        &self.sets[self.parts.set as usize]
    }
}

impl Rows for Book {
    ghost seen = { rows_of };

    fn settle(&mut self, moment: u64) {
        settle(&self.sets[self.parts.set as usize], &mut self.parts, moment);
    }

    fn now(&self) -> u64 {
        self.parts.moment
    }

    fn holder_of(&self, party: u32) -> Option<&Holder> {
        self.parts.seats.get(party)
    }

    fn queuer_of(&self, party: u32) -> Option<&Queuer> {
        find_queuer(self.parts.queue.as_slice(), party)
    }

    fn decide(&self, client: &Client) -> Decision {
        decide(self.rules(), &self.parts, client)
    }

    fn entry_left(&self, holder: &Holder) -> Option<Lingerer> {
        entry_left(self.rules(), &self.parts, holder)
    }

    fn held(&self) -> u32 {
        self.parts.seats.len()
    }

    fn lingering(&self) -> u32 {
        self.parts.table.len()
    }

    fn queued(&self) -> u32 {
        self.parts.queue.len() as u32
    }

    fn taken(&self) -> u32 {
        self.parts.counters.taken()
    }

    fn free(&self) -> u32 {
        self.rules().free()
    }

    fn position(&self, party: u32) -> u32 {
        position_of(&self.parts, party)
    }

    fn tell(&mut self, party: u32) {
        self.parts.seats.tell(party, self.parts.moment);
    }

    fn release(&mut self, party: u32) {
        release(&self.sets[self.parts.set as usize], &mut self.parts, party);
    }

    fn linger(&mut self, party: u32, entry: &Lingerer) {
        linger(&mut self.parts, party, entry);
    }

    fn unqueue(&mut self, party: u32) {
        drop_queuer(&mut self.parts.queue, party);
    }

    fn seat(&mut self, party: u32, client: &Client, charge: Charge) {
        seat(
            &self.sets[self.parts.set as usize],
            &mut self.parts,
            party,
            client,
            charge,
            true,
        );
    }

    fn reseat(&mut self, party: u32, client: &Client, charge: Charge) {
        seat_again(&mut self.parts, party, client, charge, true);
    }

    fn join(&mut self, party: u32, client: &Client) {
        self.parts.queue.push_reserved(Queuer {
            party,
            client: *client,
        });
    }

    fn reread(&mut self, set: u32) {
        self.parts.set = set;
        charge_anew(&self.sets[set as usize], &mut self.parts);
        self.parts.is_served = false;
    }
}
