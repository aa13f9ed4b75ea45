//! The counters of a book.
ghost use Rattle.std.specs.Prelude.{◌≡◌, ◌<◌, ◌≤◌, ℕ, [], IfOk, length};
ghost use Rattle.seat_counters.specs.Counts.{AreOf, AreSmall, CounterList, HasRoomFor, counts_with, counts_without, first_line, has_seat, is_used_up, no_counts};
ghost use Rattle.options_machine.specs.State.{set_at};

use crate::changes::{
    clear_for, first_used_up, first_with_seat, less_if, lower_charged, lower_matched, more_if,
    raise_charged, raise_matched,
};
use lic_types::{Client, NoMemory};
use options_machine::Charge;
use policy::DeskRules;
use std::alloc::Global;
use std::marker::Model;

/// How many seats of a book, held or lingering, are charged to Open, how many to each RESERVE line, and how many are of
/// clients of whom each MAX line speaks. The rules are handed in with each call. A clause sees the counts, and for how
/// many lines there is room.
#[derive(Drop)]
pub struct Counters {
    taken: u32,
    reserves: Vec<u32>,
    maxes: Vec<u32>,
}

impl Model for Counters {
    ghost use Rattle.std.specs.Prelude.{vec_capacity};
    ghost use Rattle.seat_counters.specs.Counts.{CounterList};

    ghost Value = { CounterList };

    ghost view = { λ c. record { counts = record { taken = c.taken; reserves = c.reserves.items; maxes = c.maxes.items }; reserve_room = vec_capacity c.reserves; max_room = vec_capacity c.maxes } };
}

/// The number of RESERVE lines of the rule set that has most.
fn most_reserves(sets: &[DeskRules]) -> usize
    ensures { (k : ℕ) → k < length sets.now → length (set_at sets.now k).reserves ≤ result }
{
    let mut most = 0;
    for rules in sets {
        most = rules.reserves().len().max(most);
    }
    most
}

/// The number of MAX lines of the rule set that has most.
fn most_maxes(sets: &[DeskRules]) -> usize
    ensures { (k : ℕ) → k < length sets.now → length (set_at sets.now k).maxes ≤ result }
{
    let mut most = 0;
    for rules in sets {
        most = rules.maxes().len().max(most);
    }
    most
}

impl Counters {
    /// Counters with room for the lines of each of these rule sets, which count for no line yet: `clear` is to come
    /// first. The room is taken here. The one error is want of memory.
    pub fn make(alloc: Global, sets: &[DeskRules]) -> Result<Counters, NoMemory>
        ensures counts { IfOk result (λ made. made.counts ≡ record { taken = 0; reserves = []; maxes = [] }) }
        ensures room { IfOk result (λ made. (k : ℕ) → k < length sets.now → HasRoomFor (set_at sets.now k) made) }
    {
        let reserves = Vec::with_capacity(alloc, most_reserves(sets))?;
        let maxes = Vec::with_capacity(alloc, most_maxes(sets))?;
        Ok(Counters {
            taken: 0,
            reserves,
            maxes,
        })
    }

    /// The counts of a book without seats, by these rules, for whose lines there is room.
    pub fn clear(&mut self, rules: &DeskRules)
        requires { HasRoomFor rules.now self.old }
        ensures { self.new ≡ record self.old { counts = no_counts rules.now } }
    {
        self.taken = 0;
        clear_for(&mut self.reserves, rules.reserves());
        clear_for(&mut self.maxes, rules.maxes());
    }

    /// How many seats are charged to Open.
    pub fn taken(&self) -> u32
        ensures { result ≡ self.now.counts.taken }
    {
        self.taken
    }

    /// A seat more, of this client and with this charge, by the rules for whose lines it counts.
    pub fn raise(&mut self, rules: &DeskRules, client: &Client, charge: Charge)
        requires lines { AreOf rules.now self.old.counts }
        requires small { AreSmall self.old.counts }
        ensures { self.new ≡ record self.old { counts = counts_with rules.now client.now charge self.old.counts } }
    {
        self.taken = more_if(self.taken, charge == Charge::Open);
        raise_charged(self.reserves.as_mut_slice(), rules.reserves(), &charge);
        raise_matched(self.maxes.as_mut_slice(), rules, client);
    }

    /// A seat less, of this client and with this charge, by the rules for whose lines it counts.
    pub fn lower(&mut self, rules: &DeskRules, client: &Client, charge: Charge)
        requires { AreOf rules.now self.old.counts }
        ensures { self.new ≡ record self.old { counts = counts_without rules.now client.now charge self.old.counts } }
    {
        self.taken = less_if(self.taken, charge == Charge::Open);
        lower_charged(self.reserves.as_mut_slice(), rules.reserves(), &charge);
        lower_matched(self.maxes.as_mut_slice(), rules, client);
    }

    /// The number of the first MAX line that speaks of the client and whose count has come to its number; None where
    /// there is none.
    pub fn reached(&self, rules: &DeskRules, client: &Client) -> Option<u32>
        requires { AreOf rules.now self.now.counts }
        ensures { result ≡ first_line (is_used_up rules.now client.now) rules.now.maxes self.now.counts.maxes }
    {
        first_used_up(rules, client, self.maxes.as_slice())
    }

    /// The number of the first RESERVE line that speaks of the client and whose count is below its cut number; None
    /// where there is none.
    pub fn reserved(&self, rules: &DeskRules, client: &Client) -> Option<u32>
        requires { AreOf rules.now self.now.counts }
        ensures { result ≡ first_line (has_seat rules.now client.now) rules.now.reserves self.now.counts.reserves }
    {
        first_with_seat(rules, client, self.reserves.as_slice())
    }
}
