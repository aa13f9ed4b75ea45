ghost use Rattle.std.specs.Prelude.{◌≡◌, false, ◌≢◌, ◌+◌, ◌<◌, ◌≤◌, ◌^◌, ℕ, length, slice_index, slice_index_or, slice_set, IsTrue, MatchOption, IfOk, pos, ◌-ℤ◌, ◌↔◌};
ghost use Rattle.kex_core.specs.declared.place.Place.TheVariants.{Dec};
ghost use Rattle.kex_core.specs.Shapes.{plan, State, machine_of, machine, number_of, HasWord, access_of, IsWorld};
ghost use Rattle.kex_core.specs.Laws.{Kept, Safe};
ghost use Rattle.kex_core.specs.Worlds.{due, value_found, x_after, q_after, bit_after, card_after, move, opening};
ghost use Rattle.kex_core.specs.declared.limits.TheConstants.{PARTY_LIMIT};

use crate::net::Net;
use crate::place::{Access, Place};
use no_memory::NoMemory;
use std::alloc::Global;
use std::marker::Model;

/// The words that the parties share, and where each party stands.
#[derive(Drop)]
struct Words {
    places: Vec<Place>,
    counters: Vec<u64>,
    spin_words: Vec<u32>,
    bits: Vec<bool>,
    cards: Vec<bool>,
}

impl Words {
    /// What the access of this place finds in its word; of a write, what it writes.
    fn found(&self, p: u32, place: Place) -> u64
        requires word { HasWord (length self.now.counters.items) (length self.now.bits.items) (length self.now.cards.items) place }
        requires words { length self.now.spin_words.items ≡ length self.now.counters.items }
        ensures { result ≡ value_found (machine_of self.now.places.items self.now.counters.items self.now.spin_words.items self.now.bits.items self.now.cards.items) p place }
    {
        match place {
            Place::Out | Place::Clearing(_) => 0,
            Place::Dec(j) | Place::Look(j) | Place::Inc(j) => self.counters[j as usize],
            Place::Spin(j) => u64::from(self.spin_words[j as usize]),
            Place::Mark(_) | Place::Unmark(_) => u64::from(p) + 1,
            Place::Naming(i) => u64::from(self.bits[i as usize]),
            Place::Named(s) | Place::Holding(s) => u64::from(self.cards[s as usize]),
        }
    }

    /// The access of this place changes its word.
    fn write(&mut self, p: u32, place: Place)
        requires word { HasWord (length self.old.counters.items) (length self.old.bits.items) (length self.old.cards.items) place }
        requires words { length self.old.spin_words.items ≡ length self.old.counters.items }
        requires few { p < PARTY_LIMIT }
        requires above { (j : ℕ) → place ≡ Dec j → 0 < slice_index self.old.counters.items j }
        requires room { (j : ℕ) → slice_index self.old.counters.items j + 1 < 2 ^ 64 }
        ensures x { (λ (j : ℕ). slice_index self.new.counters.items j) ≡ x_after place (λ (j : ℕ). slice_index self.old.counters.items j) }
        ensures q { (λ (j : ℕ). slice_index self.new.spin_words.items j) ≡ q_after p place (λ (j : ℕ). slice_index self.old.spin_words.items j) }
        ensures bit { (λ (i : ℕ). number_of (slice_index_or self.new.bits.items i false)) ≡ bit_after place (λ (i : ℕ). number_of (slice_index_or self.old.bits.items i false)) }
        ensures card { (λ (s : ℕ). number_of (slice_index_or self.new.cards.items s false)) ≡ card_after place (λ (s : ℕ). number_of (slice_index_or self.old.cards.items s false)) }
        ensures places { self.new.places.items ≡ self.old.places.items }
        ensures counters { length self.new.counters.items ≡ length self.old.counters.items }
        ensures spin_words { length self.new.spin_words.items ≡ length self.old.spin_words.items }
        ensures bits { length self.new.bits.items ≡ length self.old.bits.items }
        ensures cards { length self.new.cards.items ≡ length self.old.cards.items }
    {
        match place {
            Place::Out | Place::Look(_) | Place::Spin(_) => {}
            Place::Dec(j) => self.counters[j as usize] -= 1,
            Place::Inc(j) => self.counters[j as usize] += 1,
            Place::Mark(j) | Place::Unmark(j) => self.spin_words[j as usize] = p + 1,
            Place::Naming(i) => self.bits[i as usize] = true,
            Place::Clearing(s) => self.bits[s as usize] = false,
            Place::Named(s) => self.cards[s as usize] = true,
            Place::Holding(s) => self.cards[s as usize] = false,
        }
    }
}

/// The kind of access that is due at a place, which isn't Out.
fn access_at(place: Place) -> Access
    ensures { result ≡ access_of place }
{
    match place {
        Place::Out => Access::Dec(0),
        Place::Dec(j) => Access::Dec(j),
        Place::Mark(j) => Access::Mark(j),
        Place::Look(j) => Access::Look(j),
        Place::Spin(j) => Access::Spin(j),
        Place::Naming(i) => Access::TestSet(i),
        Place::Named(s) => Access::CardOut(s),
        Place::Holding(s) => Access::CardIn(s),
        Place::Clearing(s) => Access::Clear(s),
        Place::Inc(j) => Access::Inc(j),
        Place::Unmark(j) => Access::Unmark(j),
    }
}

/// A machine on a net: where each party stands, and the words that they share.
///
/// The invariant holds of each value, so each is safe ([`World::laws`]). Contracts see the net and the lists of places
/// and words, or through `machine` the functions that they are.
#[derive(Drop)]
pub struct World {
    net: Net,
    words: Words,
}

impl Model for World {
    ghost Value = { State };

    ghost view = { λ w. record { net = w.net; places = w.words.places.items; counters = w.words.counters.items; spin_words = w.words.spin_words.items; bits = w.words.bits.items; cards = w.words.cards.items } };

    ghost invariant = { λ w. IsWorld (record { net = w.net; places = w.words.places.items; counters = w.words.counters.items; spin_words = w.words.spin_words.items; bits = w.words.bits.items; cards = w.words.cards.items }) };
}

impl World {
    /// The opening world of a net: all parties are Out, each counter is at its stage's capacity, no spin word names
    /// anybody, and all bits and card words are 0.
    ///
    /// NoMemory where there is no room for its lists.
    pub fn make(alloc: Global, net: Net) -> Result<World, NoMemory>
        ensures net { IfOk result (λ w. w.net ≡ net) }
        ensures opening { IfOk result (λ w. machine w ≡ opening (plan net)) }
    {
        let stages = net.stages() as usize;
        let width = net.width() as usize;
        let places = vec![in alloc; Place::Out; net.parties() as usize]?;
        let counters = net.counters(alloc)?;
        let spin_words = vec![in alloc; 0u32; stages]?;
        let bits = vec![in alloc; false; width - 1]?;
        let cards = vec![in alloc; false; width]?;
        Ok(World {
            net,
            words: Words {
                places,
                counters,
                spin_words,
                bits,
                cards,
            },
        })
    }

    /// The laws of each world, after whatever steps: the invariant holds, and so it is safe. At most c have passed a
    /// stage of capacity c, at most as many as the width are inside, those that hold have different numbers below the
    /// width, and whoever waits at a stage of capacity c has c others in it.
    pub fn laws(&self)
        ensures kept { Kept (plan self.now.net) (machine self.now) }
        ensures safe { Safe (plan self.now.net) (machine self.now) }
    {
        let _places = &self.words.places;
    }

    /// Where this party stands.
    pub fn place(&self, party: u32) -> Place
        requires { party < self.now.net.parties }
        ensures { result ≡ (machine self.now).place party }
    {
        self.words.places[party as usize]
    }

    /// The counter of stage j: from -1 to its capacity, one less than what is stored.
    pub fn counter(&self, j: u32) -> i64
        requires { j < (plan self.now.net).stages }
        ensures { result ≡ pos ((machine self.now).x j) -ℤ pos 1 }
    {
        self.words.counters[j as usize] as i64 - 1
    }

    /// The party that stage j's spin word names. None exactly where it names nobody.
    pub fn named(&self, j: u32) -> Option<u32>
        requires { j < (plan self.now.net).stages }
        ensures { MatchOption result ((machine self.now).q j ≡ 0) (λ p. (machine self.now).q j ≡ p + 1) }
    {
        self.words.spin_words[j as usize].checked_sub(1)
    }

    /// Whether bit i is set, for i below the width less one.
    pub fn bit(&self, i: u32) -> bool
        requires { i + 1 < self.now.net.width }
        ensures { number_of result ≡ (machine self.now).bit i }
    {
        self.words.bits[i as usize]
    }

    /// Whether card s is out, for s below the width.
    pub fn card(&self, s: u32) -> bool
        requires { s < self.now.net.width }
        ensures { number_of result ≡ (machine self.now).card s }
    {
        self.words.cards[s as usize]
    }

    /// One step of this party: the one access that is due, by the listing. It tells which it was.
    pub fn step(&mut self, party: u32) -> Access
        requires { party < self.old.net.parties }
        ensures net { self.new.net ≡ self.old.net }
        ensures moved { machine self.new ≡ move (plan self.old.net) (machine self.old) party }
        ensures kept { Kept (plan self.new.net) (machine self.new) }
        ensures safe { Safe (plan self.new.net) (machine self.new) }
        ensures access { result ≡ access_of (due (plan self.old.net) party ((machine self.old).place party)) }
    {
        let place = self.net.due(party, self.words.places[party as usize]);
        let found = self.words.found(party, place);
        let after = self.net.after(party, place, found);
        self.words.write(party, place);
        self.words.places[party as usize] = after;
        access_at(place)
    }
}
