//! The end of a table.
ghost use Rattle.std.specs.Prelude.{◌≡◌, ℕ, ◌%◌, ◌^◌, ◌<◌, ◌≤◌, false, [], ◌∷◌, ◌++◌, length, Some, All, EachIndex, sum_by, vec_len, vec_capacity, slice_get, slice_index_or};
ghost use mathlib.Core.Option.{some};
ghost use lib.ListN.{get_elem?};
ghost use Rattle.std.specs.Slots.{slots_items, slots_filled, slots_len, IsFull};
ghost use Rattle.kex_words.specs.Passes.{used_card, counted_card, times, times_taken};
ghost use Rattle.kex_words.specs.Steps.{IsAtRest, numbers_of};

use crate::card::Card;
use crate::passes::{Out, Seated};
use crate::table::{Gather, WordSeat};
use crate::words::KexTable;
use atomic_table::Closed;
use std::alloc::Global;
use std::marker::Model;

/// Passes of a table that were taken in one after another, for its close.
///
/// Contracts see them as a `TakenIn`: the `table` that they are of, their `numbers`, the last first, and `got`, the
/// numbers that they took.
#[derive(Drop)]
pub struct Gathering {
    seat: WordSeat,
}

impl Model for Gathering {
    ghost use Rattle.kex_words.specs.Passes.{TakenIn};
    ghost use Rattle.kex_words.specs.Steps.{taken_in, IsTakenIn};

    ghost Value = { TakenIn };

    ghost view = { λ g. taken_in g.seat.table_id g.seat.me.0 };

    ghost invariant = { λ g. IsTakenIn g.seat.me };
}

impl Gathering {
    /// The first pass.
    pub fn of(first: Out) -> Gathering
        ensures table { result.table ≡ first.table }
        ensures numbers { result.numbers ≡ first.number ∷ [] }
        ensures got { result.got ≡ first.got }
    {
        let seat = first.into_seat();
        Gathering { seat }
    }
}

impl KexTable {
    /// Takes one more pass in. It takes no memory and waits for nobody.
    pub fn gather(&self, gathering: Gathering, out: Out) -> Gathering
        requires gathering { gathering.table ≡ self.now }
        requires own { out.table ≡ self.now }
        ensures table { result.table ≡ self.now }
        ensures numbers { result.numbers ≡ out.number ∷ gathering.numbers }
        ensures got { result.got ≡ gathering.got ++ out.got }
    {
        let Gathering { mut seat } = gathering;
        let other = out.into_seat();
        self.table.shared.join_seat::<Gather>(&mut seat, other);
        Gathering { seat }
    }

    /// Gives the cards back, in the order of their numbers, once all passes of the table were taken in.
    ///
    /// The uses of card s are the number of times that s was taken by the passes, modulo 2^64. So the uses of all cards
    /// together are as many as the numbers that the passes took. Each number of a party is that of one pass. It takes
    /// no memory and waits for nobody.
    pub fn close_gathered(self, gathering: Gathering) -> Vec<Card>
        requires own { gathering.table ≡ self }
        requires count { length gathering.numbers ≡ self.net.parties }
        ensures count { vec_len result ≡ self.net.width }
        ensures cards { EachIndex result.items (λ s. slice_get result.items s ≡ Some (counted_card gathering.got s)) }
        ensures uses { sum_by (λ c. c.uses) result.items % 2 ^ 64 ≡ length gathering.got % 2 ^ 64 }
        ensures numbers { (q : ℕ) → q < self.net.parties → times q gathering.numbers ≡ 1 }
        ensures below { All (λ q. q < self.net.parties) gathering.numbers }
        ensures got { (s : ℕ) → self.net.width ≤ s → times s gathering.got ≡ 0 }
    {
        let Gathering { seat } = gathering;
        let KexTable {
            table,
            net,
            mut cards,
        } = self;
        let mut closed = table.close_with(seat);
        take_cards(&mut closed, net.width(), &mut cards);
        closed.free();
        cards
    }

    /// Takes all passes of the table in, and gives the cards back, in the order of their numbers.
    ///
    /// The uses of card s are the number of times that s was taken by the passes, modulo 2^64. So the uses of all cards
    /// together are as many as the numbers that the passes took. Each number of a party is that of one pass. It takes
    /// no memory and waits for nobody.
    pub fn close(self, passes: Vec<Out>) -> Vec<Card>
        requires count { vec_len passes ≡ self.net.parties }
        requires own { All (λ p. p.table ≡ self) passes.items }
        ensures count { vec_len result ≡ self.net.width }
        ensures cards { EachIndex result.items (λ s. slice_get result.items s ≡ Some (used_card passes.items s)) }
        ensures uses { sum_by (λ c. c.uses) result.items % 2 ^ 64 ≡ sum_by (λ p. length p.got) passes.items % 2 ^ 64 }
        ensures numbers { (q : ℕ) → q < self.net.parties → times q (numbers_of passes.items) ≡ 1 }
        ensures below { All (λ p. p.number < self.net.parties) passes.items }
        ensures got { (s : ℕ) → self.net.width ≤ s → times_taken s passes.items ≡ 0 }
    {
        let gathering = self.gather_all(passes);
        self.close_gathered(gathering)
    }

    /// Takes all passes in, the last first.
    fn gather_all(&self, mut passes: Vec<Out>) -> Gathering
        requires some { 0 < vec_len passes }
        requires own { All (λ p. p.table ≡ self.now) passes.items }
        ensures table { result.table ≡ self.now }
        ensures numbers { result.numbers ≡ numbers_of passes.items }
        ensures got { (s : ℕ) → times s result.got ≡ times_taken s passes.items }
        ensures all { length result.got ≡ sum_by (λ p. length p.got) passes.items }
    {
        let Some(first) = passes.pop() else {
            unreachable!()
        };
        let mut gathering = Gathering::of(first);
        while let Some(pass) = passes.pop() {
            gathering = self.gather(gathering, pass);
        }
        gathering
    }
}

impl Out {
    /// The seat of the pass.
    fn into_seat(self) -> WordSeat
        ensures own { result.table_id ≡ self.table.id }
        ensures sits { IsAtRest self result.me }
    {
        let Out {
            seated: Seated {
                number: _,
                place: _,
                seat,
            },
        } = self;
        seat
    }
}

/// Moves the cards out of their slots, in order.
fn take_cards(closed: &mut Closed<Option<Card>, Global>, width: u32, cards: &mut Vec<Card>)
    requires full { IsFull closed.old.slots × (slots_len closed.old.slots ≡ width) }
    requires home { (s : ℕ) → s < width → (c : Card) × (get_elem? (slots_items closed.old.slots) s ≡ some (Some c)) }
    requires room { (cards.old.items ≡ []) × (width ≤ vec_capacity cards.old) }
    ensures count { vec_len cards.new ≡ width }
    ensures cards { (s : ℕ) (c : Card) → s < width → get_elem? (slots_items closed.old.slots) s ≡ some (Some c) → slice_get cards.new.items s ≡ Some c }
    ensures taken { (k : ℕ) → k < slots_len closed.new.slots → slice_index_or (slots_filled closed.new.slots) k false ≡ false }
{
    for s in 0..width {
        let Some(card) = closed.take(s as usize) else {
            unreachable!()
        };
        cards.push_reserved(card);
    }
}
