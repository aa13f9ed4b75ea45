//! The table and its step calls.
ghost use Rattle.std.specs.Prelude.{◌≡◌, ◌↔◌, ◌⊎◌, ℕ, ◌+◌, ◌*◌, ◌%◌, ◌^◌, ◌<◌, ◌≤◌, [], length, slice_index};
ghost use Rattle.kex_core.specs.declared.place.Place.TheVariants.{Dec, Mark, Look, Spin, Clearing, Inc, Unmark};
ghost use Rattle.kex_core.specs.Shapes.{plan};
ghost use Rattle.kex_core.specs.Sets.{is_between, others};
ghost use Rattle.kex_core.specs.Worlds.{after};
ghost use Rattle.kex_core.specs.Laws.{Placed};
ghost use Rattle.kex_words.specs.Passes.{Pass, IsOut, due_at, kind_of, entering, naming, named, leaving, outside};
ghost use Rattle.kex_words.specs.Moves.{Moved};
ghost use Rattle.kex_words.specs.Sorts.{pass_in_next, pass_in_back, kind_in_next, kind_in_back};
ghost use Rattle.kex_words.specs.Steps.{pass_of, IsPass};
ghost use Rattle.pass_roles.specs.Roles.{total};
ghost use Rattle.kex_words.specs.Rule.{took_of};

use crate::card::Card;
use crate::passes::{Back, Entering, Hold, Leaving, Named, Naming, Next, Out, Seated};
use crate::table::{
    GivesCard, LooksAtBit, Moves, TakesCard, WordSeat, WordTable, counter_word, spin_word,
};
use kex_core::{Net, Place};
use std::marker::Model;
use std::sync::Wait;
use std::time::Duration;

/// The shared words of a net, and its cards. Threads share it by reference.
///
/// Contracts see it as a `TableNet`: its `id` tells it from other tables, and `net` is its net. Each call that takes a
/// pass has the condition that the pass is of this table. Each step call is one access to one shared word, waits for
/// nobody and takes no memory; that access is the one that is due at the pass's place, by the listing of `kex_core`. A
/// look at a bit that is not set comes before the test of it, and isn't counted.
#[derive(Drop)]
pub struct KexTable {
    pub(crate) table: WordTable,
    pub(crate) net: Net,
    // empty, with room for all cards
    pub(crate) cards: Vec<Card>,
}

impl Model for KexTable {
    ghost use Rattle.std.specs.Prelude.{◌≡◌, ◌≤◌, [], vec_capacity};
    ghost use Rattle.kex_words.specs.Passes.{TableNet, IsSetUp};

    ghost Value = { TableNet };

    ghost view = { λ t. record { id = t.table.shared.table_id; net = t.net } };

    ghost invariant = { λ t. IsSetUp t.table.shared.table_id t.table.shared.key.value t.net × (t.cards.items ≡ []) × (t.net.width ≤ vec_capacity t.cards) };
}

impl KexTable {
    /// The net of the table.
    pub fn net(&self) -> &Net
        ensures { result.now ≡ self.now.net }
    {
        &self.net
    }

    /// A party begins to enter. It makes no access and stays at Out until its first.
    pub fn begin(&self, out: Out) -> Next
        requires own { out.table ≡ self.now }
        ensures same { pass_in_next result ≡ out }
        ensures rests { IsOut (pass_in_next result) }
        ensures kind { kind_in_next result ≡ kind_of (due_at out) }
    {
        let Out { seated } = out;
        let due = self.net.due(seated.number, seated.place);
        seated.sorted(due)
    }

    /// Dec: lowers the stage's counter by 1. The party passes the stage where it found room.
    pub fn dec(&self, e: Entering) -> Next
        requires own { e.table ≡ self.now }
        requires due { (j : ℕ) × (due_at e ≡ Dec j) }
        ensures same { ((pass_in_next result).table ≡ e.table) × ((pass_in_next result).number ≡ e.number) }
        ensures moved { Moved e (pass_in_next result) }
        ensures kind { kind_in_next result ≡ kind_of (pass_in_next result).place }
    {
        let Entering { seated } = e;
        let Seated {
            number,
            place,
            mut seat,
        } = seated;
        let due = self.net.due(number, place);
        let Place::Dec(j) = due else { unreachable!() };
        let stored = self
            .table
            .shared
            .fetch_sub::<Moves>(&mut seat, counter_word(j), 1);
        self.next(number, due, stored, seat)
    }

    /// Mark: writes the party's number into the stage's spin word.
    pub fn mark(&self, e: Entering) -> Entering
        requires own { e.table ≡ self.now }
        requires due { (j : ℕ) × (due_at e ≡ Mark j) }
        ensures same { (result.table ≡ e.table) × (result.number ≡ e.number) }
        ensures moved { Moved e result }
        ensures look { (j : ℕ) → due_at e ≡ Mark j → result.place ≡ Look j }
    {
        let Entering { seated } = e;
        let Seated {
            number,
            place,
            mut seat,
        } = seated;
        let Place::Mark(j) = place else {
            unreachable!()
        };
        let waiter = u64::from(number) + 1;
        self.table
            .shared
            .store::<Moves>(&mut seat, spin_word(j), waiter);
        Entering {
            seated: self.arrive(number, place, waiter, seat),
        }
    }

    /// Look: reads the stage's counter once more. The party passes the stage where it finds room.
    pub fn look(&self, e: Entering) -> Next
        requires own { e.table ≡ self.now }
        requires due { (j : ℕ) × (due_at e ≡ Look j) }
        ensures same { ((pass_in_next result).table ≡ e.table) × ((pass_in_next result).number ≡ e.number) }
        ensures moved { Moved e (pass_in_next result) }
        ensures kind { kind_in_next result ≡ kind_of (pass_in_next result).place }
    {
        let Entering { seated } = e;
        let Seated {
            number,
            place,
            mut seat,
        } = seated;
        let Place::Look(j) = place else {
            unreachable!()
        };
        let counter = self.table.shared.load::<Moves>(&mut seat, counter_word(j));
        self.next(number, place, counter, seat)
    }

    /// Spin: reads the stage's spin word. The party stays exactly where it finds its own number, and else passes the
    /// stage. Where it stays, as many others are between as the stage admits.
    pub fn spin(&self, e: Entering) -> Next
        requires own { e.table ≡ self.now }
        requires due { (j : ℕ) × (due_at e ≡ Spin j) }
        ensures same { ((pass_in_next result).table ≡ e.table) × ((pass_in_next result).number ≡ e.number) }
        ensures moved { Moved e (pass_in_next result) }
        ensures stays { (j : ℕ) (m : Moved e (pass_in_next result)) → due_at e ≡ Spin j → ((pass_in_next result).place ≡ Spin j) ↔ (slice_index m.state.words (2 * j + 2) ≡ e.number + 1) }
        ensures between { (j : ℕ) (m : Moved e (pass_in_next result)) → due_at e ≡ Spin j → (pass_in_next result).place ≡ Spin j → (plan self.now.net).cap j ≤ others is_between (plan self.now.net) m.ruled.world e.number j }
        ensures kind { kind_in_next result ≡ kind_of (pass_in_next result).place }
    {
        let Entering { seated } = e;
        let Seated {
            number,
            place,
            mut seat,
        } = seated;
        let Place::Spin(j) = place else {
            unreachable!()
        };
        let named = self.table.shared.load::<Moves>(&mut seat, spin_word(j));
        self.next(number, place, named, seat)
    }

    /// Sleeps so long at most, where the party spins, and not at all where its stage's spin word has another number by
    /// now. It reads that word without telling what it found, and nobody wakes the sleeper.
    pub fn nap<R: Wait>(&self, rt: &R, e: &Entering, time: Duration)
        requires own { e.now.table ≡ self.now }
    {
        if let Place::Spin(j) = e.seated.place {
            let name = e.seated.number + 1;
            self.table.shared.park_timeout(rt, spin_word(j), name, time);
        }
    }

    /// TestSet: sets the bit. The party has the bit's number where it was not set.
    ///
    /// A bit that is set already is only read, which is the same access, since a test would leave it set. So parties
    /// that pass over many set bits don't take their words from one another.
    pub fn test_set(&self, n: Naming) -> Next
        requires own { n.table ≡ self.now }
        ensures same { ((pass_in_next result).table ≡ n.table) × ((pass_in_next result).number ≡ n.number) }
        ensures due { (i : ℕ) × (due_at n ≡ Place.Naming i) }
        ensures moved { Moved n (pass_in_next result) }
        ensures kind { kind_in_next result ≡ kind_of (pass_in_next result).place }
    {
        let Naming { seated } = n;
        let Seated {
            number,
            place,
            mut seat,
        } = seated;
        let due = self.net.due(number, place);
        let Place::Naming(i) = due else {
            unreachable!()
        };
        let word = self.bit_word(i);
        let seen = self.table.shared.load::<LooksAtBit>(&mut seat, word);
        if seen == 1 {
            return self.next(number, due, seen, seat);
        }
        let bit = self.table.shared.swap::<Moves>(&mut seat, word, 1);
        self.next(number, due, bit, seat)
    }

    /// CardOut: sets the card word from 0 to 1. The card moves into the pass, and its uses rise by one.
    pub fn card_out(&self, n: Named) -> Hold
        requires own { n.table ≡ self.now }
        ensures same { (result.pass.table ≡ n.table) × (result.pass.number ≡ n.number) }
        ensures moved { Moved n result.pass }
        ensures place { n.place ≡ Place.Named result.card.number }
        ensures low { result.card.number < self.now.net.width }
        ensures uses { (m : Moved n result.pass) × (result.card.uses ≡ (total (took_of result.card.number) m.state.views % 2 ^ 64 + 1) % 2 ^ 64) }
    {
        let Named { seated } = n;
        let Seated {
            number,
            place,
            mut seat,
        } = seated;
        let Place::Named(s) = place else {
            unreachable!()
        };
        self.table
            .shared
            .swap::<TakesCard>(&mut seat, self.card_word(s), 1);
        let Some(Card { number: of, uses }) = self
            .table
            .shared
            .exchange(&mut seat, s as usize, None)
        else {
            unreachable!()
        };
        Hold {
            number,
            card: Card {
                number: of,
                uses: uses.wrapping_add(1),
            },
            seat,
        }
    }

    /// CardIn: the card moves home, and the card word is set from 1 to 0.
    pub fn card_in(&self, h: Hold) -> Back
        requires own { h.pass.table ≡ self.now }
        ensures same { ((pass_in_back result).table ≡ h.pass.table) × ((pass_in_back result).number ≡ h.pass.number) }
        ensures place { h.pass.place ≡ Place.Holding h.card.number }
        ensures moved { Moved h.pass (pass_in_back result) }
        ensures kind { kind_in_back result ≡ kind_of (pass_in_back result).place }
    {
        let Hold {
            number,
            card,
            mut seat,
        } = h;
        let s = card.number;
        let before = self
            .table
            .shared
            .exchange(&mut seat, s as usize, Some(card));
        let None = before else { unreachable!() };
        let found = self
            .table
            .shared
            .swap::<GivesCard>(&mut seat, self.card_word(s), 0);
        self.back(number, Place::Holding(s), found, seat)
    }

    /// Clear: clears the bit of the party's number.
    pub fn clear(&self, l: Leaving) -> Back
        requires own { l.table ≡ self.now }
        requires due { (s : ℕ) × (l.place ≡ Clearing s) }
        ensures same { ((pass_in_back result).table ≡ l.table) × ((pass_in_back result).number ≡ l.number) }
        ensures moved { Moved l (pass_in_back result) }
        ensures kind { kind_in_back result ≡ kind_of (pass_in_back result).place }
    {
        let Leaving { seated } = l;
        let Seated {
            number,
            place,
            mut seat,
        } = seated;
        let Place::Clearing(s) = place else {
            unreachable!()
        };
        self.table
            .shared
            .store::<Moves>(&mut seat, self.bit_word(s), 0);
        self.back(number, place, 0, seat)
    }

    /// Inc: raises the stage's counter by 1.
    pub fn inc(&self, l: Leaving) -> Leaving
        requires own { l.table ≡ self.now }
        requires due { (j : ℕ) × (l.place ≡ Inc j) }
        ensures same { (result.table ≡ l.table) × (result.number ≡ l.number) }
        ensures moved { Moved l result }
        ensures unmark { (j : ℕ) → l.place ≡ Inc j → result.place ≡ Unmark j }
    {
        let Leaving { seated } = l;
        let Seated {
            number,
            place,
            mut seat,
        } = seated;
        let Place::Inc(j) = place else { unreachable!() };
        let found = self
            .table
            .shared
            .fetch_add::<Moves>(&mut seat, counter_word(j), 1);
        Leaving {
            seated: self.arrive(number, place, found, seat),
        }
    }

    /// Unmark: writes the party's number into the stage's spin word, which lets a waiter go.
    pub fn unmark(&self, l: Leaving) -> Back
        requires own { l.table ≡ self.now }
        requires due { (j : ℕ) × (l.place ≡ Unmark j) }
        ensures same { ((pass_in_back result).table ≡ l.table) × ((pass_in_back result).number ≡ l.number) }
        ensures moved { Moved l (pass_in_back result) }
        ensures kind { kind_in_back result ≡ kind_of (pass_in_back result).place }
    {
        let Leaving { seated } = l;
        let Seated {
            number,
            place,
            mut seat,
        } = seated;
        let Place::Unmark(j) = place else {
            unreachable!()
        };
        let leaver = u64::from(number) + 1;
        self.table
            .shared
            .store::<Moves>(&mut seat, spin_word(j), leaver);
        self.back(number, place, leaver, seat)
    }

    /// The word of bit i.
    fn bit_word(&self, i: u32) -> usize
        requires { i < self.now.net.width }
        ensures { result ≡ 2 * length self.now.net.caps + 1 + i }
    {
        2 * self.net.stages() as usize + 1 + i as usize
    }

    /// The word of card s.
    fn card_word(&self, s: u32) -> usize
        requires { s < self.now.net.width }
        ensures { result ≡ 2 * length self.now.net.caps + self.now.net.width + s }
    {
        2 * self.net.stages() as usize + self.net.width() as usize + s as usize
    }

    /// The pass of a seat whose party's access of `due` found the number.
    fn arrive(&self, number: u32, due: Place, found: u64, seat: WordSeat) -> Seated
        requires own { (pass_of seat.table_id seat.me.0).table ≡ self.now }
        requires pass { IsPass (pass_of seat.table_id seat.me.0) seat.me }
        requires number { number ≡ (pass_of seat.table_id seat.me.0).number }
        requires placed { Placed (plan self.now.net) number due }
        requires place { (pass_of seat.table_id seat.me.0).place ≡ after (plan self.now.net) number due found }
        ensures { result ≡ pass_of seat.table_id seat.me.0 }
    {
        let place = self.net.after(number, due, found);
        Seated {
            number,
            place,
            seat,
        }
    }

    /// The same on the way in, sorted.
    fn next(&self, number: u32, due: Place, found: u64, seat: WordSeat) -> Next
        requires own { (pass_of seat.table_id seat.me.0).table ≡ self.now }
        requires pass { IsPass (pass_of seat.table_id seat.me.0) seat.me }
        requires number { number ≡ (pass_of seat.table_id seat.me.0).number }
        requires placed { Placed (plan self.now.net) number due }
        requires place { (pass_of seat.table_id seat.me.0).place ≡ after (plan self.now.net) number due found }
        requires inward { (kind_of due ≡ entering) ⊎ (kind_of due ≡ naming) }
        ensures same { pass_in_next result ≡ pass_of seat.table_id seat.me.0 }
        ensures kind { kind_in_next result ≡ kind_of (pass_in_next result).place }
    {
        let seated = self.arrive(number, due, found, seat);
        let place = seated.place;
        seated.sorted(place)
    }

    /// The same on the way out, sorted.
    fn back(&self, number: u32, due: Place, found: u64, seat: WordSeat) -> Back
        requires own { (pass_of seat.table_id seat.me.0).table ≡ self.now }
        requires pass { IsPass (pass_of seat.table_id seat.me.0) seat.me }
        requires number { number ≡ (pass_of seat.table_id seat.me.0).number }
        requires placed { Placed (plan self.now.net) number due }
        requires place { (pass_of seat.table_id seat.me.0).place ≡ after (plan self.now.net) number due found }
        requires outward { (λ (p : Pass). (kind_of p.place ≡ leaving) ⊎ ((kind_of p.place ≡ outside) × (p.firsts ≡ 0) × (p.spins ≡ 0))) (pass_of seat.table_id seat.me.0) }
        ensures same { pass_in_back result ≡ pass_of seat.table_id seat.me.0 }
        ensures kind { kind_in_back result ≡ kind_of (pass_in_back result).place }
    {
        self.arrive(number, due, found, seat).left()
    }
}
