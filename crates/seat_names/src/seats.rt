//! The seats, over the table of running words.
ghost use Rattle.std.specs.Prelude.{◌≡◌, ℕ, ◌+◌, ◌*◌, ◌%◌, ◌^◌, ◌<◌, ◌≤◌, ◌↔◌, List, [], ◌∷◌, ◌++◌, length, Some, IfOk, EachIndex, vec_len, slice_get, All, sum_by};
ghost use Rattle.kex_core.specs.declared.place.Place.TheVariants.{Holding};
ghost use Rattle.kex_core.specs.Costs.{depth};
ghost use Rattle.kex_core.specs.Shapes.{plan};
ghost use Rattle.kex_words.specs.Passes.{Pass, IsOut, unused_pass, used_card, counted_card, times, times_taken, due_at, kind_of, entering};
ghost use Rattle.kex_words.specs.Steps.{numbers_of};
ghost use Rattle.kex_words.specs.Moves.{Moved};
ghost use Rattle.kex_words.specs.Sorts.{pass_in_next, pass_in_back, kind_in_next, kind_in_back};
ghost use Rattle.seat_names.specs.Turns.{pass_in_turn, pass_in_through, kind_in_turn, IsThrough, Turned};
ghost use Rattle.seat_names.specs.Ways.{Leads, tests_at, back_at};

use crate::turns::{Through, Turn};
use kex_core::{Net, NoMemory, Place};
use kex_words::{
    Back, Card, Entering, Gathering, Hold, KexTable, Leaving, Named, Naming, Next, Out,
};
use std::alloc::Global;
use std::marker::Model;
use std::sync::Wait;
use std::time::Duration;
use std::{hint, thread};

/// So many rounds of a wait spin, those up to the second number yield, and the later ones sleep.
const SPINS: u32 = 100;

const YIELDS: u32 = 500;

/// The first sleep of a wait and the longest.
const FIRST_NAP_MICROS: u64 = 50;

const LONGEST_NAP_MICROS: u64 = 1000;

/// The seats of a net, as many as its width. Threads share them by reference.
///
/// Contracts see them as the `TableNet` of their table of words: its `id` tells it from others, and `net` is its net.
/// Each call that takes a pass has the condition that the pass is of this table. The accesses that a call makes are
/// those that are due, one after another, by the listing of `kex_core`.
#[derive(Drop)]
pub struct Seats {
    table: KexTable,
}

impl Model for Seats {
    ghost use Rattle.kex_words.specs.Passes.{TableNet};

    ghost Value = { TableNet };

    ghost view = { λ s. s.table };
}

impl Seats {
    /// The seats of a net, and the passes of the parties 0 to n-1, in order, each at Out.
    ///
    /// It takes all memory that the seats ever need. NoMemory where there is not so much.
    pub fn make(alloc: Global, net: Net) -> Result<(Seats, Vec<Out>), NoMemory>
        ensures net { IfOk result (λ r. r.0.net ≡ net) }
        ensures count { IfOk result (λ r. vec_len r.1 ≡ net.parties) }
        ensures passes { IfOk result (λ r. EachIndex r.1.items (λ i. slice_get r.1.items i ≡ Some (unused_pass r.0 i))) }
        ensures own { IfOk result (λ r. All (λ p. p.table ≡ r.0) r.1.items) }
    {
        let (table, passes) = KexTable::make(alloc, net)?;
        Ok((Seats { table }, passes))
    }

    /// The net of the seats.
    pub fn net(&self) -> &Net
        ensures { result.now ≡ self.now.net }
    {
        self.table.net()
    }

    /// A party begins to enter. It makes no access.
    ///
    /// It is through exactly where it starts at Exit. Else its first access comes with [`turn`](Seats::turn).
    pub fn begin(&self, out: Out) -> Turn
        requires own { out.table ≡ self.now }
        ensures same { pass_in_turn result ≡ out }
        ensures rests { IsOut (pass_in_turn result) }
        ensures kind { kind_in_turn result ≡ kind_of (due_at out) }
        ensures through { IsThrough result ↔ ((plan self.now.net).start out.number ≡ (plan self.now.net).stages) }
    {
        Turn::of(self.table.begin(out))
    }

    /// One turn of a party among the stages: the one access that is due.
    ///
    /// Again comes exactly where this access read the spin word and found the party's own number, or was Dec with old
    /// 0, Mark, or Look with the counter below 0, or passed a stage whose next isn't Exit.
    pub fn turn(&self, e: Entering) -> Turn
        requires own { e.table ≡ self.now }
        ensures same { ((pass_in_turn result).table ≡ e.table) × ((pass_in_turn result).number ≡ e.number) }
        ensures turned { Turned e result }
        ensures kind { kind_in_turn result ≡ kind_of (pass_in_turn result).place }
        ensures got { (pass_in_turn result).got ≡ e.got }
    {
        Turn::of(self.access(e))
    }

    /// Gives a party that is through the stages its number and the seat's card.
    ///
    /// It tests the bits one after another until it finds one that was not set, at most one less than the width, and
    /// takes the card.
    pub fn name(&self, t: Through) -> Hold
        requires own { (pass_in_through t).table ≡ self.now }
        ensures same { (result.pass.table ≡ (pass_in_through t).table) × (result.pass.number ≡ (pass_in_through t).number) }
        ensures place { result.pass.place ≡ Holding result.card.number }
        ensures low { result.card.number < self.now.net.width }
        ensures got { result.pass.got ≡ (pass_in_through t).got ++ result.card.number ∷ [] }
        ensures moved { (way : List Pass) × Leads (pass_in_through t) way result.pass
            × (length way ≡ tests_at self.now.net.width result.card.number (due_at (pass_in_through t)) + 1) }
        ensures accesses { result.pass.firsts ≤ 3 * depth (plan self.now.net) result.pass.number + self.now.net.width }
    {
        self.table.card_out(self.number(t))
    }

    /// Enters: begins, and goes on from there.
    ///
    /// It may wait forever.
    pub fn enter<R: Wait>(&self, rt: &R, out: Out) -> Hold
        requires own { out.table ≡ self.now }
        ensures same { (result.pass.table ≡ out.table) × (result.pass.number ≡ out.number) }
        ensures place { result.pass.place ≡ Holding result.card.number }
        ensures low { result.card.number < self.now.net.width }
        ensures got { result.pass.got ≡ out.got ++ result.card.number ∷ [] }
        ensures moved { (way : List Pass) × Leads out way result.pass }
        ensures accesses { result.pass.firsts ≤ 3 * depth (plan self.now.net) out.number + self.now.net.width }
    {
        self.go_on(rt, self.begin(out))
    }

    /// Goes on from a turn at any step: takes turns until the party is through, and then its seat.
    ///
    /// It may wait forever. While it waits at a spin word it spins a little, then lets other threads run, and then
    /// sleeps between its reads, for a millisecond at most.
    pub fn go_on<R: Wait>(&self, rt: &R, mut turn: Turn) -> Hold
        requires own { (pass_in_turn turn).table ≡ self.now }
        ensures same { (result.pass.table ≡ (pass_in_turn turn).table) × (result.pass.number ≡ (pass_in_turn turn).number) }
        ensures place { result.pass.place ≡ Holding result.card.number }
        ensures low { result.card.number < self.now.net.width }
        ensures got { result.pass.got ≡ (pass_in_turn turn).got ++ result.card.number ∷ [] }
        ensures moved { (way : List Pass) × Leads (pass_in_turn turn) way result.pass }
        ensures accesses { result.pass.firsts ≤ 3 * depth (plan self.now.net) (pass_in_turn turn).number + self.now.net.width }
    {
        let mut waited = 0;
        for _ in rt.forever() {
            match turn {
                Turn::Through(through) => return self.name(through),
                Turn::Again(entering) => {
                    waited = self.pause(rt, &entering, waited);
                    turn = self.turn(entering);
                }
            }
        }
        unreachable!()
    }

    /// Leaves: gives the card back, clears the seat's bit where it has one, and goes back through the stages of the
    /// party's path, raising each one's counter and then writing its spin word.
    pub fn leave(&self, hold: Hold) -> Out
        requires own { hold.pass.table ≡ self.now }
        ensures same { (result.table ≡ hold.pass.table) × (result.number ≡ hold.pass.number) }
        ensures out { IsOut result }
        ensures got { result.got ≡ hold.pass.got }
        ensures moved { (way : List Pass) × Leads hold.pass way result
            × (length way ≡ back_at (plan self.now.net) hold.pass.number hold.pass.place) }
    {
        self.table.net().laws();
        let mut back = self.table.card_in(hold);
        loop {
            match back {
                Back::Out(out) => return out,
                Back::Leaving(leaving) => back = self.retreat(leaving),
            }
        }
    }

    /// Takes all passes in, and gives the cards back, in the order of their numbers.
    ///
    /// The uses of card s are the number of times that s was taken by the passes, modulo 2^64. So the uses of all cards
    /// together are as many as the numbers that the passes took. Each number of a party is that of one pass. It takes
    /// no memory and waits for nobody.
    pub fn close(self, passes: Vec<Out>) -> Vec<Card>
        requires count { vec_len passes ≡ self.net.parties }
        requires own { All (λ p. p.table ≡ self) passes.items }
        ensures count { vec_len result ≡ self.net.width }
        ensures cards { EachIndex result.items (λ s. slice_get result.items s ≡ Some (used_card passes.items s)) }
        ensures uses { sum_by (λ c. c.uses) result.items % 2 ^ 64 ≡ sum_by (λ p. length p.got) passes.items % 2 ^ 64 }
        ensures numbers { (q : ℕ) → q < self.net.parties → times q (numbers_of passes.items) ≡ 1 }
        ensures below { All (λ p. p.number < self.net.parties) passes.items }
        ensures got { (s : ℕ) → self.net.width ≤ s → times_taken s passes.items ≡ 0 }
    {
        let Seats { table } = self;
        table.close(passes)
    }

    /// Takes one more pass in, for the close. It takes no memory and waits for nobody.
    pub fn gather(&self, gathering: Gathering, out: Out) -> Gathering
        requires gathering { gathering.table ≡ self.now }
        requires own { out.table ≡ self.now }
        ensures table { result.table ≡ self.now }
        ensures numbers { result.numbers ≡ out.number ∷ gathering.numbers }
        ensures got { result.got ≡ gathering.got ++ out.got }
    {
        self.table.gather(gathering, out)
    }

    /// Gives the cards back, in the order of their numbers, once all passes were taken in.
    ///
    /// The uses of card s are the number of times that s was taken by the passes, modulo 2^64. So the uses of all cards
    /// together are as many as the numbers that the passes took. Each number of a party is that of one pass. It takes
    /// no memory and waits for nobody.
    pub fn close_gathered(self, gathering: Gathering) -> Vec<Card>
        requires own { gathering.table ≡ self }
        requires count { length gathering.numbers ≡ self.net.parties }
        ensures count { vec_len result ≡ self.net.width }
        ensures cards { EachIndex result.items (λ s. slice_get result.items s ≡ Some (counted_card gathering.got s)) }
        ensures uses { sum_by (λ c. c.uses) result.items % 2 ^ 64 ≡ length gathering.got % 2 ^ 64 }
        ensures numbers { (q : ℕ) → q < self.net.parties → times q gathering.numbers ≡ 1 }
        ensures below { All (λ q. q < self.net.parties) gathering.numbers }
        ensures got { (s : ℕ) → self.net.width ≤ s → times s gathering.got ≡ 0 }
    {
        let Seats { table } = self;
        table.close_gathered(gathering)
    }

    /// The access that is due among the stages.
    fn access(&self, e: Entering) -> Next
        requires own { e.table ≡ self.now }
        ensures same { ((pass_in_next result).table ≡ e.table) × ((pass_in_next result).number ≡ e.number) }
        ensures due { kind_of (due_at e) ≡ entering }
        ensures moved { Moved e (pass_in_next result) }
        ensures kind { kind_in_next result ≡ kind_of (pass_in_next result).place }
    {
        match e.place() {
            Place::Out | Place::Dec(_) => self.table.dec(e),
            Place::Mark(_) => Next::Entering(self.table.mark(e)),
            Place::Look(_) => self.table.look(e),
            Place::Spin(_) => self.table.spin(e),
            _ => unreachable!(),
        }
    }

    /// The number that the tests give, or that the party has already.
    fn number(&self, t: Through) -> Named
        requires own { (pass_in_through t).table ≡ self.now }
        ensures same { (result.table ≡ (pass_in_through t).table) × (result.number ≡ (pass_in_through t).number) }
        ensures got { result.got ≡ (pass_in_through t).got }
        ensures moved { (way : List Pass) × Leads (pass_in_through t) way result
            × ((s : ℕ) → result.place ≡ Place.Named s → length way ≡ tests_at self.now.net.width s (due_at (pass_in_through t))) }
    {
        match t {
            Through::Naming(naming) => self.test(naming),
            Through::Named(named) => named,
        }
    }

    /// Tests bits until one was not set.
    fn test(&self, mut naming: Naming) -> Named
        requires own { naming.table ≡ self.now }
        ensures same { (result.table ≡ naming.table) × (result.number ≡ naming.number) }
        ensures got { result.got ≡ naming.got }
        ensures moved { (way : List Pass) × Leads naming way result
            × ((s : ℕ) → result.place ≡ Place.Named s → length way ≡ tests_at self.now.net.width s (due_at naming)) }
    {
        self.table.net().laws();
        loop {
            match self.table.test_set(naming) {
                Next::Naming(further) => naming = further,
                Next::Named(named) => return named,
                Next::Entering(_) => unreachable!(),
            }
        }
    }

    /// The access that is due on the way out.
    fn retreat(&self, l: Leaving) -> Back
        requires own { l.table ≡ self.now }
        ensures same { ((pass_in_back result).table ≡ l.table) × ((pass_in_back result).number ≡ l.number) }
        ensures moved { Moved l (pass_in_back result) }
        ensures kind { kind_in_back result ≡ kind_of (pass_in_back result).place }
    {
        match l.place() {
            Place::Clearing(_) => self.table.clear(l),
            Place::Inc(_) => Back::Leaving(self.table.inc(l)),
            Place::Unmark(_) => self.table.unmark(l),
            _ => unreachable!(),
        }
    }

    /// One round of a wait at a spin word, of which there were so many before: a short spin, then a yield, then sleeps
    /// that grow. It gives the rounds with this one, and 0 where the party doesn't wait.
    fn pause<R: Wait>(&self, rt: &R, e: &Entering, waited: u32) -> u32
        requires own { e.now.table ≡ self.now }
    {
        let Place::Spin(_) = e.place() else { return 0 };
        if waited < SPINS {
            hint::spin_loop();
        } else if waited < YIELDS {
            thread::yield_now();
        } else {
            let sleeps = u64::from(waited - YIELDS) + 1;
            let micros = (sleeps * FIRST_NAP_MICROS).min(LONGEST_NAP_MICROS);
            self.table.nap(rt, e, Duration::from_micros(micros));
        }
        waited.saturating_add(1)
    }
}
