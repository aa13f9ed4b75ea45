//! The passes of a table, of one type for each kind of place.
//!
//! None can be copied, and only the calls of a [`KexTable`](crate::KexTable) make them. Contracts see a pass as a
//! `Pass`: the `table` that it is of, its party's `number` and `place`, the accesses since the party was last Out,
//! `firsts` but for reads of spin words and `spins` for these, and `got`, the numbers that the party took, in order.
ghost use Rattle.std.specs.Prelude.{◌≡◌, ◌⊎◌, ◌<◌};
ghost use Rattle.kex_core.specs.declared.place.Place.TheVariants.{Holding};
ghost use Rattle.kex_words.specs.Passes.{Pass, Held, IsOut, EntersAt, kind_of, due_at, entering, naming, named, leaving, outside};
ghost use Rattle.kex_words.specs.Sorts.{pass_in_next, pass_in_back, kind_in_next, kind_in_back};

use crate::card::Card;
use crate::table::WordSeat;
use kex_core::Place;
use std::marker::Model;

/// A seat that has a party's view and no card.
#[derive(Drop)]
pub(crate) struct Seated {
    pub number: u32,
    pub place: Place,
    pub seat: WordSeat,
}

impl Model for Seated {
    ghost use Rattle.std.specs.Prelude.{◌≡◌};
    ghost use Rattle.kex_words.specs.Passes.{Pass};
    ghost use Rattle.kex_words.specs.Steps.{pass_of, IsPass};

    ghost Value = { Pass };

    ghost view = { λ s. pass_of s.seat.table_id s.seat.me.0 };

    ghost invariant = { λ s. IsPass (pass_of s.seat.table_id s.seat.me.0) s.seat.me × (s.number ≡ (pass_of s.seat.table_id s.seat.me.0).number) × (s.place ≡ s.seat.me.0.place) };
}

/// The pass of a party that is Out.
#[derive(Drop)]
pub struct Out {
    pub(crate) seated: Seated,
}

impl Model for Out {
    ghost use Rattle.std.specs.Prelude.{◌≡◌};
    ghost use Rattle.kex_words.specs.Passes.{Pass, IsOut};

    ghost Value = { Pass };

    ghost view = { λ o. o.seated };

    ghost invariant = { λ o. IsOut o.seated };
}

/// The pass of a party among the stages on its way in. It may still be at Out, where the access of its start is due.
#[derive(Drop)]
pub struct Entering {
    pub(crate) seated: Seated,
}

impl Model for Entering {
    ghost use Rattle.std.specs.Prelude.{◌≡◌};
    ghost use Rattle.kex_words.specs.Passes.{Pass, kind_of, due_at, entering};

    ghost Value = { Pass };

    ghost view = { λ e. e.seated };

    ghost invariant = { λ e. kind_of (due_at e.seated) ≡ entering };
}

/// The pass of a party that tests bits. It may still be at Out, where the test of bit 0 is due.
#[derive(Drop)]
pub struct Naming {
    pub(crate) seated: Seated,
}

impl Model for Naming {
    ghost use Rattle.std.specs.Prelude.{◌≡◌};
    ghost use Rattle.kex_words.specs.Passes.{Pass, kind_of, due_at, naming};

    ghost Value = { Pass };

    ghost view = { λ n. n.seated };

    ghost invariant = { λ n. kind_of (due_at n.seated) ≡ naming };
}

/// The pass of a party that has a number and not its card yet.
#[derive(Drop)]
pub struct Named {
    pub(crate) seated: Seated,
}

impl Model for Named {
    ghost use Rattle.std.specs.Prelude.{◌≡◌};
    ghost use Rattle.kex_words.specs.Passes.{Pass, kind_of, named};

    ghost Value = { Pass };

    ghost view = { λ n. n.seated };

    ghost invariant = { λ n. kind_of n.seated.place ≡ named };
}

/// The pass of a party that holds a seat. It owns the seat's card.
///
/// Contracts see it as a `Held`: the `pass` and the `card`.
#[derive(Drop)]
pub struct Hold {
    pub(crate) number: u32,
    pub(crate) card: Card,
    pub(crate) seat: WordSeat,
}

impl Model for Hold {
    ghost use Rattle.std.specs.Prelude.{◌≡◌};
    ghost use Rattle.kex_words.specs.Passes.{Held};
    ghost use Rattle.kex_words.specs.Steps.{held_of, IsHolder};

    ghost Value = { Held };

    ghost view = { λ h. held_of h.seat.table_id h.seat.me.0 };

    ghost invariant = { λ h. IsHolder (held_of h.seat.table_id h.seat.me.0) h.seat.me × (h.number ≡ (held_of h.seat.table_id h.seat.me.0).pass.number) × (h.card ≡ (held_of h.seat.table_id h.seat.me.0).card) };
}

/// The pass of a party that leaves.
#[derive(Drop)]
pub struct Leaving {
    pub(crate) seated: Seated,
}

impl Model for Leaving {
    ghost use Rattle.std.specs.Prelude.{◌≡◌};
    ghost use Rattle.kex_words.specs.Passes.{Pass, kind_of, leaving};

    ghost Value = { Pass };

    ghost view = { λ l. l.seated };

    ghost invariant = { λ l. kind_of l.seated.place ≡ leaving };
}

/// What an access on the way in leads to.
#[derive(Drop)]
pub enum Next {
    /// An access to a stage is due.
    Entering(Entering),
    /// A test of a bit is due.
    Naming(Naming),
    /// The party has its number, and its card is due.
    Named(Named),
}

/// What an access on the way out leads to.
#[derive(Drop)]
pub enum Back {
    /// The party has not left yet.
    Leaving(Leaving),
    /// The party is Out.
    Out(Out),
}

impl Seated {
    /// Sorts a pass on its way in by the access that is due.
    pub(crate) fn sorted(self, due: Place) -> Next
        requires due { due ≡ due_at self }
        requires inside { (kind_of due ≡ entering) ⊎ (kind_of due ≡ naming) ⊎ ((kind_of due ≡ named) × (self.place ≡ due)) }
        ensures same { pass_in_next result ≡ self }
        ensures kind { kind_in_next result ≡ kind_of due }
    {
        match due {
            Place::Dec(_) | Place::Mark(_) | Place::Look(_) | Place::Spin(_) => {
                Next::Entering(Entering { seated: self })
            }
            Place::Naming(_) => Next::Naming(Naming { seated: self }),
            Place::Named(_) => Next::Named(Named { seated: self }),
            _ => unreachable!(),
        }
    }

    /// Sorts a pass on its way out by its place.
    pub(crate) fn left(self) -> Back
        requires outward { (kind_of self.place ≡ leaving) ⊎ ((kind_of self.place ≡ outside) × (self.firsts ≡ 0) × (self.spins ≡ 0)) }
        ensures same { pass_in_back result ≡ self }
        ensures kind { kind_in_back result ≡ kind_of self.place }
    {
        match self.place {
            Place::Clearing(_) | Place::Inc(_) | Place::Unmark(_) => {
                Back::Leaving(Leaving { seated: self })
            }
            Place::Out => Back::Out(Out { seated: self }),
            _ => unreachable!(),
        }
    }
}

impl Out {
    /// The number of the party: pass i of [`KexTable::make`](crate::KexTable::make) has the number i.
    pub fn number(&self) -> u32
        ensures number { result ≡ self.now.number }
        ensures rests { IsOut self.now }
    {
        self.seated.number
    }
}

impl Entering {
    /// The number of the party.
    pub fn number(&self) -> u32
        ensures { result ≡ self.now.number }
    {
        self.seated.number
    }

    /// Where the party stands: at Out, Dec, Mark, Look or Spin. At Out and at Dec the access of `dec` is due, at the
    /// others that of their name.
    pub fn place(&self) -> Place
        ensures place { result ≡ self.now.place }
        ensures kind { kind_of (due_at self.now) ≡ entering }
        ensures due { EntersAt self.now result }
    {
        self.seated.place
    }
}

impl Naming {
    /// The number of the party.
    pub fn number(&self) -> u32
        ensures { result ≡ self.now.number }
    {
        self.seated.number
    }

    /// Where the party stands: at Out or Naming.
    pub fn place(&self) -> Place
        ensures place { result ≡ self.now.place }
        ensures kind { kind_of (due_at self.now) ≡ naming }
    {
        self.seated.place
    }
}

impl Named {
    /// The number of the party.
    pub fn number(&self) -> u32
        ensures number { result ≡ self.now.number }
        ensures kind { kind_of self.now.place ≡ named }
    {
        self.seated.number
    }

    /// Where the party stands: at Named.
    pub fn place(&self) -> Place
        ensures place { result ≡ self.now.place }
        ensures kind { kind_of self.now.place ≡ named }
    {
        self.seated.place
    }
}

impl Hold {
    /// The number of the party.
    pub fn number(&self) -> u32
        ensures { result ≡ self.now.pass.number }
    {
        self.number
    }

    /// The number of the seat that is held: that of its card.
    pub fn seat(&self) -> u32
        ensures card { result ≡ self.now.card.number }
        ensures place { self.now.pass.place ≡ Holding result }
        ensures low { result < self.now.pass.table.net.width }
    {
        self.card.number
    }

    /// How often the seat's card was taken out, this time among them, modulo 2^64.
    pub fn uses(&self) -> u64
        ensures { result ≡ self.now.card.uses }
    {
        self.card.uses
    }
}

impl Leaving {
    /// The number of the party.
    pub fn number(&self) -> u32
        ensures { result ≡ self.now.number }
    {
        self.seated.number
    }

    /// Where the party stands: at Clearing, Inc or Unmark.
    pub fn place(&self) -> Place
        ensures place { result ≡ self.now.place }
        ensures kind { kind_of self.now.place ≡ leaving }
    {
        self.seated.place
    }
}
