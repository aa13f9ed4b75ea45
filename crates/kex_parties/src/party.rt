//! A party's pass at whatever place it stands, and its next access.
ghost use Rattle.std.specs.Prelude.{◌≡◌, Some};
ghost use Rattle.kex_words.specs.Passes.{due_at, kind_of, entering, leaving};
ghost use Rattle.kex_words.specs.Moves.{Moved};
ghost use Rattle.kex_words.specs.Sorts.{pass_in_back, pass_in_next, kind_in_back, kind_in_next};
ghost use Rattle.kex_parties.specs.Standings.{IsAt, IsOf, Moves};

use kex_core::Place;
use kex_words::{Back, Entering, Hold, KexTable, Leaving, Named, Naming, Next, Out};
use std::marker::Model;
use std::mem;

/// A pass of one of the types.
#[derive(Drop)]
enum Standing {
    Out(Out),
    Entering(Entering),
    Naming(Naming),
    Named(Named),
    Holding(Hold),
    Leaving(Leaving),
}

/// A party of a table of running words, at whatever place it stands.
///
/// Contracts see its `Pass`, or None while it makes an access.
#[derive(Drop)]
pub struct Party {
    standing: Option<Standing>,
}

impl Model for Party {
    ghost use Rattle.std.specs.Prelude.{Option, Some, None};
    ghost use Rattle.kex_words.specs.Passes.{Pass};
    ghost use Rattle.kex_parties.specs.declared.party.Standing.TheVariants.{Out, Entering, Naming, Named, Holding, Leaving};

    ghost Value = { Option Pass };

    ghost view = { λ p. elim p.standing [ None ↦ None | Some s ↦ Some (elim s [ Out o ↦ o | Entering e ↦ e | Naming n ↦ n | Named n ↦ n | Holding h ↦ h.pass | Leaving l ↦ l ]) ] };
}

impl Party {
    /// The party of a pass that is Out.
    pub fn of(out: Out) -> Party
        ensures { result ≡ Some out }
    {
        Party {
            standing: Some(Standing::Out(out)),
        }
    }

    /// Where the party stands.
    pub fn place(&self) -> Place
        ensures { IsAt self.now result }
    {
        match &self.standing {
            Some(Standing::Entering(entering)) => entering.place(),
            Some(Standing::Naming(naming)) => naming.place(),
            Some(Standing::Named(named)) => named.place(),
            Some(Standing::Holding(hold)) => Place::Holding(hold.seat()),
            Some(Standing::Leaving(leaving)) => leaving.place(),
            Some(Standing::Out(out)) => {
                let _number = out.number();
                Place::Out
            }
            None => Place::Out,
        }
    }

    /// Makes the one access that is due.
    pub fn step(&mut self, table: &KexTable)
        requires own { IsOf table.now self.old }
        ensures own { IsOf table.now self.new }
        ensures moved { Moves self.old self.new }
    {
        let party = mem::replace(self, Party { standing: None });
        *self = party.stepped(table);
    }

    /// The party after its next access.
    fn stepped(self, table: &KexTable) -> Party
        requires own { IsOf table.now self }
        ensures own { IsOf table.now result }
        ensures moved { Moves self result }
    {
        match self.standing {
            Some(Standing::Out(out)) => begun(table, out),
            Some(Standing::Entering(entering)) => Party::ahead(entered(table, entering)),
            Some(Standing::Naming(naming)) => Party::ahead(table.test_set(naming)),
            Some(Standing::Named(named)) => Party::held(table.card_out(named)),
            Some(Standing::Holding(hold)) => Party::behind(table.card_in(hold)),
            Some(Standing::Leaving(leaving)) => Party::behind(left(table, leaving)),
            None => unreachable!(),
        }
    }

    /// The party of what an access on the way in led to.
    fn ahead(next: Next) -> Party
        ensures { result ≡ Some (pass_in_next next) }
    {
        let standing = match next {
            Next::Entering(entering) => Standing::Entering(entering),
            Next::Naming(naming) => Standing::Naming(naming),
            Next::Named(named) => Standing::Named(named),
        };
        Party {
            standing: Some(standing),
        }
    }

    /// The party that holds a seat.
    fn held(hold: Hold) -> Party
        ensures { result ≡ Some hold.pass }
    {
        Party {
            standing: Some(Standing::Holding(hold)),
        }
    }

    /// The party of what an access on the way out led to.
    fn behind(back: Back) -> Party
        ensures { result ≡ Some (pass_in_back back) }
    {
        let standing = match back {
            Back::Leaving(leaving) => Standing::Leaving(leaving),
            Back::Out(out) => Standing::Out(out),
        };
        Party {
            standing: Some(standing),
        }
    }
}

/// The first access of a party that was Out.
fn begun(table: &KexTable, out: Out) -> Party
    requires own { out.table ≡ table.now }
    ensures own { IsOf table.now result }
    ensures moved { Moves (Some out) result }
{
    match table.begin(out) {
        Next::Entering(entering) => Party::ahead(entered(table, entering)),
        Next::Naming(naming) => Party::ahead(table.test_set(naming)),
        Next::Named(named) => Party::held(table.card_out(named)),
    }
}

/// The access that is due among the stages.
fn entered(table: &KexTable, entering: Entering) -> Next
    requires own { entering.table ≡ table.now }
    ensures own { (pass_in_next result).table ≡ table.now }
    ensures moved { Moved entering (pass_in_next result) }
{
    match entering.place() {
        Place::Out | Place::Dec(_) => table.dec(entering),
        Place::Mark(_) => Next::Entering(table.mark(entering)),
        Place::Look(_) => table.look(entering),
        Place::Spin(_) => table.spin(entering),
        _ => unreachable!(),
    }
}

/// The access that is due on the way out.
fn left(table: &KexTable, leaving: Leaving) -> Back
    requires own { leaving.table ≡ table.now }
    ensures own { (pass_in_back result).table ≡ table.now }
    ensures moved { Moved leaving (pass_in_back result) }
{
    match leaving.place() {
        Place::Clearing(_) => table.clear(leaving),
        Place::Inc(_) => Back::Leaving(table.inc(leaving)),
        Place::Unmark(_) => table.unmark(leaving),
        _ => unreachable!(),
    }
}
