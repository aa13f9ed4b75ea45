//! A table with all its parties.
ghost use Rattle.std.specs.Prelude.{◌≡◌, ◌<◌, All, IfOk, None, length, map, vec_len, slice_index_or, slice_set};
ghost use Rattle.kex_parties.specs.Standings.{AreRested, IsAt, IsOf, Moves};

use crate::party::Party;
use kex_core::{Net, NoMemory, Place};
use kex_words::{KexTable, Out};
use std::alloc::Global;
use std::marker::Model;

/// A table of running words with all its parties. Each makes its next access when it is told to, in one thread.
///
/// Contracts see them as a `PartiesView`: the `table`, and each party's pass, as `Party` shows it.
#[derive(Drop)]
pub struct Parties {
    table: KexTable,
    parties: Vec<Party>,
    ghost own: { All (IsOf table) parties.items },
    ghost count: { vec_len parties ≡ table.net.parties },
}

impl Model for Parties {
    ghost use Rattle.kex_parties.specs.Standings.{PartiesView};

    ghost Value = { PartiesView };

    ghost view = { λ p. record { table = p.table; parties = p.parties.items } };
}

impl Parties {
    /// A new table of a net, and its parties, all of which are Out.
    ///
    /// NoMemory where there is not so much.
    pub fn make(alloc: Global, net: Net) -> Result<Parties, NoMemory>
        ensures net { IfOk result (λ p. p.table.net ≡ net) }
        ensures rested { IfOk result (λ p. AreRested p) }
    {
        let (table, passes) = KexTable::make(alloc, net)?;
        let parties = parties_of(alloc, &table, passes)?;
        Ok(Parties { table, parties })
    }

    /// The net of the table.
    pub fn net(&self) -> &Net
        ensures { result.now ≡ self.now.table.net }
    {
        self.table.net()
    }

    /// Where this party stands.
    pub fn place(&self, party: u32) -> Place
        requires { party < self.now.table.net.parties }
        ensures { IsAt (slice_index_or self.now.parties party None) result }
    {
        self.parties[party as usize].place()
    }

    /// Makes this party's next access, by the step call that is due.
    pub fn step(&mut self, party: u32)
        requires { party < self.old.table.net.parties }
        ensures table { self.new.table ≡ self.old.table }
        ensures moved { Moves (slice_index_or self.old.parties party None) (slice_index_or self.new.parties party None) }
        ensures others { self.new.parties ≡ slice_set self.old.parties party (slice_index_or self.new.parties party None) }
    {
        self.parties[party as usize].step(&self.table);
    }
}

/// The parties of these passes.
fn parties_of(alloc: Global, table: &KexTable, passes: Vec<Out>) -> Result<Vec<Party>, NoMemory>
    requires { All (λ p. p.table ≡ table.now) passes.items }
    ensures own { IfOk result (λ v. All (IsOf table.now) v.items) }
    ensures parties { IfOk result (λ v. v.items ≡ map Some passes.items) }
{
    Ok(passes.into_iter().map(Party::of).collect(alloc)?)
}
