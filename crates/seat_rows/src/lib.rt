//! The seats of a pool by rows: which party has one, and whose goes because the party was not heard.
//!
//! Each party has a row, which holds its seat, and a clock has a mark for it, at its last beat or before. A beat doesn't
//! move the mark: once it has come, it is moved to the last beat, or the seat goes, or the party has none any more. So no
//! call goes through the holders, and most don't touch the clock, whose cost grows by a logarithm. All memory is taken
//! when the rows are made.
#![tactic(auto)]

ghost use Rattle.std.specs.Prelude.{◌≡◌, ◌+◌, ◌==◌, ◌<◌, ◌≤◌, [], None, Some, Bool, if◌then◌else◌, IfNone, IfOk, IfSome, count_by, filter, find, length, map, not, replicate};
ghost use Rattle.std.specs.Option.{option_copied};
ghost use Rattle.options_machine.specs.declared.rows.Holder.{Holder};
ghost use Rattle.options_machine.specs.State.{is_holder};
ghost use Rattle.options_machine.specs.Settle.{with_holder};
ghost use Rattle.options_machine.specs.Apply.{told_if};
ghost use Rattle.seat_rows.specs.Rows.{holders_in};
ghost use Rattle.seat_rows.specs.Seats.{IsSeatList, charged_if, is_heard};

mod beats;
mod row;
mod silent;

use beats::Beats;
use lic_types::Client;
pub use no_memory::NoMemory;
use options_machine::{Charge, Holder};
use row::Row;
use silent::next_silent;
use std::alloc::Global;
use std::marker::Model;

/// The seats that parties hold. A clause sees the number of parties, and the holders in order of party.
#[derive(Drop)]
pub struct SeatRows {
    // The seat of each party, by its number.
    rows: Vec<Row>,
    held: u32,
    // A mark for each holder, at its last beat or before. It isn't the end of a timeout, so a new timeout changes
    // nothing here.
    beats: Beats,
}

impl Model for SeatRows {
    ghost use Rattle.seat_rows.specs.Seats.{SeatList};
    ghost use Rattle.seat_rows.specs.Rows.{AreKept, seat_list};

    ghost Value = { SeatList };

    ghost view = { λ s. seat_list s.rows.items };

    ghost invariant = { λ s. AreKept s.rows.items s.held s.beats };
}

/// The rows of this many parties, none of which has a seat. The one error is want of memory.
fn vacant_rows(alloc: Global, parties: usize) -> Result<Vec<Row>, NoMemory>
    ensures { IfOk result (λ rows. rows.items ≡ replicate parties None) }
{
    let mut rows = Vec::with_capacity(alloc, parties)?;
    for _ in 0..parties {
        rows.push_reserved(Row::vacant());
    }
    Ok(rows)
}

/// The holders in rows, one after another. The one error is want of memory.
fn holders_in(alloc: Global, rows: &[Row]) -> Result<Vec<Holder>, NoMemory>
    ensures { IfOk result (λ list. list.items ≡ holders_in rows.now) }
{
    let mut list = Vec::new(alloc);
    for row in rows {
        if let Some(holder) = row.holder() {
            list.push(*holder)?;
        }
    }
    Ok(list)
}

impl SeatRows {
    /// Rows for this many parties, none of which has a seat yet. All memory is taken here, and no other call takes any.
    /// `NoMemory` comes where there was too little.
    pub fn make(alloc: Global, parties: u32) -> Result<Self, NoMemory>
        requires { parties ≤ 256 }
        ensures { IfOk result (λ seats. seats ≡ record { parties = parties; holders = [] }) }
    {
        let rows = vacant_rows(alloc, parties as usize)?;
        let beats = Beats::make(alloc, parties)?;
        Ok(SeatRows {
            rows,
            held: 0,
            beats,
        })
    }

    /// For how many parties there are rows. Their numbers are those below it.
    pub fn parties(&self) -> u32
        ensures count { result ≡ self.now.parties }
        ensures kept { IsSeatList self.now }
    {
        self.rows.len() as u32
    }

    /// How many parties have a seat.
    pub fn len(&self) -> u32
        ensures { result ≡ length self.now.holders }
    {
        self.held
    }

    /// Whether no party has a seat.
    pub fn is_empty(&self) -> bool
        ensures { result ≡ (length self.now.holders == 0) }
    {
        self.held == 0
    }

    /// The seat of a party; `None` where it has none.
    pub fn get(&self, party: u32) -> Option<&Holder>
        requires { party < self.now.parties }
        ensures seat { option_copied result ≡ find (is_holder party) self.now.holders }
        ensures kept { IsSeatList self.now }
    {
        self.rows[party as usize].holder()
    }

    /// All seats, in order of party. The one error is want of memory.
    pub fn list(&self, alloc: Global) -> Result<Vec<Holder>, NoMemory>
        ensures { IfOk result (λ list. list.items ≡ self.now.holders) }
    {
        holders_in(alloc, self.rows.as_slice())
    }

    /// Gives a party that has none a seat of this client, with this charge. It was heard at the moment `beat`, in seconds
    /// since 1970-01-01 UTC, and it was told of the seat or not.
    pub fn put(&mut self, party: u32, client: &Client, charge: Charge, beat: u64, told: bool)
        requires party { party < self.old.parties }
        requires none { find (is_holder party) self.old.holders ≡ None }
        ensures { self.new ≡ record self.old { holders = with_holder (record { party = party; client = client.now; charge = charge; beat = beat; told = told }) self.old.holders } }
    {
        self.rows[party as usize].put(party, client, charge, beat, told);
        self.held += 1;
        self.beats.note(party as usize, beat);
    }

    /// Takes the party's seat away, if it has one.
    pub fn take(&mut self, party: u32)
        requires { party < self.old.parties }
        ensures { self.new ≡ record self.old { holders = filter (λ h. not (is_holder party h)) self.old.holders } }
    {
        let row = &mut self.rows[party as usize];
        if row.holder().is_some() {
            row.clear();
            self.held -= 1;
        }
    }

    /// Tells the party of its seat, or hears it, at the moment `now`, in seconds since 1970-01-01 UTC. Nothing changes
    /// where it has no seat.
    pub fn tell(&mut self, party: u32, now: u64)
        requires { party < self.old.parties }
        ensures { self.new ≡ record self.old { holders = map (λ h. told_if (is_holder party h) now h) self.old.holders } }
    {
        if self.rows[party as usize].tell(now) {
            self.beats.note(party as usize, now);
        }
    }

    /// Charges the party's seat anew. Nothing changes where it has none.
    pub fn set_charge(&mut self, party: u32, charge: Charge)
        requires { party < self.old.parties }
        ensures { self.new ≡ record self.old { holders = map (λ h. charged_if (is_holder party h) charge h) self.old.holders } }
    {
        self.rows[party as usize].set_charge(charge);
    }

    /// Takes away the seat of one party that was not heard after the moment `over`, in seconds since 1970-01-01 UTC,
    /// and gives it; `None` where every holder was heard after it, and then nothing has changed.
    pub fn let_one_go(&mut self, over: u64) -> Option<Holder>
        ensures seat { IfSome result (λ h. find (is_holder h.party) self.old.holders ≡ Some h) }
        ensures silent { IfSome result (λ h. h.beat ≤ over) }
        ensures gone { IfSome result (λ h. self.new ≡ record self.old { holders = filter (λ g. not (is_holder h.party g)) self.old.holders }) }
        ensures fewer { IfSome result (λ _. length self.new.holders + 1 ≡ length self.old.holders) }
        ensures counts { (test : Holder → Bool) → IfSome result (λ h. count_by test self.new.holders + (if test h then 1 else 0) ≡ count_by test self.old.holders) }
        ensures stay { filter (is_heard over) self.new.holders ≡ filter (is_heard over) self.old.holders }
        ensures none { IfNone result (self.new ≡ self.old) }
        ensures heard { IfNone result (filter (is_heard over) self.old.holders ≡ self.old.holders) }
    {
        let party = next_silent(self.rows.as_slice(), &mut self.beats, over)?;
        let row = &mut self.rows[party];
        let gone = row.holder().copied();
        row.clear();
        self.held -= 1;
        gone
    }
}
