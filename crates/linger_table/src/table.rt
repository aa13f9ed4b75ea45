//! The table of the seats that linger.
ghost use Rattle.std.specs.Prelude.{◌≡◌, ◌+◌, ◌<◌, ◌≤◌, ◌++◌, ◌∷◌, [], Bool, if◌then◌else◌, count_by, filter, find, length, slice_get, slice_set, IfOk, IfSome, IfNone};
ghost use Rattle.lic_types.specs.declared.limits.TheConstants.{LINGER_LIMIT};
ghost use Rattle.options_machine.specs.Decide.{is_left_by};
ghost use Rattle.options_machine.specs.Settle.{without_first};
ghost use Rattle.options_machine.specs.declared.rows.Lingerer.{Lingerer};
ghost use Rattle.linger_table.specs.Table.{LingeringList, TakesOneOut, stays_at};

use crate::gaps::{close_gaps, make_way};
use crate::slots::Slots;
use lic_types::Client;
use no_memory::NoMemory;
use options_machine::{Charge, Lingerer};
use std::alloc::Global;
use std::marker::Model;

/// The seats of a pool that linger. A clause sees for how many there is room, and the entries in the order in which
/// they came.
#[derive(Drop)]
pub struct LingerTable {
    slots: Slots,
}

impl Model for LingerTable {
    ghost use Rattle.linger_table.specs.Slots.{entries_in};
    ghost use Rattle.linger_table.specs.Table.{LingeringList};

    ghost Value = { LingeringList };

    ghost view = { λ t. record { room = t.slots.room; entries = entries_in t.slots.slots } };
}

impl LingerTable {
    /// An empty table with room for `room` entries. All its memory is taken here, and no other call takes any.
    /// `NoMemory` comes where there was too little.
    pub fn make(alloc: Global, room: u32) -> Result<LingerTable, NoMemory>
        requires { room ≤ LINGER_LIMIT }
        ensures { IfOk result (λ table. table ≡ record { room = room; entries = [] }) }
    {
        Ok(LingerTable {
            slots: Slots::make(alloc, room)?,
        })
    }

    /// How many entries there are.
    pub fn len(&self) -> u32
        ensures len { result ≡ length self.now.entries }
        ensures within { length self.now.entries ≤ self.now.room }
    {
        self.slots.len()
    }

    /// The entry at a place in the order of coming, from 0; `None` exactly where there are no more than `at` entries.
    /// It takes a search through the slots, unless there are no gaps between the entries, as after `compact`.
    pub fn get(&self, at: u32) -> Option<Lingerer>
        ensures { result ≡ slice_get self.now.entries at }
    {
        if at < self.slots.len() {
            self.slots.at(self.slots.slot_of(at))
        } else {
            None
        }
    }

    /// The first entry of a client that is the same in all four names; `None` where there is none.
    pub fn first(&self, client: &Client) -> Option<Lingerer>
        ensures { result ≡ find (is_left_by client.now) self.now.entries }
    {
        match self.slots.first_of(client) {
            None => None,
            Some(at) => self.slots.at(at),
        }
    }

    /// One more entry, which comes last. There must be room for it.
    pub fn push(&mut self, entry: &Lingerer)
        requires { length self.old.entries < self.old.room }
        ensures { self.new ≡ record self.old { entries = self.old.entries ++ entry.now ∷ [] } }
    {
        make_way(&mut self.slots);
        let at = self.slots.count();
        self.slots.grow();
        self.slots.put(at, entry);
    }

    /// The first entry of a client goes, whatever its time; where there is none, nothing changes.
    pub fn take(&mut self, client: &Client)
        ensures { self.new ≡ record self.old { entries = without_first (is_left_by client.now) self.old.entries } }
    {
        if let Some(at) = self.slots.first_of(client) {
            self.slots.clear(at);
        }
    }

    /// Takes out one entry whose time is up at the moment `now`, in seconds since 1970-01-01 UTC: one that waits until
    /// `now` or until an earlier moment. `None` comes where no entry's time is up, and then nothing has changed.
    pub fn let_one_go(&mut self, now: u64) -> Option<Lingerer>
        ensures over { IfSome result (λ l. l.until ≤ now) }
        ensures taken_out { IfSome result (λ l. TakesOneOut l self.old.entries self.new.entries) }
        ensures fewer { IfSome result (λ l. (f : Lingerer → Bool) → count_by f self.new.entries + (if f l then 1 else 0) ≡ count_by f self.old.entries) }
        ensures same { filter (stays_at now) self.new.entries ≡ filter (stays_at now) self.old.entries }
        ensures room { self.new.room ≡ self.old.room }
        ensures none { IfNone result (self.new ≡ self.old) }
        ensures all_stay { IfNone result (filter (stays_at now) self.old.entries ≡ self.old.entries) }
    {
        self.slots.let_one_go(now)
    }

    /// Gives the entry at a place in the order of coming another charge. It takes as long as `get`.
    pub fn set_charge(&mut self, at: u32, charge: Charge)
        requires { at < length self.old.entries }
        ensures { IfSome (slice_get self.old.entries at) (λ l. self.new ≡ record self.old { entries = slice_set self.old.entries at (record l { charge = charge }) }) }
    {
        let slot = self.slots.slot_of(at);
        self.slots.set_charge(slot, charge);
    }

    /// Closes the gaps between the entries, so that `get` and `set_charge` find their entry without a search until one
    /// goes. Nothing that a clause sees changes.
    pub fn compact(&mut self)
        ensures { self.new ≡ self.old }
    {
        close_gaps(&mut self.slots);
    }
}
