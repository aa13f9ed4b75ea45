//! Slots for seats that linger, with a mark and a deadline for each seat.
ghost use Rattle.std.specs.Prelude.{◌≡◌, ◌+◌, ◌*◌, ◌<◌, ◌≤◌, ◌++◌, ◌∷◌, [], None, Some, false, ◌==◌, ◌&&◌, filter, length, take, slice_index_or, slice_set, zip, IfOk, IfSome, IfNone, IsTrue};
ghost use Rattle.std.specs.List.{position};
ghost use Rattle.lic_types.specs.declared.limits.TheConstants.{LINGER_LIMIT};
ghost use Rattle.linger_table.specs.Slots.{HasEntry, HasNoneFrom, LetsSlotGo, SlotList, entries_in, slot_is_of, slot_of};
ghost use Rattle.linger_table.specs.Table.{stays_at};

use crate::marks::mark_of;
use lic_types::Client;
use linger_clock::Clock;
use no_memory::NoMemory;
use options_machine::{Charge, Lingerer};
use std::alloc::Global;
use std::marker::Model;

/// Slots, each of which is empty or has a seat that lingers. The number of a slot is the seat's owner number in the
/// clock. A clause sees for how many seats there is room, and the slots. There may be twice as many slots as there is
/// room for seats.
#[derive(Drop)]
pub struct Slots {
    room: u32,
    len: u32,
    slots: Vec<Option<Lingerer>>,
    marks: Vec<u64>,
    clock: Clock,
}

impl Model for Slots {
    ghost use Rattle.std.specs.Prelude.{vec_capacity};
    ghost use Rattle.linger_table.specs.Slots.{IsKept, SlotList};

    ghost Value = { SlotList };

    ghost view = { λ s. record { room = s.room; slots = s.slots.items } };

    ghost invariant = { λ s. IsKept s.room s.len s.slots.items s.marks.items (vec_capacity s.slots) (vec_capacity s.marks) s.clock };
}

/// Whether a slot has an entry of the client.
fn is_of(slot: &Option<Lingerer>, client: &Client) -> bool
    ensures { result ≡ slot_is_of client.now slot.now }
{
    match slot {
        None => false,
        Some(entry) => entry.client == *client,
    }
}

/// The first slot that has the mark and an entry of the client.
fn first_marked(
    marks: &[u64],
    slots: &[Option<Lingerer>],
    mark: u64,
    client: &Client,
) -> Option<usize>
    ensures { result ≡ position (λ p. p.0 == mark && slot_is_of client.now p.1) (zip marks.now slots.now) }
{
    marks
        .iter()
        .zip(slots.iter())
        .position(|(own, slot)| *own == mark && is_of(slot, client))
}

impl Slots {
    /// No slots yet, for this many seats.
    pub fn make(alloc: Global, room: u32) -> Result<Slots, NoMemory>
        requires { room ≤ LINGER_LIMIT }
        ensures { IfOk result (λ slots. slots ≡ record { room = room; slots = [] }) }
    {
        let most = 2 * room as usize;
        let slots = Vec::with_capacity(alloc, most)?;
        let marks = Vec::with_capacity(alloc, most)?;
        let clock = Clock::make(alloc, room)?;
        Ok(Slots {
            room,
            len: 0,
            slots,
            marks,
            clock,
        })
    }

    /// How many seats linger.
    pub fn len(&self) -> u32
        ensures len { result ≡ length (entries_in self.now.slots) }
        ensures within { result ≤ self.now.room }
    {
        self.len
    }

    /// How many slots there are, empty or not.
    pub fn count(&self) -> usize
        ensures count { result ≡ length self.now.slots }
        ensures within { result ≤ 2 * self.now.room }
        ensures few { self.now.room ≤ LINGER_LIMIT }
    {
        self.slots.len()
    }

    /// Whether the gaps should be closed before another seat comes: where no slot is left, and where more slots are
    /// empty than not, and more than a few.
    pub fn is_crowded(&self) -> bool
        ensures { result ≡ false → length self.now.slots < 2 * self.now.room }
    {
        let count = self.slots.len();
        count == 2 * self.room as usize || count >= 2 * self.len as usize + FEW_GAPS
    }

    /// What a slot has.
    pub fn at(&self, at: usize) -> Option<Lingerer>
        requires { at < length self.now.slots }
        ensures { result ≡ slice_index_or self.now.slots at None }
    {
        self.slots[at]
    }

    /// The first slot with an entry of the client.
    pub fn first_of(&self, client: &Client) -> Option<usize>
        ensures { result ≡ position (slot_is_of client.now) self.now.slots }
    {
        // The mark of the client costs more than the look whether there are any.
        if self.slots.is_empty() {
            return None;
        }
        first_marked(
            self.marks.as_slice(),
            self.slots.as_slice(),
            mark_of(client),
            client,
        )
    }

    /// One more slot, which is empty.
    pub fn grow(&mut self)
        requires { length self.old.slots < 2 * self.old.room }
        ensures { self.new ≡ record self.old { slots = self.old.slots ++ None ∷ [] } }
    {
        self.slots.push_reserved(None);
        self.marks.push_reserved(0);
    }

    /// Puts an entry into an empty slot.
    pub fn put(&mut self, at: usize, entry: &Lingerer)
        requires within { at < length self.old.slots }
        requires empty { slice_index_or self.old.slots at None ≡ None }
        requires room { length (entries_in self.old.slots) < self.old.room }
        ensures { self.new ≡ record self.old { slots = slice_set self.old.slots at (Some entry.now) } }
    {
        self.slots[at] = Some(*entry);
        self.marks[at] = mark_of(&entry.client);
        self.len += 1;
        match self.clock.add(at as u64, entry.until) {
            Ok(()) => {}
            Err(_) => unreachable!(),
        }
    }

    /// Empties a slot that has an entry.
    pub fn clear(&mut self, at: usize)
        requires { HasEntry self.old.slots at }
        ensures slots { self.new ≡ record self.old { slots = slice_set self.old.slots at None } }
        ensures room { length (entries_in self.new.slots) < self.new.room }
    {
        let _until = self.clock.remove(at as u64);
        self.slots[at] = None;
        self.marks[at] = 0;
        self.len -= 1;
    }

    /// Only the slots in front of this one stay; all others are empty.
    pub fn shrink(&mut self, to: usize)
        requires { HasNoneFrom to self.old.slots }
        ensures { self.new ≡ record self.old { slots = take to self.old.slots } }
    {
        self.slots.truncate(to);
        self.marks.truncate(to);
    }

    /// Gives the entry of a slot another charge.
    pub fn set_charge(&mut self, at: usize, charge: Charge)
        requires { HasEntry self.old.slots at }
        ensures { IfSome (slice_index_or self.old.slots at None) (λ l. self.new ≡ record self.old { slots = slice_set self.old.slots at (Some (record l { charge = charge })) }) }
    {
        let Some(entry) = self.slots[at] else {
            unreachable!()
        };
        self.slots[at] = Some(Lingerer { charge, ..entry });
    }

    /// Empties the slot whose entry's time is up first, where one is up at the moment, and gives the entry.
    pub fn let_one_go(&mut self, now: u64) -> Option<Lingerer>
        ensures gone { IfSome result (LetsSlotGo self.old self.new) }
        ensures over { IfSome result (λ l. l.until ≤ now) }
        ensures none { IfNone result (self.new ≡ self.old) }
        ensures all_stay { IfNone result (filter (stays_at now) (entries_in self.old.slots) ≡ entries_in self.old.slots) }
    {
        match self.clock.settle(now) {
            None => None,
            Some(owner) => {
                let at = owner as usize;
                let Some(entry) = self.slots[at] else {
                    unreachable!()
                };
                self.slots[at] = None;
                self.marks[at] = 0;
                self.len -= 1;
                Some(entry)
            }
        }
    }

    /// The slot of the entry at a place among the entries.
    pub fn slot_of(&self, place: u32) -> usize
        requires { place < length (entries_in self.now.slots) }
        ensures { result ≡ slot_of self.now.slots place }
    {
        // Without gaps they are the same.
        if self.len as usize == self.slots.len() {
            return place as usize;
        }
        nth_slot(self.slots.as_slice(), place)
    }
}

/// By so many more empty slots than entries the slots are crowded.
const FEW_GAPS: usize = 16;

/// The slot of the entry at a place among the entries.
fn nth_slot(slots: &[Option<Lingerer>], place: u32) -> usize
    requires { place < length (entries_in slots.now) }
    ensures { result ≡ slot_of slots.now place }
{
    let mut left = place;
    for (at, slot) in slots.iter().enumerate() {
        let Some(_) = slot else {
            continue;
        };
        if left == 0 {
            return at;
        }
        left -= 1;
    }
    unreachable!()
}
