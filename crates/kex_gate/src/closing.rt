//! The end of a gate.
ghost use Rattle.std.specs.Prelude.{◌≡◌, ℕ, ◌+◌, ◌%◌, ◌^◌, ◌<◌, ◌≤◌, false, length, sum_by, Some, All, EachIndex, vec_len, slice_get, slice_index_or};
ghost use mathlib.Core.Option.{some};
ghost use lib.ListN.{get_elem?};
ghost use Rattle.std.specs.Slots.{slots_items, slots_filled, slots_len, IsFull};
ghost use Rattle.kex_words.specs.Passes.{Pass, times};
ghost use Rattle.pass_roles.specs.Roles.{total};
ghost use Rattle.kex_gate.specs.Passes.{sessions, session_numbers, slow_of, taken_by, used_by};
ghost use Rattle.kex_gate.specs.Steps.{IsGathered, IsIdle, guest_of, slot_worth, slot_number};

use crate::gate::{GateSeat, GateTable, Gather};
use crate::gated::GatedSeats;
use crate::passes::GateOut;
use atomic_table::Closed;
use kex_words::{Card, Gathering, Out};
use seat_names::Seats;
use std::alloc::Global;

impl GatedSeats {
    /// Takes all passes of the gate in, and gives the cards back, in the order of their numbers.
    ///
    /// The uses of card s are the number of times that the sessions had the seat s, modulo 2^64. So the uses of all
    /// cards together are as many as the visits of all sessions. Each number of a session is that of one pass. It takes
    /// no memory and waits for nobody.
    pub fn close(self, passes: Vec<GateOut>) -> Vec<Card>
        requires count { vec_len passes ≡ sessions self.seats.net }
        requires own { All (λ p. p.gate ≡ self) passes.items }
        ensures count { vec_len result ≡ self.seats.net.width }
        ensures cards { EachIndex result.items (λ s. slice_get result.items s ≡ Some (used_by passes.items s)) }
        ensures uses { sum_by (λ c. c.uses) result.items % 2 ^ 64 ≡ sum_by (λ g. length g.visits) passes.items % 2 ^ 64 }
        ensures numbers { (q : ℕ) → q < sessions self.seats.net → times q (session_numbers passes.items) ≡ 1 }
        ensures got { (s : ℕ) → self.seats.net.width ≤ s → taken_by passes.items s ≡ 0 }
    {
        let GatedSeats {
            seats,
            table,
            sessions: _,
            width,
        } = self;
        let (gathering, seat) = gather(&seats, &table, passes);
        let mut closed = table.close_with(seat);
        let gathering = take_passes(&seats, &mut closed, width, gathering);
        closed.free();
        seats.close_gathered(gathering)
    }
}

/// Joins all sessions into one, and takes their own passes in, the last session's first.
fn gather(seats: &Seats, table: &GateTable, mut passes: Vec<GateOut>) -> (Gathering, GateSeat)
    requires some { 0 < vec_len passes }
    requires told { table.now.shared.key.value ≡ seats.now }
    requires own { All (λ p. (p.gate.id ≡ table.now.shared.table_id) × (p.gate.seats ≡ seats.now)) passes.items }
    requires words { 0 < table.now.shared.table_id.words }
    ensures own { result.1.table_id ≡ table.now.shared.table_id }
    ensures all { IsGathered seats.now passes.items result.1.me }
    ensures table { result.0.table ≡ seats.now }
    ensures numbers { result.0.numbers ≡ session_numbers passes.items }
    ensures slow { (s : ℕ) → times s result.0.got ≡ total (slow_of s) passes.items }
{
    let Some(first) = passes.pop() else {
        unreachable!()
    };
    let (own, mut seat) = first.open();
    let mut gathering = Gathering::of(own);
    while let Some(pass) = passes.pop() {
        let (own, other) = pass.open();
        gathering = seats.gather(gathering, own);
        table.shared.join_seat::<Gather>(&mut seat, other);
    }
    (gathering, seat)
}

impl GateOut {
    /// The session's own pass, and its seat at the gate.
    fn open(self) -> (Out, GateSeat)
        ensures own { result.1.table_id ≡ self.gate.id }
        ensures idle { IsIdle result.0 self result.1.me }
        ensures guest { guest_of result.1.table_id result.1.me.0 ≡ self }
    {
        let GateOut { own, seat } = self;
        (own, seat)
    }
}

/// Takes the passes of the gate in, out of their slots.
fn take_passes(
    seats: &Seats,
    closed: &mut Closed<Option<Out>, Global>,
    width: u32,
    mut gathering: Gathering,
) -> Gathering
    requires full { IsFull closed.old.slots × (slots_len closed.old.slots ≡ width) }
    requires home { (i : ℕ) → i < width → (p : Pass) × (get_elem? (slots_items closed.old.slots) i ≡ some (Some p)) × (p.table ≡ seats.now) }
    requires own { gathering.table ≡ seats.now }
    ensures table { result.table ≡ seats.now }
    ensures count { length result.numbers ≡ length gathering.numbers + width }
    ensures numbers { (q : ℕ) → times q result.numbers ≡ times q gathering.numbers + total (slot_number q) (slots_items closed.old.slots) }
    ensures got { (s : ℕ) → times s result.got ≡ times s gathering.got + total (slot_worth s) (slots_items closed.old.slots) }
    ensures taken_out { (k : ℕ) → k < slots_len closed.new.slots → slice_index_or (slots_filled closed.new.slots) k false ≡ false }
{
    for i in 0..width {
        let Some(pass) = closed.take(i as usize) else {
            unreachable!()
        };
        gathering = seats.gather(gathering, pass);
    }
    gathering
}
