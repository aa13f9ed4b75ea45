//! The making of a gate.
ghost use Rattle.std.specs.Prelude.{◌≡◌, ◌≢◌, ℕ, ◌+◌, ◌*◌, ◌<◌, ◌≤◌, min, [], ◌∷◌, ◌++◌, Some, IfOk, All, EachIndex, vec_len, vec_capacity, length, slice_get, slice_index};
ghost use Rattle.kex_core.specs.declared.limits.TheConstants.{PARTY_LIMIT};
ghost use Rattle.kex_net.specs.Gates.{IsGated};
ghost use Rattle.kex_words.specs.Passes.{Pass};
ghost use Rattle.kex_gate.specs.Passes.{fresh, sessions, room_word};
ghost use Rattle.kex_gate.specs.Steps.{maker, AreInRow};

use crate::gate::{Deal, FULL, GateSeat, ROOM};
use crate::gated::GatedSeats;
use crate::passes::GateOut;
use atomic_table::Table;
use kex_core::NoMemory;
use kex_net::gated;
use kex_words::Out;
use seat_names::Seats;
use std::alloc::Global;
use std::snapshot::Snapshot;

impl GatedSeats {
    /// A gate for n sessions and k licences, with the seats of the net `gated(n, k)` behind it, and the passes of the
    /// sessions 0 to n-1, in order. None of them has had a seat yet.
    ///
    /// It takes all memory that the gate ever needs. NoMemory where there is not so much.
    pub fn make(alloc: Global, n: u32, k: u32) -> Result<(GatedSeats, Vec<GateOut>), NoMemory>
        requires two { 2 ≤ n }
        requires licences { 1 ≤ k }
        requires room { 2 * min k n < n }
        requires small { n + min k n ≤ PARTY_LIMIT }
        ensures net { IfOk result (λ r. IsGated n k r.0.seats.net) }
        ensures count { IfOk result (λ r. vec_len r.1 ≡ n) }
        ensures passes { IfOk result (λ r. EachIndex r.1.items (λ i. slice_get r.1.items i ≡ Some (fresh r.0 i))) }
        ensures own { IfOk result (λ r. All (λ p. p.gate ≡ r.0) r.1.items) }
    {
        let width = k.min(n);
        let net = gated(alloc, n, k)?;
        let (seats, mut own) = Seats::make(alloc, net)?;
        let gate = own.split_off(n as usize)?;
        let slots = gate_slots(alloc, gate)?;
        let words = opening_words(alloc, width)?;
        let mut outs = Vec::with_capacity(alloc, n as usize)?;
        let about = Snapshot::of(&seats);
        let Ok((table, mut seat)) = Table::new(alloc, &words, slots, &about) else {
            return Err(NoMemory);
        };
        let made = GatedSeats {
            seats,
            table,
            sessions: n,
            width,
        };
        made.deal(&mut seat, own, &mut outs);
        Ok((made, outs))
    }

    /// Deals the passes, whose room is there.
    fn deal(&self, seat: &mut GateSeat, mut own: Vec<Out>, outs: &mut Vec<GateOut>)
        requires own { seat.old.table_id ≡ self.now.id }
        requires opens { seat.old.me ≡ (maker self.now.seats 0, []) }
        requires passes { AreInRow self.now.seats 0 own.items × (vec_len own ≡ sessions self.now.seats.net) }
        requires room { (outs.old.items ≡ []) × (sessions self.now.seats.net ≤ vec_capacity outs.old) }
        ensures count { vec_len outs.new ≡ sessions self.now.seats.net }
        ensures dealt { EachIndex outs.new.items (λ i. slice_get outs.new.items i ≡ Some (fresh self.now i)) }
    {
        for _number in 0..self.sessions {
            let pass = own.remove(0);
            let other = self.table.shared.split_seat::<Deal>(seat);
            outs.push_reserved(GateOut {
                own: pass,
                seat: other,
            });
        }
    }
}

/// So many passes, each in its slot.
fn gate_slots(alloc: Global, mut passes: Vec<Out>) -> Result<Vec<Option<Out>>, NoMemory>
    ensures count { IfOk result (λ v. vec_len v ≡ vec_len passes) }
    ensures slots { IfOk result (λ v. (k : ℕ) → k < vec_len passes → (p : Pass) → slice_get passes.items k ≡ Some p → slice_get v.items k ≡ Some (Some p)) }
{
    let count = passes.len();
    let mut slots = Vec::with_capacity(alloc, count)?;
    for _i in 0..count {
        slots.push_reserved(Some(passes.remove(0)));
    }
    Ok(slots)
}

/// The words of a new gate of so many seats, where all sessions are Free.
fn opening_words(alloc: Global, width: u32) -> Result<Vec<u64>, NoMemory>
    requires { (1 ≤ width) × (width ≤ PARTY_LIMIT) }
    ensures wide { IfOk result (λ v. length v.items ≡ width + 1) }
    ensures room { IfOk result (λ v. slice_index v.items room_word ≡ FULL + width) }
    ensures others { IfOk result (λ v. (k : ℕ) → k ≢ room_word → slice_index v.items k ≡ 0) }
{
    let mut words = vec![in alloc; 0u64; width as usize + 1]?;
    words[ROOM] = FULL + u64::from(width);
    Ok(words)
}
