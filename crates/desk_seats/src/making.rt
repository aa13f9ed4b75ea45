//! The making of a desk's seats.
ghost use Rattle.std.specs.Prelude.{◌≡◌, ◌+◌, ◌*◌, ◌<◌, ◌≤◌, min, [], All, EachIndex, IfOk, None, Some, IsSome, map, vec_len, vec_capacity, slice_get};
ghost use Rattle.kex_core.specs.declared.limits.TheConstants.{PARTY_LIMIT};
ghost use Rattle.kex_net.specs.Gates.{IsGated};
ghost use Rattle.desk_seats.specs.Views.{parties_of};
ghost use Rattle.desk_seats.specs.Passes.{guest_pass, plain_pass, unused_seat_pass};

use crate::gathering::{Gathered, SeatGathering};
use crate::passes::{OutKind, SeatOut};
use crate::seats::{DeskSeats, SeatsKind};
use kex_core::{Net, NoMemory};
use kex_gate::{GateOut, GatedSeats};
use kex_words::Out;
use seat_names::Seats;
use std::alloc::Global;
use std::snapshot::Snapshot;

impl DeskSeats {
    /// The seats of a net, with no gate before them; the passes of the parties 0 to n-1, in order, none of which has
    /// had a seat; and what takes them in at the end.
    ///
    /// It takes all memory that the seats ever need. NoMemory where there is not so much.
    pub fn make(
        alloc: Global,
        net: Net,
    ) -> Result<(DeskSeats, Vec<SeatOut>, SeatGathering), NoMemory>
        ensures net { IfOk result (λ r. (r.0.net ≡ net) × (r.0.gate ≡ None)) }
        ensures count { IfOk result (λ r. vec_len r.1 ≡ net.parties) }
        ensures passes { IfOk result (λ r. EachIndex r.1.items (λ i. slice_get r.1.items i ≡ Some (unused_seat_pass r.0 i))) }
        ensures own { IfOk result (λ r. All (λ p. p.table ≡ r.0) r.1.items) }
        ensures gathering { IfOk result (λ r. (r.2.table ≡ r.0) × (r.2.numbers ≡ []) × (r.2.got ≡ [])) }
    {
        let (seats, outs) = Seats::make(alloc, net)?;
        let mut passes = Vec::with_capacity(alloc, outs.len())?;
        lift_plain(outs, &mut passes);
        let seats = DeskSeats {
            kind: SeatsKind::Plain(seats),
        };
        let gathering = SeatGathering {
            about: Snapshot::of(&seats),
            kind: Gathered::Nothing,
        };
        Ok((seats, passes, gathering))
    }

    /// The seats of n parties and k licences behind a fast gate, as many as the smaller of n and k; the passes of the
    /// parties 0 to n-1, in order, none of which has had a seat; and what takes them in at the end.
    ///
    /// It takes all memory that the seats ever need. NoMemory where there is not so much.
    pub fn make_gated(
        alloc: Global,
        n: u32,
        k: u32,
    ) -> Result<(DeskSeats, Vec<SeatOut>, SeatGathering), NoMemory>
        requires two { 2 ≤ n }
        requires licences { 1 ≤ k }
        requires room { 2 * min k n < n }
        requires small { n + min k n ≤ PARTY_LIMIT }
        ensures net { IfOk result (λ r. IsGated n k r.0.net × IsSome r.0.gate) }
        ensures parties { IfOk result (λ r. (parties_of r.0 ≡ n) × (r.0.net.width ≡ min k n)) }
        ensures count { IfOk result (λ r. vec_len r.1 ≡ n) }
        ensures passes { IfOk result (λ r. EachIndex r.1.items (λ i. slice_get r.1.items i ≡ Some (unused_seat_pass r.0 i))) }
        ensures own { IfOk result (λ r. All (λ p. p.table ≡ r.0) r.1.items) }
        ensures gathering { IfOk result (λ r. (r.2.table ≡ r.0) × (r.2.numbers ≡ []) × (r.2.got ≡ [])) }
    {
        let mut passes = Vec::with_capacity(alloc, n as usize)?;
        let room = Vec::with_capacity(alloc, n as usize)?;
        let (gate, outs) = GatedSeats::make(alloc, n, k)?;
        lift_gated(outs, &mut passes);
        let seats = DeskSeats {
            kind: SeatsKind::Gated(gate),
        };
        let gathering = SeatGathering {
            about: Snapshot::of(&seats),
            kind: Gathered::Gated(room),
        };
        Ok((seats, passes, gathering))
    }
}

/// The passes of the parties, whose room is there, where there is no gate.
fn lift_plain(outs: Vec<Out>, passes: &mut Vec<SeatOut>)
    requires { (passes.old.items ≡ []) × (vec_len outs ≤ vec_capacity passes.old) }
    ensures { passes.new.items ≡ map plain_pass outs.items }
{
    for out in outs {
        passes.push_reserved(SeatOut {
            kind: OutKind::Plain(out),
        });
    }
}

/// The passes of the parties, whose room is there, where there is a gate.
fn lift_gated(outs: Vec<GateOut>, passes: &mut Vec<SeatOut>)
    requires { (passes.old.items ≡ []) × (vec_len outs ≤ vec_capacity passes.old) }
    ensures { passes.new.items ≡ map guest_pass outs.items }
{
    for out in outs {
        passes.push_reserved(SeatOut {
            kind: OutKind::Gated(out),
        });
    }
}
