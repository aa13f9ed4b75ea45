//! How a desk is made.
ghost use Rattle.std.specs.Prelude.{◌≡◌, ◌+◌, ◌*◌, ◌<◌, ◌≤◌, [], ◌∷◌, min, All, IfOk, IsSome, EachIndex, vec_len, vec_capacity, slice_get, Some, None};
ghost use Rattle.lic_types.specs.declared.limits.TheConstants.{PARTY_LIMIT};
ghost use Rattle.kex_net.specs.Gates.{IsGated};
ghost use Rattle.desk_seats.specs.Passes.{unused_seat_pass};
ghost use Rattle.desk_seats.specs.Views.{parties_of};
ghost use Rattle.options_machine.specs.Law.{AreSets};
ghost use Rattle.options_machine.specs.Rules.{IsSound};
ghost use Rattle.options_machine.specs.State.{in_force, opening};
ghost use Rattle.feature_desk.specs.Closings.{IsKeeperOf};
ghost use Rattle.feature_desk.specs.Sitters.{IsOf, newcomer};

use crate::closing::DeskKeeper;
use crate::desk::Desk;
use crate::passes::DeskPass;
use desk_book::{BookPass, DeskBook, lock_book};
use desk_seats::{DeskSeats, SeatGathering, SeatOut};
use kex_core::Net;
use no_memory::NoMemory;
use policy::DeskRules;
use std::alloc::Global;
use std::sync::Wait;
use turn_lock::Turns;

impl Desk {
    /// A desk with one rule set, as [`make_many`](Desk::make_many) makes it.
    pub fn make<R: Wait>(
        rt: &R,
        alloc: Global,
        rules: DeskRules,
        net: Net,
    ) -> Result<(Desk, Vec<DeskPass>, DeskKeeper), NoMemory>
        requires sound { IsSound rules }
        requires width { net.width ≡ min rules.count net.parties }
        ensures net { IfOk result (λ made. made.0.seats.net ≡ net) }
        ensures gate { IfOk result (λ made. made.0.seats.gate ≡ None) }
        ensures law { IfOk result (λ made. (made.0.lock.id.parties ≡ net.parties) × (made.0.lock.law.parties ≡ net.parties) × (made.0.lock.law.sets ≡ rules ∷ [])) }
        ensures passes { IfOk result (λ made. (vec_len made.1 ≡ net.parties) × EachIndex made.1.items (λ i. slice_get made.1.items i ≡ Some (newcomer made.0 i))) }
        ensures own { IfOk result (λ made. All (λ p. IsOf p made.0) made.1.items) }
        ensures keeper { IfOk result (λ made. IsKeeperOf made.2 made.0 × (made.2.book.taken ≡ [])) }
    {
        let sets = vec![in alloc; rules]?;
        Desk::make_many(rt, alloc, sets, net)
    }

    /// A desk in the opening state, with one to four rule sets of one count, over the seats of a net as wide as the
    /// count or the number of its parties; the passes of all parties, in order; and the keeper of its log.
    ///
    /// It takes all memory that the desk ever needs. `NoMemory` comes where there is not so much. It waits for nobody,
    /// since the board has no reader yet.
    pub fn make_many<R: Wait>(
        rt: &R,
        alloc: Global,
        sets: Vec<DeskRules>,
        net: Net,
    ) -> Result<(Desk, Vec<DeskPass>, DeskKeeper), NoMemory>
        requires sets { AreSets sets.items (in_force sets.items opening).count }
        requires width { net.width ≡ min (in_force sets.items opening).count net.parties }
        ensures net { IfOk result (λ made. made.0.seats.net ≡ net) }
        ensures gate { IfOk result (λ made. made.0.seats.gate ≡ None) }
        ensures law { IfOk result (λ made. (made.0.lock.id.parties ≡ net.parties) × (made.0.lock.law.parties ≡ net.parties) × (made.0.lock.law.sets ≡ sets.items)) }
        ensures passes { IfOk result (λ made. (vec_len made.1 ≡ net.parties) × EachIndex made.1.items (λ i. slice_get made.1.items i ≡ Some (newcomer made.0 i))) }
        ensures own { IfOk result (λ made. All (λ p. IsOf p made.0) made.1.items) }
        ensures keeper { IfOk result (λ made. IsKeeperOf made.2 made.0 × (made.2.book.taken ≡ [])) }
    {
        net.laws();
        let parties = net.parties();
        let (seats, outs, gathering) = DeskSeats::make(alloc, net)?;
        Desk::over(rt, alloc, sets, parties, seats, outs, gathering)
    }

    /// A desk in the opening state, with one to four rule sets of one count, over seats behind a fast gate, as many as
    /// the count or the number of its parties; the passes of all parties, in order; and the keeper of its log.
    ///
    /// A party that meets fewer others at the gate than there are seats goes past the tree. There are more than twice
    /// as many parties as seats, and the two numbers together are at most 256.
    ///
    /// It takes all memory that the desk ever needs. `NoMemory` comes where there is not so much. It waits for nobody,
    /// since the board has no reader yet.
    pub fn make_gated<R: Wait>(
        rt: &R,
        alloc: Global,
        sets: Vec<DeskRules>,
        parties: u32,
    ) -> Result<(Desk, Vec<DeskPass>, DeskKeeper), NoMemory>
        requires sets { AreSets sets.items (in_force sets.items opening).count }
        requires two { 2 ≤ parties }
        requires licences { 1 ≤ (in_force sets.items opening).count }
        requires room { 2 * min (in_force sets.items opening).count parties < parties }
        requires small { parties + min (in_force sets.items opening).count parties ≤ PARTY_LIMIT }
        ensures seats { IfOk result (λ made. IsSome made.0.seats.gate × (parties_of made.0.seats ≡ parties) × (made.0.seats.net.width ≡ min (in_force sets.items opening).count parties)) }
        ensures net { IfOk result (λ made. IsGated parties (in_force sets.items opening).count made.0.seats.net) }
        ensures law { IfOk result (λ made. (made.0.lock.id.parties ≡ parties) × (made.0.lock.law.parties ≡ parties) × (made.0.lock.law.sets ≡ sets.items)) }
        ensures passes { IfOk result (λ made. (vec_len made.1 ≡ parties) × EachIndex made.1.items (λ i. slice_get made.1.items i ≡ Some (newcomer made.0 i))) }
        ensures own { IfOk result (λ made. All (λ p. IsOf p made.0) made.1.items) }
        ensures keeper { IfOk result (λ made. IsKeeperOf made.2 made.0 × (made.2.book.taken ≡ [])) }
    {
        let count = sets[0].count();
        let (seats, outs, gathering) = DeskSeats::make_gated(alloc, parties, count)?;
        Desk::over(rt, alloc, sets, parties, seats, outs, gathering)
    }

    /// A desk in the opening state over these seats, whose passes are all there and none of which was taken in.
    fn over<R: Wait>(
        rt: &R,
        alloc: Global,
        sets: Vec<DeskRules>,
        parties: u32,
        seats: DeskSeats,
        mut outs: Vec<SeatOut>,
        gathering: SeatGathering,
    ) -> Result<(Desk, Vec<DeskPass>, DeskKeeper), NoMemory>
        requires sets { AreSets sets.items (in_force sets.items opening).count }
        requires parties { (1 ≤ parties) × (parties ≤ PARTY_LIMIT) × (parties_of seats ≡ parties) }
        requires outs { (vec_len outs ≡ parties) × EachIndex outs.items (λ i. slice_get outs.items i ≡ Some (unused_seat_pass seats i)) }
        requires gathering { (gathering.table ≡ seats) × (gathering.numbers ≡ []) × (gathering.got ≡ []) }
        ensures seats { IfOk result (λ made. made.0.seats ≡ seats) }
        ensures law { IfOk result (λ made. (made.0.lock.id.parties ≡ parties) × (made.0.lock.law.parties ≡ parties) × (made.0.lock.law.sets ≡ sets.items)) }
        ensures passes { IfOk result (λ made. (vec_len made.1 ≡ parties) × EachIndex made.1.items (λ i. slice_get made.1.items i ≡ Some (newcomer made.0 i))) }
        ensures own { IfOk result (λ made. All (λ p. IsOf p made.0) made.1.items) }
        ensures keeper { IfOk result (λ made. IsKeeperOf made.2 made.0 × (made.2.book.taken ≡ [])) }
    {
        let mut passes = Vec::with_capacity(alloc, parties as usize)?;
        let (turns, mut tickets, book) = lock_book(rt, alloc, sets, parties)?;
        pair(&turns, &seats, &mut tickets, &mut outs, &mut passes);
        Ok((
            Desk { turns, seats },
            passes,
            DeskKeeper {
                book,
                tickets,
                gathering,
            },
        ))
    }
}

/// Pairs the passes of each party, in order.
fn pair(
    turns: &Turns<DeskBook>,
    seats: &DeskSeats,
    tickets: &mut Vec<BookPass>,
    outs: &mut Vec<SeatOut>,
    passes: &mut Vec<DeskPass>,
)
    requires long { vec_len outs.old ≡ vec_len tickets.old }
    requires tickets { EachIndex tickets.old.items (λ i. slice_get tickets.old.items i ≡ Some (newcomer (record { lock = turns.now; seats = seats.now }) i).ticket) }
    requires outs { EachIndex outs.old.items (λ i. slice_get outs.old.items i ≡ Some (newcomer (record { lock = turns.now; seats = seats.now }) i).seat) }
    requires room { (passes.old.items ≡ []) × (vec_len tickets.old ≤ vec_capacity passes.old) }
    ensures empty { (tickets.new.items ≡ []) × (vec_capacity tickets.new ≡ vec_capacity tickets.old) }
    ensures passes { (vec_len passes.new ≡ vec_len tickets.old) × EachIndex passes.new.items (λ i. slice_get passes.new.items i ≡ Some (newcomer (record { lock = turns.now; seats = seats.now }) i)) }
    ensures own { All (λ p. IsOf p (record { lock = turns.now; seats = seats.now })) passes.new.items }
{
    while let Some(ticket) = tickets.pop() {
        let Some(out) = outs.pop() else {
            unreachable!()
        };
        passes.push_reserved(DeskPass::of(ticket, out));
    }
    passes.reverse();
}
