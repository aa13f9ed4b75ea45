//! The lock and its passes.
ghost use Rattle.std.specs.Prelude.{◌≡◌, ℕ, ◌%◌, ◌^◌, ◌<◌, ◌≤◌, List, [], ◌∷◌, ◌++◌, length, Some, IfOk, IfErr, EachIndex, vec_len, vec_capacity, All, slice_get};
ghost use Rattle.turn_lock.specs.declared.kept.Entry.{Entry};
ghost use Rattle.turn_lock.specs.declared.table.TheConstants.{PASS_LIMIT};
ghost use Rattle.turn_lock.specs.declared.view.Stage.TheVariants.{Idle, Waiting, Turn, Out, Counted};
ghost use Rattle.turn_lock.specs.Entries.{entry, own};
ghost use Rattle.turn_lock.specs.Passes.{Pass, Closes, unused_lock_pass};
ghost use Rattle.turn_lock.specs.Steps.{knows, maker, seated_view, pass_with_seen, longer, StandsFor, StepsBy, IsAtRest, IsGathered};

use crate::kept::{Kept, Stepped};
use crate::table::{
    Claim, Count, Deal, Draw, Gather, Give, InTurn, LockSeat, LockTable, Next, Opening, SERVING,
    Saying, TICKET, Take, VALUE, Watch,
};
use crate::view::View;
use atomic_table::{Badge, Refused, Seat, Table};
use no_memory::NoMemory;
use std::alloc::Global;
use std::marker::{Brand, Model};
use std::snapshot::Snapshot;
use std::sync::Wait;
use std::sync::atomic::{AtomicBool, AtomicU64, Ordering};
use std::time::Duration;
use std::{hint, mem};

/// Who waits looks again soon in the first rounds, after a pause that is twice as long each time, and then sleeps after
/// each look.
const SPINS: u32 = 13;

/// From this round on, after a pause of some seven microseconds, who finds that nobody was served since its last look
/// sleeps at once: whoever is in was put aside by the system, and who looks on may keep the processor from it.
const STANDSTILL: u32 = 10;

/// The first sleep, in microseconds. Each further one is twice as long, up to the longest.
const FIRST_NAP: u64 = 50;

const LONGEST_NAP: u64 = 4_000;

/// How often a sleep doubles until it is as long as the longest.
const DOUBLINGS: u32 = 7;

/// After so many rounds, about a third of a second, a caller draws its ticket all the same.
const PATIENCE: u32 = 94;

/// One sleeper is woken in so many tickets, at most.
const SPACING: u64 = 32;

/// A caller that was served so few tickets ago wakes nobody: it is likely to call again at once.
const CLOSE: u64 = 3;

/// What a call through the lock gives.
#[derive(Debug, Drop)]
pub struct Answered<A> {
    /// The value's answer.
    pub answer: A,
    /// How many calls came before this one, modulo 2^64.
    pub place: u64,
    /// The moment that the step used.
    pub used: u64,
}

/// A value behind a ticket lock, which threads share by reference.
///
/// Contracts see it as a `Lock`: its `id` tells it from other locks and says by `parties` how many passes it has, from
/// 1 to 256, and `law` is the value's law.
#[derive(Drop)]
pub struct Turns<V: Kept> {
    table: LockTable<V>,
    parties: u32,
    // Whether somebody may sleep that is to be woken.
    asleep: AtomicBool,
    // The ticket at which somebody was woken last.
    woken: AtomicU64,
}

impl<V: Kept> Model for Turns<V> {
    ghost use Rattle.turn_lock.specs.Passes.{Lock, IsSetUp};

    ghost Value = { Lock V.Law };

    ghost view = { λ t. record { id = record { table = t.table.shared.table_id; parties = t.parties }; law = V.law t.table.shared.key.value.value } };

    ghost invariant = { λ t. IsSetUp t.table.shared.table_id t.table.shared.key.parties t.parties };
}

/// What a party asks with, of one lock round a value of type `V`. One thread at a time has it.
pub type TurnPass<V: Kept> = PartyPass<V::Law, V::Request, V::Answer>;

/// A [`TurnPass`], in a type that names the value's law, requests and answers alone. So it may be let go also where the
/// value may not.
///
/// Contracts see it as a `Pass`: `lock` is the `id` of its lock, `number` is its party, `law` is the value's law,
/// `seen` is the history up to its last call and `mine` is its party's part of that.
#[derive(Drop)]
pub struct PartyPass<L, Q, A> {
    number: u32,
    // How many passes its lock has.
    parties: u32,
    // The ticket of its last call.
    last: u64,
    badge: Badge<View<L, Q, A>>,
    ghost inside: { number < parties },
    // So that contracts can read the law from the badge's view.
    ghost lawful: { 0 < length (knows badge.views).law },
}

impl<L, Q, A> Model for PartyPass<L, Q, A> {
    ghost use Rattle.turn_lock.specs.Passes.{Pass};
    ghost use Rattle.turn_lock.specs.Steps.{pass_at, RestsAs};

    ghost Value = { Pass L Q A };

    ghost view = { λ p. pass_at record { table = p.badge.table_id; parties = p.parties } p.number p.badge.views p.lawful };

    ghost invariant = { λ p. RestsAs (pass_at record { table = p.badge.table_id; parties = p.parties } p.number p.badge.views p.lawful) p.badge.views };
}

impl<L, Q, A> PartyPass<L, Q, A> {
    /// The number of the party, which is below the number of the lock's passes: pass i of [`Turns::make`] has the
    /// number i.
    pub fn number(&self) -> u32
        ensures is { result ≡ self.now.number }
        ensures inside { result < self.now.lock.parties }
    {
        self.number
    }
}

impl<V: Kept> Turns<V> {
    /// Puts a value behind a new lock, and gives the passes of the parties 0 to `n` - 1, in order.
    ///
    /// `n` is from 1 to 256. The value has to stand for the empty list, and that list has to be a run of its law.
    ///
    /// # Errors
    ///
    /// Where there is no memory, the value comes back as it was.
    pub fn make(
        alloc: Global,
        value: V,
        n: u32,
    ) -> Result<(Turns<V>, Vec<TurnPass<V>>), (NoMemory, V)>
        requires count { (1 ≤ n) × (n ≤ PASS_LIMIT) }
        requires opens { V.stands value [] × V.run (V.law value) [] }
        ensures lock { IfOk result (λ r. (r.0.id.parties ≡ n) × (r.0.law ≡ V.law value)) }
        ensures count { IfOk result (λ r. vec_len r.1 ≡ n) }
        ensures theirs { IfOk result (λ r. All (λ p. p.lock ≡ r.0.id) r.1.items × All (λ p. p.law ≡ r.0.law) r.1.items) }
        ensures passes { IfOk result (λ r. EachIndex r.1.items (λ i. slice_get r.1.items i ≡ Some (unused_lock_pass r.0 i))) }
        ensures refused { IfErr result (λ e. e.1 ≡ value) }
    {
        let Ok(mut passes) = Vec::with_capacity(alloc, n as usize) else {
            return Err((NoMemory, value));
        };
        let Ok(mut slots) = Vec::with_capacity(alloc, 1) else {
            return Err((NoMemory, value));
        };
        let opening = Opening {
            value: Snapshot::of(&value),
            parties: n,
        };
        slots.push_reserved(Some(value));
        match Table::new(alloc, &[0, 0, 0], slots, &opening) {
            Ok((table, mut seat)) => {
                let turns = Turns {
                    table,
                    parties: n,
                    asleep: AtomicBool::new(false),
                    woken: AtomicU64::new(0),
                };
                turns.deal(&mut seat, &mut passes);
                Ok((turns, passes))
            }
            Err(Refused { slots }) => Err((NoMemory, sole(slots))),
        }
    }

    /// Makes one call of the value, in the caller's turn.
    ///
    /// It draws a ticket and waits until that is served, which may be forever. `moment` is handed on to the value's
    /// step. It takes no memory, but what that step takes.
    pub fn ask<R: Wait>(
        &self,
        rt: &R,
        pass: &mut TurnPass<V>,
        request: &V::Request,
        moment: u64,
    ) -> Answered<V::Answer>
        requires lock { pass.old.lock ≡ self.now.id }
        requires fits { V.fits pass.old.law request.now }
        requires party { V.party request.now ≡ pass.old.number }

        // It stays a pass of this lock, for this party and under this law.
        ensures same { (pass.new.lock ≡ pass.old.lock) × (pass.new.number ≡ pass.old.number) × (pass.new.law ≡ pass.old.law) }

        // The history as it is seen now begins with what was seen before, and ends with this call's entry.
        ensures seen { (between : List (Entry V.Request V.Answer))
            × (pass.new.seen ≡ (pass.old.seen ++ between) ++ entry request.now result.used result.answer ∷ []) }
        ensures runs { V.run pass.new.law pass.new.seen }

        // This entry is one more of the party's own, which are its part of that history.
        ensures mine { pass.new.mine ≡ pass.old.mine ++ entry request.now result.used result.answer ∷ [] }
        ensures own { own V.party pass.new.number pass.new.seen ≡ pass.new.mine }

        // The moment and the place go by the entries before this one.
        ensures moment { (before : List (Entry V.Request V.Answer))
            → pass.new.seen ≡ before ++ entry request.now result.used result.answer ∷ [] → result.used ≡ V.used pass.new.law before moment }
        ensures place { (before : List (Entry V.Request V.Answer))
            → pass.new.seen ≡ before ++ entry request.now result.used result.answer ∷ [] → result.place ≡ length before % 2 ^ 64 }
    {
        let badge = mem::replace(&mut pass.badge, Badge::blank());
        let mut seat = badge.into_seat();
        let ticket = self.wait_turn(rt, &mut seat);
        self.take(&mut seat);
        let stepped = self.step(rt, &mut seat, request, moment);
        let place = self.count::<Brand>(&mut seat, request, &stepped);
        self.give(&mut seat);
        self.wake(ticket, pass.last);
        pass.last = ticket;
        pass.badge = seat.into_badge();
        let Stepped { answer, used } = stepped;
        Answered {
            answer,
            place,
            used,
        }
    }

    /// Takes all passes of the lock in, and gives the value back, with the number of all calls modulo 2^64.
    ///
    /// It takes no memory and waits for nobody. The value stands for the whole history, which is one for all passes:
    /// each has seen a beginning of it and has its party's part. The passes' numbers are 0 to `parties` - 1 in some
    /// order, and the history has no entries but theirs: whatever an entry counts for, the passes' own entries together
    /// count for what the history does.
    pub fn close(self, passes: Vec<TurnPass<V>>) -> (V, u64)
        requires count { vec_len passes ≡ self.id.parties }
        requires lock { All (λ p. p.lock ≡ self.id) passes.items }
        ensures law { V.law result.0 ≡ self.law }
        ensures history { Closes V.party V.run V.stands self.law passes.items result.0 result.1 }
    {
        let seat = self.gather(passes);
        let Turns {
            table,
            parties: _,
            asleep: _,
            woken: _,
        } = self;
        let mut closed = table.close_with(seat);
        let calls = closed.word(SERVING);
        let slot = closed.take(VALUE);
        closed.free();
        let Some(value) = slot else { unreachable!() };
        (value, calls)
    }

    /// Deals the passes, whose room is there.
    fn deal(&self, seat: &mut LockSeat<V>, passes: &mut Vec<TurnPass<V>>)
        requires lock { seat.old.table_id ≡ self.now.id.table }
        requires opens { seat.old.me ≡ (maker self.now.law 0, []) }
        requires room { (passes.old.items ≡ []) × (self.now.id.parties ≤ vec_capacity passes.old) }
        ensures count { vec_len passes.new ≡ self.now.id.parties }
        ensures dealt { EachIndex passes.new.items (λ i. slice_get passes.new.items i ≡ Some (unused_lock_pass self.now i)) }
    {
        for number in 0..self.parties {
            let other = self.table.shared.split_seat::<Deal>(seat);
            passes.push_reserved(PartyPass {
                number,
                parties: self.parties,
                last: 0,
                badge: other.into_badge(),
            });
        }
    }

    /// Draws a ticket, waits until it is served, and gives it.
    fn wait_turn<R: Wait>(&self, rt: &R, seat: &mut LockSeat<V>) -> u64
        requires lock { seat.old.table_id ≡ self.now.id.table }
        requires idle { (p : Pass V.Law V.Request V.Answer) × IsAtRest p seat.old.me }
        ensures lock { seat.new.table_id ≡ seat.old.table_id }
        ensures turn { (p : Pass V.Law V.Request V.Answer) → IsAtRest p seat.old.me
            → (t : ℕ) × (seat.new.me ≡ (seated_view p (Turn t), [])) }
    {
        let ticket = self.draw(rt, seat);
        let mut round = 0u32;
        for _ in rt.forever() {
            let serving = self.table.shared.load::<Watch>(seat, SERVING);
            if serving == ticket {
                return ticket;
            }
            // All behind it wait for it, so it sleeps no longer than the first time.
            self.pause(rt, round.min(SPINS), serving);
            round = round.saturating_add(1);
        }
        unreachable!()
    }

    /// Gives the ticket that it drew. Tickets are served in order, so one drawer whom the system has put aside stops
    /// all behind it: so nobody draws while another is in, but after so many rounds.
    fn draw<R: Wait>(&self, rt: &R, seat: &mut LockSeat<V>) -> u64
        requires lock { seat.old.table_id ≡ self.now.id.table }
        requires idle { (p : Pass V.Law V.Request V.Answer) × IsAtRest p seat.old.me }
        ensures lock { seat.new.table_id ≡ seat.old.table_id }
        ensures drawn { (p : Pass V.Law V.Request V.Answer) → IsAtRest p seat.old.me
            → (t : ℕ) × (result ≡ t % 2 ^ 64) × (seat.new.me ≡ (seated_view p (Waiting t), [])) }
    {
        let mut last = 0u64;
        for round in 0..PATIENCE {
            let serving = self.table.shared.peek(SERVING);
            if self.table.shared.peek(TICKET) == serving {
                let next = serving.wrapping_add(1);
                let found = self
                    .table
                    .shared
                    .compare_exchange::<Claim>(seat, TICKET, serving, next);
                if found == serving {
                    self.follow(round);
                    return serving;
                }
            }
            self.pause(rt, waiting_round(round, serving == last), serving);
            last = serving;
        }
        self.table.shared.fetch_add::<Draw>(seat, TICKET, 1)
    }

    /// One round of waiting for the serving word to be another than was seen.
    fn pause<R: Wait>(&self, rt: &R, round: u32, seen: u64) {
        if round < SPINS {
            for _ in 0..1u32 << round {
                hint::spin_loop();
            }
        } else {
            let seen = (seen & 0xffff_ffff) as u32;
            self.asleep.store(true, Ordering::SeqCst);
            let nap = nap(round - SPINS);
            self.table.shared.park_timeout(rt, SERVING, seen, nap);
        }
    }

    /// After a round of sleep others may sleep still, who were not woken.
    fn follow(&self, round: u32) {
        if SPINS < round {
            self.asleep.store(true, Ordering::SeqCst);
        }
    }

    /// Wakes one of those who sleep, if somebody may sleep, nobody was woken for some tickets, and the caller's ticket
    /// isn't close to its last one.
    fn wake(&self, ticket: u64, last: u64) {
        if CLOSE < ticket.wrapping_sub(last)
            && self.asleep.load(Ordering::SeqCst)
            && SPACING <= ticket.wrapping_sub(self.woken.load(Ordering::SeqCst))
            && self.asleep.swap(false, Ordering::SeqCst)
        {
            self.woken.store(ticket, Ordering::SeqCst);
            self.table.shared.wake_one(SERVING);
        }
    }

    /// Takes the value out, in the seat's turn.
    fn take(&self, seat: &mut LockSeat<V>)
        requires lock { seat.old.table_id ≡ self.now.id.table }
        requires turn { (p : Pass V.Law V.Request V.Answer) × (t : ℕ) × (seat.old.me ≡ (seated_view p (Turn t), [])) }
        ensures lock { seat.new.table_id ≡ seat.old.table_id }
        ensures took { (p : Pass V.Law V.Request V.Answer) (t : ℕ) → seat.old.me ≡ (seated_view p (Turn t), [])
            → (x : V) × (h : List (Entry V.Request V.Answer)) × (seat.new.me ≡ (seated_view (pass_with_seen p h) (Out t), (0, Some x) ∷ [])) × StandsFor V.law V.party V.run V.stands x h p }
    {
        self.table.shared.load::<Take<V>>(seat, SERVING);
    }

    /// Makes one step of the value that is out with the seat, where it lies.
    fn step<R: Wait>(
        &self,
        rt: &R,
        seat: &mut LockSeat<V>,
        request: &V::Request,
        moment: u64,
    ) -> Stepped<V::Answer>
        requires lock { seat.old.table_id ≡ self.now.id.table }
        requires out { (x : V) × (seat.old.me.1 ≡ (0, Some x) ∷ []) × V.fits (V.law x) request.now }
        ensures lock { seat.new.table_id ≡ seat.old.table_id }
        ensures view { seat.new.me.0 ≡ seat.old.me.0 }
        ensures stepped { (x : V) → seat.old.me.1 ≡ (0, Some x) ∷ []
            → (y : V) × (seat.new.me.1 ≡ (0, Some y) ∷ []) × StepsBy V.law V.run V.used V.stands x y moment (entry request.now result.used result.answer) }
    {
        let slot = seat.slot_mut(&self.table.shared, VALUE);
        let Some(value) = slot else { unreachable!() };
        value.step(rt, request, moment)
    }

    /// Adds the entry of a step to the history, and gives the number of those before it: one for each ticket that was
    /// served.
    fn count<J: Saying<V::Request, V::Answer>>(
        &self,
        seat: &mut LockSeat<V>,
        request: &V::Request,
        stepped: &Stepped<V::Answer>,
    ) -> u64
        requires lock { seat.old.table_id ≡ self.now.id.table }
        requires said { J.said ≡ entry request.now stepped.now.used stepped.now.answer ∷ [] }
        requires out { (p : Pass V.Law V.Request V.Answer) × (t : ℕ) × (x : V) × (seat.old.me ≡ (seated_view p (Out t), (0, Some x) ∷ []))
            × V.run p.law (p.seen ++ J.said) × (V.party request.now ≡ p.number) }
        ensures lock { seat.new.table_id ≡ seat.old.table_id }
        ensures counted { (p : Pass V.Law V.Request V.Answer) (t : ℕ) (x : V) → seat.old.me ≡ (seated_view p (Out t), (0, Some x) ∷ [])
            → (seat.new.me ≡ (seated_view (longer p J.said) (Counted t), (0, Some x) ∷ [])) × (result ≡ length p.seen % 2 ^ 64) }
    {
        self.table.shared.load::<Count<J>>(seat, SERVING)
    }

    /// Puts the value back, and serves the next ticket.
    fn give(&self, seat: &mut LockSeat<V>)
        requires lock { seat.old.table_id ≡ self.now.id.table }
        requires counted { (p : Pass V.Law V.Request V.Answer) × (t : ℕ) × (x : V) × (seat.old.me ≡ (seated_view p (Counted t), (0, Some x) ∷ []))
            × V.stands x p.seen × (V.law x ≡ p.law) }
        ensures lock { seat.new.table_id ≡ seat.old.table_id }
        ensures idle { (p : Pass V.Law V.Request V.Answer) (t : ℕ) (x : V) → seat.old.me ≡ (seated_view p (Counted t), (0, Some x) ∷ [])
            → IsAtRest p seat.new.me }
    {
        self.table.shared.load::<Give>(seat, SERVING);
        self.table.shared.fetch_add::<Next>(seat, SERVING, 1);
    }

    /// Joins all passes into one.
    fn gather(&self, mut passes: Vec<TurnPass<V>>) -> LockSeat<V>
        requires some { 0 < vec_len passes }
        requires lock { All (λ p. p.lock ≡ self.now.id) passes.items }
        ensures lock { result.table_id ≡ self.now.id.table }
        ensures all { IsGathered passes.items result.me }
    {
        let Some(first) = passes.pop() else {
            unreachable!()
        };
        let mut seat = first.into_seat();
        while let Some(pass) = passes.pop() {
            self.table
                .shared
                .join_seat::<Gather>(&mut seat, pass.into_seat());
        }
        seat
    }
}

impl<L, Q, A> PartyPass<L, Q, A> {
    /// A seat again, at a table whose slots hold an S.
    fn into_seat<S>(self) -> Seat<S, View<L, Q, A>>
        ensures lock { result.table_id ≡ self.lock.table }
        ensures idle { IsAtRest self result.me }
    {
        let PartyPass {
            number: _,
            parties: _,
            last: _,
            badge,
        } = self;
        badge.into_seat()
    }
}

/// The round of waiting that follows a look: that of a sleep where the last ones were long and nobody was served since.
fn waiting_round(round: u32, stands_still: bool) -> u32 {
    if stands_still && STANDSTILL <= round {
        round.max(SPINS)
    } else {
        round
    }
}

/// How long the sleep after so many others is.
fn nap(naps: u32) -> Duration {
    let micros = FIRST_NAP << naps.min(DOUBLINGS);
    Duration::from_micros(micros.min(LONGEST_NAP))
}

/// What the one slot holds.
fn sole<V>(mut slots: Vec<Option<V>>) -> V
    requires { (x : V) × (slots.items ≡ Some x ∷ []) }
    ensures { slots.items ≡ Some result ∷ [] }
{
    let last = slots.pop();
    slots.destroy_empty();
    let Some(Some(value)) = last else {
        unreachable!()
    };
    value
}
