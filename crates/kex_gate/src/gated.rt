//! The gate and its calls.
ghost use Rattle.std.specs.Prelude.{◌≡◌, ◌↔◌, ℕ, ◌+◌, ◌*◌, ◌<◌, ◌≤◌, true, false, [], ◌∷◌, ◌++◌, None};
ghost use Rattle.kex_core.specs.Costs.{depth};
ghost use Rattle.kex_core.specs.Shapes.{plan};
ghost use Rattle.kex_core.specs.declared.place.Place.TheVariants.{Holding};
ghost use Rattle.kex_words.specs.Passes.{IsOut};
ghost use Rattle.seat_names.specs.Turns.{IsThrough, Turned};
ghost use Rattle.kex_gate.specs.declared.view.Spot.TheVariants.{Free, Fast};
ghost use Rattle.kex_gate.specs.Passes.{sessions, resting, guest_with_visit, IsPassFor};
ghost use Rattle.kex_gate.specs.Steps.{last_of, IsSession};
ghost use Rattle.kex_gate.specs.Turns.{turn_in, guest_in_turn, fast_in_turn, met_in_turn, pass_in_turn, Met};

use crate::gate::{FULL, GateSeat, GateTable};
use crate::passes::{GateEntering, GateHold, GateOut, GateThrough, GateTurn, Lane};
use kex_net::gates_are_short;
use kex_words::Out;
use seat_names::Seats;
use std::marker::{Brand, Model};
use std::sync::Wait;

/// The seats of a net behind a fast gate. Threads share them by reference.
///
/// Contracts see them as a `Gate`: its `id` tells it from others, and `seats` are the seats behind it. Each call that
/// takes a pass has the condition that the pass is of this gate. No call but `enter` waits, and none takes memory.
#[derive(Drop)]
pub struct GatedSeats {
    pub(crate) seats: Seats,
    pub(crate) table: GateTable,
    // how many sessions there are
    pub(crate) sessions: u32,
    // how many seats, and passes of the gate
    pub(crate) width: u32,
}

impl Model for GatedSeats {
    ghost use Rattle.kex_gate.specs.Passes.{Gate, IsSetUp};

    ghost Value = { Gate };

    ghost view = { λ g. record { id = g.table.shared.table_id; seats = g.seats } };

    ghost invariant = { λ g. IsSetUp g.table.shared.table_id g.table.shared.key.value g.seats g.sessions g.width };
}

impl GatedSeats {
    /// A session begins to enter: it takes its place at the gate and gets the pass that it is to use, and begins to
    /// enter the seats with that, which makes no access to their words.
    ///
    /// It is fast, with a pass of the gate, where it met fewer others than there are seats, and it goes the slow way,
    /// with its own pass, where it met as many or more. Those are met who are not Free when it takes its place.
    pub fn begin(&self, out: GateOut) -> GateTurn
        requires own { out.gate ≡ self.now }
        ensures same { guest_in_turn result ≡ out }
        ensures met { Met out (met_in_turn result) }
        ensures few { fast_in_turn result ≡ true → met_in_turn result < self.now.seats.net.width }
        ensures many { fast_in_turn result ≡ false → self.now.seats.net.width ≤ met_in_turn result }
        ensures pass { IsPassFor out (fast_in_turn result) (pass_in_turn result) }
        ensures rests { IsOut (pass_in_turn result) }
        ensures through { IsThrough (turn_in result) ↔ ((plan self.now.seats.net).start (pass_in_turn result).number ≡ (plan self.now.seats.net).stages) }
    {
        let (pass, lane) = self.admit(out);
        lane.tells();
        GateTurn::of(self.seats.begin(pass), lane)
    }

    /// One turn of a session among the stages: one turn of the seats, with their answer.
    pub fn turn(&self, e: GateEntering) -> GateTurn
        requires own { e.guest.gate ≡ self.now }
        ensures same { (guest_in_turn result ≡ e.guest) × (fast_in_turn result ≡ e.fast) × (met_in_turn result ≡ e.met) }
        ensures turned { Turned e.pass (turn_in result) }
    {
        let GateEntering { entering, lane } = e;
        GateTurn::of(self.seats.turn(entering), lane)
    }

    /// Gives a session that is through the stages its number and the seat's card.
    pub fn name(&self, t: GateThrough) -> GateHold
        requires own { t.guest.gate ≡ self.now }
        ensures same { (result.guest ≡ t.guest) × (result.fast ≡ t.fast) × (result.met ≡ t.met) }
        ensures hold { (result.held.pass.table ≡ self.now.seats) × (result.held.pass.place ≡ Holding result.held.card.number) }
        ensures low { result.held.card.number < self.now.seats.net.width }
        ensures fast { result.fast ≡ true → result.held.pass.firsts ≤ 4 * self.now.seats.net.width }
        ensures slow { result.fast ≡ false → result.held.pass.firsts ≤ 3 * depth (plan self.now.seats.net) t.guest.number + self.now.seats.net.width }
    {
        gates_are_short();
        let GateThrough { through, lane } = t;
        lane.tells();
        GateHold {
            hold: self.seats.name(through),
            lane,
        }
    }

    /// Enters: takes turns until the session is through, and then its seat.
    ///
    /// It may wait forever.
    pub fn enter<R: Wait>(&self, rt: &R, out: GateOut) -> GateHold
        requires own { out.gate ≡ self.now }
        ensures same { result.guest ≡ out }
        ensures met { Met out result.met }
        ensures hold { (result.held.pass.table ≡ self.now.seats) × (result.held.pass.place ≡ Holding result.held.card.number) }
        ensures low { result.held.card.number < self.now.seats.net.width }
        ensures few { result.fast ≡ true → result.met < self.now.seats.net.width }
        ensures many { result.fast ≡ false → self.now.seats.net.width ≤ result.met }
        ensures fast { result.fast ≡ true → result.held.pass.firsts ≤ 4 * self.now.seats.net.width }
        ensures slow { result.fast ≡ false → result.held.pass.firsts ≤ 3 * depth (plan self.now.seats.net) out.number + self.now.seats.net.width }
    {
        gates_are_short();
        let (pass, lane) = self.admit(out);
        lane.tells();
        GateHold {
            hold: self.seats.enter(rt, pass),
            lane,
        }
    }

    /// Leaves: gives the seat back, then the pass of the gate where the session has one, and then its place at the
    /// gate. The seat is noted as the last that the session had, with the way that it came.
    pub fn leave(&self, hold: GateHold) -> GateOut
        requires own { hold.guest.gate ≡ self.now }
        ensures { result ≡ guest_with_visit hold.guest hold.held.card.number hold.fast }
    {
        let GateHold { hold, lane } = hold;
        let Lane { own, mut seat } = lane;
        let number = hold.seat();
        let pass = self.seats.leave(hold);
        match own {
            Some(own) => {
                self.retreat(&mut seat, pass);
                GateOut { own, seat }
            }
            None => {
                self.give_slow::<Brand>(&mut seat, number);
                GateOut { own: pass, seat }
            }
        }
    }

    /// Takes the session's place, and finds the pass that it is to use.
    fn admit(&self, out: GateOut) -> (Out, Lane)
        requires own { out.gate ≡ self.now }
        ensures same { (result.1.guest ≡ out) × (result.1.pass ≡ result.0) }
        ensures met { Met out result.1.met }
        ensures few { result.1.fast ≡ true → result.1.met < self.now.seats.net.width }
        ensures many { result.1.fast ≡ false → self.now.seats.net.width ≤ result.1.met }
    {
        let GateOut { own, mut seat } = out;
        let found = self.take(&mut seat);
        if found <= FULL {
            return (own, Lane { own: None, seat });
        }
        let i = self.find(&mut seat);
        let pass = self.pass_out(&mut seat, i);
        let lane = Lane {
            own: Some(own),
            seat,
        };
        (pass, lane)
    }

    /// Gives a pass of the gate back, and the place.
    fn retreat(&self, seat: &mut GateSeat, pass: Out)
        requires own { seat.old.table_id ≡ self.now.id }
        requires seats { seat.old.me.0.seats ≡ self.now.seats }
        requires session { IsSession seat.old.me.0 }
        requires fast { (i : ℕ) × (i < self.now.seats.net.width) × (seat.old.me.0.spot ≡ Fast i) × (seat.old.me.1 ≡ (i, None) ∷ [])
            × (pass ≡ resting self.now.seats (sessions self.now.seats.net + i) (seat.old.me.0.kept ++ last_of pass.got ∷ [])) }
        ensures own { seat.new.table_id ≡ seat.old.table_id }
        ensures free { seat.new.me ≡ (record seat.old.me.0 { spot = Free; visits = seat.old.me.0.visits ++ (record { seat = last_of pass.got; fast = true }) ∷ []; kept = [] }, []) }
    {
        let i = pass.number() - self.sessions;
        self.pass_in(seat, i, pass);
        if i + 1 < self.width {
            self.clear(seat, i);
        }
        self.give(seat);
    }
}
