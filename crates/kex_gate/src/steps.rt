//! The steps of a session at the gate: each is one atomic access to one word.
ghost use Rattle.std.specs.Prelude.{◌≡◌, ◌+◌, ◌<◌, if◌then◌else◌, [], ◌∷◌, ◌++◌, true, false, None};
ghost use Rattle.kex_gate.specs.declared.view.Spot.TheVariants.{Free, Testing, Taking, Fast, Clearing, Giving, Slow};
ghost use Rattle.kex_gate.specs.Passes.{sessions, resting};
ghost use Rattle.kex_gate.specs.Steps.{view_at, entered_view, Meets, spot_at, spot_home, last_of, IsSession};
ghost use Rattle.kex_gate.specs.declared.gate.TheConstants.{FULL};

use crate::gate::{
    Clears, GateSeat, Gives, GivesSlow, Noting, PassesIn, PassesOut, ROOM, STILL, Takes, Tests,
    bit_word,
};
use crate::gated::GatedSeats;
use kex_words::Out;

impl GatedSeats {
    /// Take: lowers the count of room. What it found tells how many others it met, and so whether it is let through.
    pub(crate) fn take(&self, seat: &mut GateSeat) -> u64
        requires own { seat.old.table_id ≡ self.now.id }
        requires seats { seat.old.me.0.seats ≡ self.now.seats }
        requires session { IsSession seat.old.me.0 }
        requires free { seat.old.me.0.spot ≡ Free }
        ensures own { seat.new.table_id ≡ seat.old.table_id }
        ensures met { Meets seat.old.me.0 seat.new.me.0.met }
        ensures told { result + seat.new.me.0.met ≡ FULL + self.now.seats.net.width }
        ensures came { seat.new.me ≡ (entered_view seat.old.me.0 result seat.new.me.0.met, seat.old.me.1) }
    {
        self.table.shared.fetch_sub::<Takes>(seat, ROOM, 1)
    }

    /// Tests bits until one was clear, and gives its number. The last number has no bit.
    pub(crate) fn find(&self, seat: &mut GateSeat) -> u32
        requires own { seat.old.table_id ≡ self.now.id }
        requires seats { seat.old.me.0.seats ≡ self.now.seats }
        requires session { IsSession seat.old.me.0 }
        requires first { seat.old.me.0.spot ≡ spot_at self.now.seats.net.width 0 }
        ensures own { seat.new.table_id ≡ seat.old.table_id }
        ensures found { (result < self.now.seats.net.width) × (seat.new.me ≡ (view_at seat.old.me.0 (Taking result), seat.old.me.1)) }
    {
        for i in 0..self.width - 1 {
            if self.test(seat, i) {
                return i;
            }
        }
        self.width - 1
    }

    /// Test: sets bit i, and says whether it was clear.
    pub(crate) fn test(&self, seat: &mut GateSeat, i: u32) -> bool
        requires own { seat.old.table_id ≡ self.now.id }
        requires seats { seat.old.me.0.seats ≡ self.now.seats }
        requires session { IsSession seat.old.me.0 }
        requires testing { (i + 1 < self.now.seats.net.width) × (seat.old.me.0.spot ≡ Testing i) }
        ensures own { seat.new.table_id ≡ seat.old.table_id }
        ensures tested { seat.new.me ≡ (view_at seat.old.me.0 (if result then Taking i else spot_at self.now.seats.net.width (i + 1)), seat.old.me.1) }
    {
        let bit = self.table.shared.swap::<Tests>(seat, bit_word(i), 1);
        bit == 0
    }

    /// PassOut: pass i of the gate leaves its slot.
    pub(crate) fn pass_out(&self, seat: &mut GateSeat, i: u32) -> Out
        requires own { seat.old.table_id ≡ self.now.id }
        requires seats { seat.old.me.0.seats ≡ self.now.seats }
        requires session { IsSession seat.old.me.0 }
        requires taking { (seat.old.me.0.spot ≡ Taking i) × (seat.old.me.1 ≡ []) }
        ensures own { seat.new.table_id ≡ seat.old.table_id }
        ensures pass { result ≡ resting self.now.seats (sessions self.now.seats.net + i) result.got }
        ensures fast { seat.new.me ≡ (record seat.old.me.0 { spot = Fast i; kept = result.got }, (i, None) ∷ []) }
    {
        self.table.shared.load::<PassesOut>(seat, STILL);
        let Some(pass) = self.table.shared.exchange(seat, i as usize, None) else {
            unreachable!()
        };
        pass
    }

    /// PassIn: pass i goes home, and its last number is noted as a seat that the session had.
    pub(crate) fn pass_in(&self, seat: &mut GateSeat, i: u32, pass: Out)
        requires own { seat.old.table_id ≡ self.now.id }
        requires seats { seat.old.me.0.seats ≡ self.now.seats }
        requires session { IsSession seat.old.me.0 }
        requires fast { (seat.old.me.0.spot ≡ Fast i) × (seat.old.me.1 ≡ (i, None) ∷ []) }
        requires pass { pass ≡ resting self.now.seats (sessions self.now.seats.net + i) (seat.old.me.0.kept ++ last_of pass.got ∷ []) }
        ensures own { seat.new.table_id ≡ seat.old.table_id }
        ensures home { seat.new.me ≡ (record seat.old.me.0 { spot = spot_home self.now.seats.net.width i; visits = seat.old.me.0.visits ++ (record { seat = last_of pass.got; fast = true }) ∷ []; kept = [] }, []) }
    {
        let before = self.table.shared.exchange(seat, i as usize, Some(pass));
        let None = before else { unreachable!() };
        self.table.shared.load::<PassesIn>(seat, STILL);
    }

    /// Clear: clears bit i.
    pub(crate) fn clear(&self, seat: &mut GateSeat, i: u32)
        requires own { seat.old.table_id ≡ self.now.id }
        requires seats { seat.old.me.0.seats ≡ self.now.seats }
        requires session { IsSession seat.old.me.0 }
        requires clearing { (i + 1 < self.now.seats.net.width) × (seat.old.me.0.spot ≡ Clearing i) }
        ensures own { seat.new.table_id ≡ seat.old.table_id }
        ensures cleared { seat.new.me ≡ (view_at seat.old.me.0 Giving, seat.old.me.1) }
    {
        self.table.shared.store::<Clears>(seat, bit_word(i), 0);
    }

    /// Give: raises the count of room, by a session that was let through.
    pub(crate) fn give(&self, seat: &mut GateSeat)
        requires own { seat.old.table_id ≡ self.now.id }
        requires seats { seat.old.me.0.seats ≡ self.now.seats }
        requires session { IsSession seat.old.me.0 }
        requires giving { seat.old.me.0.spot ≡ Giving }
        ensures own { seat.new.table_id ≡ seat.old.table_id }
        ensures gave { seat.new.me ≡ (view_at seat.old.me.0 Free, seat.old.me.1) }
    {
        self.table.shared.fetch_add::<Gives>(seat, ROOM, 1);
    }

    /// The same by a session that went the slow way, which notes the number of the seat that it had.
    pub(crate) fn give_slow<J: Noting>(&self, seat: &mut GateSeat, number: u32)
        requires own { seat.old.table_id ≡ self.now.id }
        requires seats { seat.old.me.0.seats ≡ self.now.seats }
        requires session { IsSession seat.old.me.0 }
        requires slow { seat.old.me.0.spot ≡ Slow }
        requires said { J.seat ≡ number }
        ensures own { seat.new.table_id ≡ seat.old.table_id }
        ensures gave { seat.new.me ≡ (record seat.old.me.0 { spot = Free; visits = seat.old.me.0.visits ++ (record { seat = number; fast = false }) ∷ [] }, seat.old.me.1) }
    {
        let _ = number;
        self.table.shared.fetch_add::<GivesSlow<J>>(seat, ROOM, 1);
    }
}
