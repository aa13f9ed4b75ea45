//! How a seat is made to agree with an entry.
ghost use Rattle.std.specs.Prelude.{◌≡◌, ◌<◌, ◌||◌, ◌∷◌, ◌++◌, [], true, false};
ghost use Rattle.desk_seats.specs.Passes.{IsOut};
ghost use Rattle.desk_seats.specs.Turns.{pass_in_turn, Goes};
ghost use Rattle.counter.specs.Account.{brings_seat};
ghost use Rattle.feature_desk.specs.Sitters.{IsOf};
ghost use Rattle.feature_desk.specs.Sittings.{is_entering, is_hold, pass_in, AreLow, IsHeld, Sits};
ghost use Rattle.feature_desk.specs.Seatings.{GoesOn, IsAt, Keeps, MatchedAs, Matches, Starts, Steps};
ghost use Rattle.feature_desk.specs.Standing.{is_of_rereading};

use crate::desk::Desk;
use crate::passes::{Chair, DeskPass, Noted, Seating};
use core::mem::replace_with;
use counter::Asked;
use desk_seats::{SeatHold, SeatTurn};
use std::sync::Wait;

impl Desk {
    /// Makes the party's seat agree with the entry that was noted. It may wait for a seat.
    ///
    /// After Granted or Retaken a seat that is still held is left, and then a seat is entered. After Reread the seat is
    /// as it was. After another reply of holding the seat is held on. After any other reply a seat that is held is
    /// left.
    pub fn match_seat<R: Wait>(&self, rt: &R, noted: Noted) -> (DeskPass, Asked)
        requires of { IsOf noted.sitter self.now }
        ensures matched { MatchedAs noted result.0 }
        ensures asked { result.1 ≡ noted.asked }
        ensures reread { is_of_rereading noted.asked.reply ≡ true → result.0.seat ≡ noted.sitter.seat }
        ensures of { IsOf result.0 self.now }
    {
        let Noted {
            ticket,
            mut chair,
            queued,
            asked,
        } = noted;
        self.reseat(rt, &mut chair, &asked);
        (
            DeskPass {
                ticket,
                chair,
                queued,
            },
            asked,
        )
    }

    /// Takes one step of [`match_seat`](Desk::match_seat), and waits for nobody.
    ///
    /// Where a seat has to be entered, the first step leaves a seat that is still held and begins to enter, and each
    /// further one takes one turn among the stages. Again comes exactly where that left the party among the stages. In
    /// every other case it does what `match_seat` does.
    pub fn turn_seat(&self, noted: Noted) -> Seating
        requires of { IsOf noted.sitter self.now }
        ensures steps { Steps noted result }
        ensures on { GoesOn (brings_seat noted.asked.reply) noted.entering noted.sitter.seat result }
        ensures reread { is_of_rereading noted.asked.reply ≡ true → Keeps noted result }
        ensures of { IsAt result self.now }
    {
        let Noted {
            ticket,
            chair,
            queued,
            asked,
        } = noted;
        if !asked.reply.brings_seat() {
            let chair = self.kept(chair, asked.held);
            return Seating::Matched(
                DeskPass {
                    ticket,
                    chair,
                    queued,
                },
                asked,
            );
        }
        match self.stepped(chair) {
            SeatTurn::Again(entering) => Seating::Again(Noted {
                ticket,
                chair: Chair::Entering(entering),
                queued,
                asked,
            }),
            SeatTurn::Through(through) => {
                let hold = self.seats.name(through);
                Seating::Matched(
                    DeskPass {
                        ticket,
                        chair: Chair::Hold(hold),
                        queued,
                    },
                    asked,
                )
            }
        }
    }

    /// Makes the chair agree, where it lies.
    pub(crate) fn reseat<R: Wait>(&self, rt: &R, chair: &mut Chair, asked: &Asked)
        requires own { (pass_in chair.old).table ≡ self.now.seats }
        requires sits { Sits chair.old }
        requires way { is_entering chair.old ≡ true → brings_seat asked.now.reply ≡ true }
        requires stays { brings_seat asked.now.reply ≡ false → asked.now.held ≡ true → is_hold chair.old ≡ true }
        ensures own { ((pass_in chair.new).table ≡ (pass_in chair.old).table) × ((pass_in chair.new).number ≡ (pass_in chair.old).number) }
        ensures sits { Sits chair.new × (is_entering chair.new ≡ false) × (is_hold chair.new ≡ (brings_seat asked.now.reply || asked.now.held)) }
        ensures matched { Matches (brings_seat asked.now.reply) asked.now.held (pass_in chair.old) (pass_in chair.new) }
        ensures low { AreLow self.now.seats.net.width (pass_in chair.old).got → AreLow self.now.seats.net.width (pass_in chair.new).got }
        ensures goes { Goes (pass_in chair.old) (pass_in chair.new) }
        ensures same { brings_seat asked.now.reply ≡ false → is_hold chair.old ≡ asked.now.held → pass_in chair.new ≡ pass_in chair.old }
    {
        if asked.reply.brings_seat() {
            replace_with(
                chair,
                (),
                |chair, _none| (Chair::Hold(self.entered(rt, chair)), ()),
            );
        } else if !asked.held && chair.is_hold() {
            replace_with(chair, (), |chair, _none| (self.left(chair), ()));
        }
    }

    /// Enters a seat. What is held is left before.
    fn entered<R: Wait>(&self, rt: &R, chair: Chair) -> SeatHold
        requires own { (pass_in chair).table ≡ self.now.seats }
        requires sits { Sits chair }
        ensures own { (result.pass.table ≡ (pass_in chair).table) × (result.pass.number ≡ (pass_in chair).number) }
        ensures held { IsHeld result.pass result.card.number }
        ensures low { result.card.number < self.now.seats.net.width }
        ensures got { result.pass.got ≡ (pass_in chair).got ++ result.card.number ∷ [] }
        ensures goes { Goes (pass_in chair) result.pass }
    {
        let turn = self.stepped(chair);
        self.seats.go_on(rt, turn)
    }

    /// Keeps what is held, or leaves it.
    fn kept(&self, chair: Chair, held: bool) -> Chair
        requires own { (pass_in chair).table ≡ self.now.seats }
        requires sits { Sits chair }
        requires rests { is_entering chair ≡ false }
        requires stays { held ≡ true → is_hold chair ≡ true }
        ensures own { ((pass_in result).table ≡ (pass_in chair).table) × ((pass_in result).number ≡ (pass_in chair).number) }
        ensures sits { Sits result × (is_entering result ≡ false) × (is_hold result ≡ held) }
        ensures matched { Matches false held (pass_in chair) (pass_in result) }
        ensures goes { Goes (pass_in chair) (pass_in result) }
        ensures same { is_hold chair ≡ held → pass_in result ≡ pass_in chair }
    {
        if held { chair } else { self.left(chair) }
    }

    /// Leaves what is held.
    fn left(&self, chair: Chair) -> Chair
        requires own { (pass_in chair).table ≡ self.now.seats }
        requires sits { Sits chair }
        requires rests { is_entering chair ≡ false }
        ensures own { ((pass_in result).table ≡ (pass_in chair).table) × ((pass_in result).number ≡ (pass_in chair).number) }
        ensures out { IsOut (pass_in result) × Sits result × (is_entering result ≡ false) × (is_hold result ≡ false) }
        ensures got { (pass_in result).got ≡ (pass_in chair).got }
        ensures goes { Goes (pass_in chair) (pass_in result) }
        ensures same { is_hold chair ≡ false → pass_in result ≡ pass_in chair }
    {
        match chair {
            Chair::Out(out) => Chair::Out(out),
            Chair::Hold(hold) => Chair::Out(self.seats.leave(hold)),
            Chair::Entering(_) => unreachable!(),
        }
    }

    /// One step towards a seat: what is held is left, and the party begins to enter; or it takes its turn.
    fn stepped(&self, chair: Chair) -> SeatTurn
        requires own { (pass_in chair).table ≡ self.now.seats }
        requires sits { Sits chair }
        ensures own { ((pass_in_turn result).table ≡ (pass_in chair).table) × ((pass_in_turn result).number ≡ (pass_in chair).number) }
        ensures got { (pass_in_turn result).got ≡ (pass_in chair).got }
        ensures goes { Goes (pass_in chair) (pass_in_turn result) }
        ensures starts { Starts (is_entering chair) (pass_in chair) result }
    {
        match chair {
            Chair::Out(out) => self.seats.begin(out),
            Chair::Hold(hold) => {
                let out = self.seats.leave(hold);
                self.seats.begin(out)
            }
            Chair::Entering(entering) => self.seats.turn(entering),
        }
    }
}
