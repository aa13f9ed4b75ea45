//! The end of a desk's seats.
ghost use Rattle.std.specs.Prelude.{◌≡◌, ℕ, ◌%◌, ◌^◌, ◌<◌, ◌≤◌, length, sum_by, Some, EachIndex, vec_len, slice_get};
ghost use Rattle.kex_words.specs.Passes.{counted_card, times};
ghost use Rattle.desk_seats.specs.Views.{parties_of};

use crate::gathering::{Gathered, SeatGathering};
use crate::seats::{DeskSeats, SeatsKind};
use kex_words::Card;

impl DeskSeats {
    /// Gives the cards back, in the order of their numbers, once all passes were taken in.
    ///
    /// The uses of card s are the number of times that the parties had the seat s, modulo 2^64. So the uses of all
    /// cards together are as many as the numbers that the parties took. Each number of a party is that of one pass. It
    /// takes no memory and waits for nobody.
    pub fn close_gathered(self, gathering: SeatGathering) -> Vec<Card>
        requires own { gathering.table ≡ self }
        requires count { length gathering.numbers ≡ parties_of self }
        ensures count { vec_len result ≡ self.net.width }
        ensures cards { EachIndex result.items (λ s. slice_get result.items s ≡ Some (counted_card gathering.got s)) }
        ensures uses { sum_by (λ c. c.uses) result.items % 2 ^ 64 ≡ length gathering.got % 2 ^ 64 }
        ensures numbers { (q : ℕ) → q < parties_of self → times q gathering.numbers ≡ 1 }
        ensures got { (s : ℕ) → self.net.width ≤ s → times s gathering.got ≡ 0 }
    {
        let DeskSeats { kind } = self;
        let SeatGathering {
            about: _,
            kind: taken,
        } = gathering;
        match kind {
            SeatsKind::Plain(seats) => {
                seats.net().laws();
                let Gathered::Plain(taken) = taken else {
                    unreachable!()
                };
                seats.close_gathered(taken)
            }
            SeatsKind::Gated(gate) => {
                let Gathered::Gated(passes) = taken else {
                    unreachable!()
                };
                gate.close(passes)
            }
        }
    }
}
