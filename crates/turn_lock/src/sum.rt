//! The smallest value that can stand behind the lock: a running sum.
use crate::kept::{Kept, Stepped};
use std::sync::Wait;

/// A request to a [`Sum`].
#[derive(Clone, Copy, Debug, Drop)]
pub struct Addend {
    /// The number of the party that asks.
    pub party: u32,
    /// What is added.
    pub amount: u64,
}

/// The sum of all amounts so far, modulo 2^64. Each request is answered with the sum before it, and uses the moment
/// that it is handed.
#[derive(Debug, Drop)]
pub struct Sum {
    /// The sum, which is 0 where the sum stands for no request.
    pub total: u64,
}

impl Kept for Sum {
    type Request = Addend;

    type Answer = u64;

    type Law = ();

    ghost use Rattle.std.specs.Prelude.{◌≡◌};
    ghost use Rattle.turn_lock.specs.Sums.{IsRun, total_of};

    ghost law = { λ _. tt };

    ghost fits = { λ _ _. Unit {0} };

    ghost party = { λ q. q.party };

    ghost run = { λ _ h. IsRun h };

    ghost used = { λ _ _ m. m };

    ghost stands = { λ s h. s.total ≡ total_of h };

    fn step<R: Wait>(&mut self, _rt: &R, request: &Addend, moment: u64) -> Stepped<u64> {
        let answer = self.total;
        self.total = answer.wrapping_add(request.amount);
        Stepped {
            answer,
            used: moment,
        }
    }
}
