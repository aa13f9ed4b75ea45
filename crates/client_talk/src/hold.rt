//! Which seat a client is to hold, and how.
ghost use Rattle.std.specs.Prelude.{◌≡◌};
ghost use Rattle.client_talk.specs.Holding.{waits_by};

use crate::want::Want;

/// How many seconds pass between BEATs.
#[derive(Clone, Copy, Debug, PartialEq, Eq)]
pub struct Pace {
    /// While a seat is held.
    pub holding: u64,
    /// While a seat is waited for; `None` where it isn't.
    pub waiting: Option<u64>,
}

impl Pace {
    /// The seconds between BEATs while a seat is waited for, where this reply says that it is.
    pub(crate) fn waits_by(&self, reply: &[u8]) -> Option<u64>
        ensures { result ≡ waits_by self.now reply.now }
    {
        if Want::Seat.accepts(reply) {
            None
        } else {
            self.waiting
        }
    }
}

/// Which seat is to be held, and how.
#[derive(Clone, Copy, Debug, PartialEq, Eq)]
pub struct Hold<'a> {
    /// The feature.
    pub feature: &'a str,
    /// The least version that will do.
    pub version: &'a str,
    /// How often a BEAT is asked.
    pub pace: Pace,
}
