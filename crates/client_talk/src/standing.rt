//! How a client stands at a desk.
ghost use Rattle.std.specs.Prelude.{◌≡◌};
ghost use Rattle.client_talk.specs.Standing.{beat_want, ends, return_want};

use crate::want::Want;

/// How a client stands at a desk.
#[derive(Clone, Copy, Debug, PartialEq, Eq)]
pub enum Standing {
    /// It has a place in the queue.
    Waiting,
    /// It has a seat.
    Holding,
}

impl Standing {
    /// Which replies to a BEAT are wanted.
    pub(crate) fn beat_want(self) -> Want
        ensures { result ≡ beat_want self }
    {
        match self {
            Standing::Waiting => Want::Place,
            Standing::Holding => Want::Beaten,
        }
    }

    /// Which replies to a CHECKIN are wanted.
    pub(crate) fn return_want(self) -> Want
        ensures { result ≡ return_want self }
    {
        match self {
            Standing::Waiting => Want::Left,
            Standing::Holding => Want::Returned,
        }
    }

    /// Whether this reply to a BEAT ends it: a seat has come to a client that waits.
    pub(crate) fn ends(self, reply: &[u8]) -> bool
        ensures { result ≡ ends self reply.now }
    {
        match self {
            Standing::Waiting => Want::Seat.accepts(reply),
            Standing::Holding => false,
        }
    }
}
