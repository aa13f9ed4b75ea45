//! Why an errand isn't done.
use crate::client::BadWord;
use crate::lost::Lost;
use crate::request::Request;
use line_protocol::{Feeder, WireFault};
use outside::WriteFailed;
use std::alloc::AllocError;

/// A request and the reply to it, which isn't what the request asks for.
#[derive(Drop)]
pub struct Refusal {
    /// The request.
    pub request: Request,
    /// The reply.
    pub reply: Feeder,
}

/// Why an errand isn't done.
#[derive(Drop)]
pub enum Cause {
    /// No reply came.
    Lost(Lost),
    /// A reply came that isn't what was asked for.
    Refused(Refusal),
    /// This reply to a GLANCE has no numbers.
    NoNumbers(Feeder),
    /// The words make no request of the protocol, for this fault.
    NoRequest(WireFault),
    /// The words make a line of more than 1,024 bytes, which the daemon would not read.
    TooLong,
    /// This word that says who asks is no name.
    BadWord(BadWord),
    /// There was too little memory.
    NoMemory,
    /// Standard output didn't take all of it.
    WriteFault,
}

impl From<Lost> for Cause {
    ghost use Rattle.std.specs.Prelude.{◌≡◌};
    ghost use Rattle.client_talk.specs.declared.cause.Cause.TheVariants.{Lost};

    ghost from_gives = { λ lost made. made ≡ Lost lost };

    fn from(lost: Lost) -> Cause {
        Cause::Lost(lost)
    }
}

impl From<AllocError> for Cause {
    ghost use Rattle.std.specs.Prelude.{◌≡◌};
    ghost use Rattle.client_talk.specs.declared.cause.Cause.TheVariants.{NoMemory};

    ghost from_gives = { λ _ made. made ≡ NoMemory };

    fn from(_failed: AllocError) -> Cause {
        Cause::NoMemory
    }
}

impl From<WriteFailed> for Cause {
    ghost use Rattle.std.specs.Prelude.{◌≡◌};
    ghost use Rattle.client_talk.specs.declared.cause.Cause.TheVariants.{WriteFault};

    ghost from_gives = { λ _ made. made ≡ WriteFault };

    fn from(_failed: WriteFailed) -> Cause {
        Cause::WriteFault
    }
}
