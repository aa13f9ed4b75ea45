//! Why no reply comes.
use session_outside::LinkFailed;
use thiserror::Error;

/// Why no reply comes to a line.
#[derive(Clone, Copy, Debug, PartialEq, Eq, Error)]
pub enum Lost {
    /// The line couldn't be written whole, or a read failed.
    #[error("link fault")]
    Fault,
    /// The daemon closed the link.
    #[error("link closed")]
    Closed,
    /// Nothing came in 30 reads in which the link was Quiet.
    #[error("no reply")]
    Silent,
    /// What came is no line of at most 1,024 bytes, or more than one.
    #[error("not a reply")]
    Garbled,
    /// Bytes came while nothing was asked.
    #[error("an unasked reply")]
    Unasked,
}

impl From<LinkFailed> for Lost {
    ghost use Rattle.std.specs.Prelude.{◌≡◌};
    ghost use Rattle.client_talk.specs.declared.lost.Lost.TheVariants.{Fault};

    ghost from_gives = { λ _ made. made ≡ Fault };

    fn from(_failed: LinkFailed) -> Lost {
        Lost::Fault
    }
}
