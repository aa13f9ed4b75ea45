//! The lines of a trial's client, and when it gives each.
ghost use Rattle.std.specs.Prelude.{◌≡◌};
ghost use Rattle.trial_link.specs.Stages.{is_granted, stage_after};

/// A line of a trial's client.
#[derive(Clone, Copy, Debug, PartialEq, Eq)]
pub enum Call {
    /// The HELLO line, which is given first.
    Hello,
    /// The CHECKOUT of the one feature.
    Checkout,
    /// Its CHECKIN.
    Checkin,
    /// QUIT, after all rounds.
    Quit,
}

/// Where a trial's client stands.
#[derive(Clone, Copy, Debug, PartialEq, Eq)]
pub enum Stage {
    /// It gives this line.
    Gives(Call),
    /// It gave this line and waits for the reply.
    Awaits(Call),
    /// It gives no line any more.
    Over,
}

/// How a reply begins that found no seat.
const NO_SEAT: &[u8] = b"NOSEAT";

/// How a reply begins that granted one.
const GRANTED: &[u8] = b"GRANTED";

/// Where a client stands after the reply to this line. `more` tells whether a round is still to be played then.
pub(crate) fn stage_after(call: Call, reply: &[u8], more: bool) -> Stage
    ensures { result ≡ stage_after call reply.now more }
{
    match call {
        Call::Hello => Stage::Gives(Call::Checkout),
        Call::Checkout if reply.starts_with(NO_SEAT) => Stage::Gives(Call::Checkout),
        Call::Checkout if reply.starts_with(GRANTED) => Stage::Gives(Call::Checkin),
        Call::Checkin if more => Stage::Gives(Call::Checkout),
        Call::Checkin => Stage::Gives(Call::Quit),
        Call::Checkout | Call::Quit => Stage::Over,
    }
}

/// Whether a written piece begins with GRANTED.
pub(crate) fn is_granted(piece: &[u8]) -> bool
    ensures { result ≡ is_granted piece.now }
{
    piece.starts_with(GRANTED)
}
