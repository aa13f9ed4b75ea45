//! Which replies a request wants.
ghost use Rattle.std.specs.Prelude.{◌≡◌};
ghost use Rattle.client_talk.specs.Replies.{accepts, opens};

use lic_text::words_in;

/// Which replies are what a request asks for. Each is told by its first word.
#[derive(Clone, Copy, Debug, PartialEq, Eq)]
pub enum Want {
    /// WELCOME: the client is known now.
    Welcome,
    /// Any reply to a request: neither BAD nor NOHELLO.
    Answer,
    /// GLANCE: the numbers of a desk.
    Numbers,
    /// GRANTED or RETAKEN: a seat.
    Seat,
    /// GRANTED or RETAKEN, or QUEUED: a seat, or a place in the queue.
    Place,
    /// BEATEN: the seat is still there.
    Beaten,
    /// RETURNED or LINGERING: the seat was given back.
    Returned,
    /// UNQUEUED, RETURNED or LINGERING: the place in the queue was given back, or the seat that had come to it.
    Left,
    /// REREAD: the rule set holds.
    Reread,
    /// STOPPING: all sessions end.
    Stopping,
}

/// Whether the first word of a reply is this one.
fn opens(reply: &[u8], word: &[u8]) -> bool
    ensures { result ≡ opens reply.now word.now }
{
    match words_in(reply).next() {
        Some(first) => first == word,
        None => false,
    }
}

/// Whether a reply brings a seat.
fn is_seat(reply: &[u8]) -> bool
    ensures { result ≡ accepts Want.Seat reply.now }
{
    opens(reply, b"GRANTED") || opens(reply, b"RETAKEN")
}

/// Whether by a reply a seat was given back.
fn is_return(reply: &[u8]) -> bool
    ensures { result ≡ accepts Want.Returned reply.now }
{
    opens(reply, b"RETURNED") || opens(reply, b"LINGERING")
}

impl Want {
    /// Whether a reply is what is wanted.
    pub fn accepts(self, reply: &[u8]) -> bool
        ensures { result ≡ accepts self reply.now }
    {
        match self {
            Want::Welcome => opens(reply, b"WELCOME"),
            Want::Answer => !opens(reply, b"BAD") && !opens(reply, b"NOHELLO"),
            Want::Numbers => opens(reply, b"GLANCE"),
            Want::Seat => is_seat(reply),
            Want::Place => is_seat(reply) || opens(reply, b"QUEUED"),
            Want::Beaten => opens(reply, b"BEATEN"),
            Want::Returned => is_return(reply),
            Want::Left => is_return(reply) || opens(reply, b"UNQUEUED"),
            Want::Reread => opens(reply, b"REREAD"),
            Want::Stopping => opens(reply, b"STOPPING"),
        }
    }
}
