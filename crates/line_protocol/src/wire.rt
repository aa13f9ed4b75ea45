//! What a client may ask, and why a line is no request.
ghost use Rattle.std.specs.Prelude.{◌≡◌};
ghost use Rattle.line_protocol.specs.Requests.{number_of_fault};

use lic_types::{ClientRef, NameRef, Version};
use thiserror::Error;

/// What a line of a client asks. Its names stand in the line, and are copied when they are asked for.
#[derive(Drop)]
pub enum Wire<'a> {
    /// `HELLO user host display project`: who the client is.
    Hello(ClientRef<'a>),
    /// `CHECKOUT feature version`: a seat, now or not at all.
    Checkout(NameRef<'a>, Version),
    /// `QUEUE feature version`: a seat, or else a place in the queue.
    Queue(NameRef<'a>, Version),
    /// `CHECKIN feature`: to give the seat, or the place in the queue, back.
    Checkin(NameRef<'a>),
    /// `BEAT feature`: to be heard.
    Beat(NameRef<'a>),
    /// `LOOK feature`: whether the session has a seat.
    Look(NameRef<'a>),
    /// `STATUS feature`: the numbers of the desk.
    Status(NameRef<'a>),
    /// `GLANCE feature`: the numbers of the desk as they were published last.
    Glance(NameRef<'a>),
    /// `REREAD number`: that the rule set of this number holds from now on.
    Reread(u32),
    /// `QUIT`: the end of the session.
    Quit,
    /// `SHUTDOWN`: the end of all sessions.
    Shutdown,
}

/// Why a line isn't a request. The faults are tried in this order.
#[derive(Clone, Copy, Debug, PartialEq, Eq, Error)]
pub enum WireFault {
    /// A byte isn't from 32 to 126.
    #[error("bad byte")]
    BadByte,
    /// There is no word.
    #[error("empty")]
    Empty,
    /// The first word is no request.
    #[error("unknown word")]
    UnknownWord,
    /// The request has another number of words.
    #[error("word count")]
    WordCount,
    /// A word is no name.
    #[error("bad name")]
    BadName,
    /// A word is no version.
    #[error("bad version")]
    BadVersion,
    /// A word is no number below 2^32.
    #[error("bad number")]
    BadNumber,
}

impl WireFault {
    /// Its number, as a reply line tells it.
    pub fn number(&self) -> u8
        ensures { result ≡ number_of_fault self.now }
    {
        match self {
            WireFault::Empty => 1,
            WireFault::UnknownWord => 2,
            WireFault::WordCount => 3,
            WireFault::BadName => 4,
            WireFault::BadVersion => 5,
            WireFault::BadByte => 6,
            WireFault::BadNumber => 7,
        }
    }
}
