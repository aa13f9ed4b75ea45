//! A connection to a client.
ghost use Rattle.std.specs.Prelude.{◌≡◌, IfOk, Some};

use crate::flag::BellFlag;
use crate::socket::{Socket, is_quiet};
use session_outside::{Got, Link, LinkFailed};
use std::io;
use std::os::unix::net::UnixStream;

/// A connection to a client. A read that waits about a second for bytes is Quiet. A write that waits ten seconds for
/// its client to read fails. Once the bell of the door that gave the link has rung, each read is Quiet at once, whatever
/// bytes lie there, and a write that would have to wait fails at once.
#[derive(Drop)]
pub struct UnixLink {
    socket: Socket,
    /// The bell of the door that gave the link, if one did.
    bell: Option<BellFlag>,
    /// How many calls failed.
    faults: u64,
    /// How many reads were Quiet.
    quiets: u64,
}

impl UnixLink {
    /// The link over this stream and of no door, of which no call has failed. It fails as the system does where that
    /// refuses the times.
    pub fn over(stream: UnixStream) -> io::Result<UnixLink>
        ensures { IfOk result (λ link. (link.faults ≡ 0) × (link.quiets ≡ 0)) }
    {
        UnixLink::make(stream, None)
    }

    /// As `over`, of a door that has this bell.
    pub(crate) fn of_door(stream: UnixStream, bell: BellFlag) -> io::Result<UnixLink>
        ensures { IfOk result (λ link. (link.bell ≡ Some bell) × (link.faults ≡ 0) × (link.quiets ≡ 0)) }
    {
        UnixLink::make(stream, Some(bell))
    }

    fn make(stream: UnixStream, bell: Option<BellFlag>) -> io::Result<UnixLink>
        ensures { IfOk result (λ link. (link.bell ≡ bell) × (link.faults ≡ 0) × (link.quiets ≡ 0)) }
    {
        Ok(UnixLink {
            socket: Socket::over(stream)?,
            bell,
            faults: 0,
            quiets: 0,
        })
    }

    /// Whether the bell has rung.
    fn is_rung(&self) -> bool {
        match &self.bell {
            Some(bell) => bell.is_rung(),
            None => false,
        }
    }
}

impl Link for UnixLink {
    ghost tells = { λ _ _. Unit {0} };

    ghost faults = { λ l. l.faults };

    ghost quiets = { λ l. l.quiets };

    fn read(&mut self, buffer: &mut [u8]) -> Got {
        if self.is_rung() {
            self.quiets = self.quiets.saturating_add(1);
            return Got::Quiet;
        }
        match self.socket.read(buffer) {
            Ok(0) => Got::End,
            Ok(count) => Got::Bytes(count),
            Err(error) if is_quiet(&error) => {
                self.quiets = self.quiets.saturating_add(1);
                Got::Quiet
            }
            Err(_) => {
                self.faults = self.faults.saturating_add(1);
                Got::Failed
            }
        }
    }

    fn write(&mut self, piece: &[u8]) -> Result<(), LinkFailed> {
        let written = if self.is_rung() {
            self.socket.write_without_waiting(piece)
        } else {
            self.socket.write_all(piece)
        };
        if written.is_ok() {
            return Ok(());
        }
        self.faults = self.faults.saturating_add(1);
        Err(LinkFailed)
    }
}
