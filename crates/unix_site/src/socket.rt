//! A stream socket whose reads look for bytes before they wait for them.
ghost use Rattle.std.specs.Io.{ReadsAtMost, WritesAtMost};
ghost use Rattle.std.specs.IoError.{error_kind};
ghost use Rattle.std.specs.Prelude.{◌≡◌, ◌≤◌, IfOk, IfSome, false, length, true};
ghost use Rattle.unix_site.specs.Quiet.{is_quiet_kind};

use crate::busy_poll::BusyPoll;
use std::hint;
use std::io::{self, ErrorKind, Read, Write};
use std::os::unix::net::UnixStream;
use std::time::Duration;

/// How long a read waits for bytes, in seconds.
const READ_SECONDS: u64 = 1;

/// How long a write waits for a client that reads nothing, in seconds.
const WRITE_SECONDS: u64 = 10;

/// How many times a read looks for bytes before it waits, which takes some ten microseconds.
const LOOKS: u32 = 60;

/// How often the processor pauses between two looks.
const PAUSES: u32 = 4;

/// Whether a call ended only because nothing came in its time, or because a signal did.
pub(crate) fn is_quiet(error: &io::Error) -> bool
    ensures { result ≡ is_quiet_kind (error_kind error.now) }
{
    matches!(
        error.kind(),
        ErrorKind::WouldBlock | ErrorKind::TimedOut | ErrorKind::Interrupted
    )
}

/// Lets the processor pause between two looks.
fn pause() {
    for _ in 0..PAUSES {
        hint::spin_loop();
    }
}

/// A stream socket. A read waits about a second for bytes, and a write ten seconds for the other end to read. While the
/// other end answers soon, a read looks for bytes some microseconds long before it waits: then neither end's processor
/// has to be woken.
#[derive(Drop)]
pub(crate) struct Socket {
    stream: UnixStream,
    /// Whether calls of the stream wait.
    waits: bool,
    poll: BusyPoll,
}

impl Socket {
    /// The socket of a stream that is as it was made. It fails as the system does where that refuses the times.
    pub(crate) fn over(stream: UnixStream) -> io::Result<Socket>
        ensures { IfOk result (λ socket. (socket.waits ≡ true) × (socket.poll ≡ record { hits = 0; rest = 0; last_rest = 15 })) }
    {
        stream.set_read_timeout(Some(Duration::from_secs(READ_SECONDS)))?;
        stream.set_write_timeout(Some(Duration::from_secs(WRITE_SECONDS)))?;
        Ok(Socket {
            stream,
            waits: true,
            poll: BusyPoll::new(),
        })
    }

    /// Has calls of the stream wait, or not.
    fn set_waits(&mut self, waits: bool) -> io::Result<()>
        ensures waits { IfOk result (λ _. self.new.waits ≡ waits) }
        ensures poll { self.new.poll ≡ self.old.poll }
    {
        if self.waits != waits {
            self.stream.set_nonblocking(!waits)?;
            self.waits = waits;
        }
        Ok(())
    }

    /// Looks for bytes. None where none came.
    fn look(&mut self, buffer: &mut [u8]) -> io::Result<Option<usize>>
        ensures { IfOk result (λ found. IfSome found (λ count. count ≤ length buffer.new)) }
    {
        self.set_waits(false)?;
        for _ in 0..LOOKS {
            match self.stream.read(buffer) {
                Ok(count) => {
                    self.poll.hit();
                    return Ok(Some(count));
                }
                Err(error) if is_quiet(&error) => pause(),
                Err(error) => return Err(error),
            }
        }
        self.poll.miss();
        Ok(None)
    }

    /// Reads what came, at most as many bytes as the buffer has; 0 is the end.
    pub(crate) fn read(&mut self, buffer: &mut [u8]) -> io::Result<usize>
        ensures { ReadsAtMost result buffer.new }
    {
        if self.poll.begin_read() {
            if let Some(count) = self.look(buffer)? {
                return Ok(count);
            }
        }
        self.set_waits(true)?;
        self.stream.read(buffer)
    }

    /// Writes as many bytes as are taken without waiting.
    fn write_at_once(&mut self, piece: &[u8]) -> io::Result<usize>
        ensures taken { WritesAtMost result piece.now }
        ensures waits { self.new.waits ≡ self.old.waits }
        ensures poll { self.new.poll ≡ self.old.poll }
    {
        match self.stream.write(piece) {
            Err(error) if is_quiet(&error) => Ok(0),
            written => written,
        }
    }

    /// Writes the whole piece, or fails where not all of it is taken without waiting.
    pub(crate) fn write_without_waiting(&mut self, piece: &[u8]) -> io::Result<()>
        ensures waits { IfOk result (λ _. self.new.waits ≡ false) }
        ensures poll { self.new.poll ≡ self.old.poll }
    {
        self.set_waits(false)?;
        if self.write_at_once(piece)? < piece.len() {
            return Err(ErrorKind::WouldBlock.into());
        }
        Ok(())
    }

    /// Writes the whole piece.
    pub(crate) fn write_all(&mut self, piece: &[u8]) -> io::Result<()>
        ensures { self.new.poll ≡ self.old.poll }
    {
        let written = if self.waits {
            0
        } else {
            self.write_at_once(piece)?
        };
        let rest = &piece[written..];
        if rest.is_empty() {
            return Ok(());
        }
        self.set_waits(true)?;
        self.stream.write_all(rest)
    }
}
