//! How the program ends.
ghost use Rattle.std.specs.Prelude.{◌≡◌, ◌++◌, OnOk, IfOk};
ghost use Rattle.licence_client.specs.Ends.{bad_word_fault, bad_word_text, cause_line, code_of, fault_text, line_of, lost_text, name_fault_text, unconnected, unread, variable_text, word_places, word_text};

use client_talk::{BadWord, Cause, ClientWord, Lost};
use lic_types::NameFault;
use line_protocol::WireFault;
use std::alloc::{AllocError, Global};
use std::io::ErrorKind;

/// How the program ends.
#[derive(Drop)]
pub enum End {
    /// All was asked, answered as it was wanted, and printed; or help or the version was.
    Done,
    /// The words are no command.
    Usage,
    /// Nobody listens at the socket.
    NoDaemon,
    /// The system doesn't let this user connect to the socket.
    NotAllowed,
    /// The errand isn't done, for this cause.
    Stopped(Cause),
}

impl End {
    /// The end where connecting failed in this way.
    pub fn unconnected(kind: ErrorKind) -> End
        ensures { result ≡ unconnected kind }
    {
        match kind {
            ErrorKind::PermissionDenied => End::NotAllowed,
            ErrorKind::OutOfMemory => End::Stopped(Cause::NoMemory),
            _ => End::NoDaemon,
        }
    }

    /// The end where the words of the command line could not be read, for this cause.
    pub fn unread(kind: ErrorKind) -> End
        ensures { result ≡ unread kind }
    {
        match kind {
            ErrorKind::OutOfMemory => End::Stopped(Cause::NoMemory),
            _ => End::Usage,
        }
    }

    /// The exit status of the program.
    pub fn code(&self) -> u8
        ensures { result ≡ code_of self.now }
    {
        match self {
            End::Done => 0,
            End::Usage => 2,
            End::NoDaemon => 3,
            End::Stopped(Cause::Refused(_)) => 1,
            End::Stopped(Cause::NoRequest(_) | Cause::TooLong | Cause::BadWord(_)) => 2,
            End::Stopped(Cause::Lost(Lost::Closed)) => 4,
            End::Stopped(Cause::Lost(Lost::Fault)) => 5,
            End::Stopped(Cause::Lost(Lost::Silent)) => 6,
            End::Stopped(Cause::WriteFault) => 7,
            End::Stopped(Cause::NoMemory) => 8,
            End::Stopped(Cause::Lost(Lost::Garbled | Lost::Unasked)) => 9,
            End::Stopped(Cause::NoNumbers(_)) => 9,
            End::NotAllowed => 10,
        }
    }
}

/// What a fault of a request is called.
fn fault_text(fault: &WireFault) -> &'static [u8]
    ensures { result.now ≡ fault_text fault.now }
{
    match fault {
        WireFault::BadByte => b"no request: bad byte\n",
        WireFault::Empty => b"no request: empty\n",
        WireFault::UnknownWord => b"no request: unknown word\n",
        WireFault::WordCount => b"no request: word count\n",
        WireFault::BadName => b"no request: bad name\n",
        WireFault::BadVersion => b"no request: bad version\n",
        WireFault::BadNumber => b"no request: bad number\n",
    }
}

/// What the want of a reply is called.
fn lost_text(lost: &Lost) -> &'static [u8]
    ensures { result.now ≡ lost_text lost.now }
{
    match lost {
        Lost::Fault => b"link fault\n",
        Lost::Closed => b"the daemon closed the link\n",
        Lost::Silent => b"no reply\n",
        Lost::Garbled => b"not a reply\n",
        Lost::Unasked => b"an unasked reply\n",
    }
}

/// What a word that says who asks is called, as its option is.
fn word_text(word: &ClientWord) -> &'static [u8]
    ensures { result.now ≡ word_text word.now }
{
    match word {
        ClientWord::User => b"user",
        ClientWord::Host => b"host",
        ClientWord::Display => b"display",
        ClientWord::Project => b"project",
    }
}

/// The variable of the environment from which a word is taken.
fn variable_text(word: &ClientWord) -> &'static [u8]
    ensures { result.now ≡ variable_text word.now }
{
    match word {
        ClientWord::User => b"USER",
        ClientWord::Host => b"HOSTNAME",
        ClientWord::Display => b"DISPLAY",
        ClientWord::Project => b"LM_PROJECT",
    }
}

/// Why a word is no name.
fn name_fault_text(fault: &NameFault) -> &'static [u8]
    ensures { result.now ≡ name_fault_text fault.now }
{
    match fault {
        NameFault::Empty => b" is empty",
        NameFault::TooLong => b" has more than 64 bytes",
        NameFault::BadByte(_) => b" has a blank or another byte that isn't from 33 to 126",
    }
}

/// Puts what is wrong with a word behind a text. It fails where memory ran out.
fn put_fault(line: &mut Vec<u8>, bad: &BadWord) -> Result<(), AllocError>
    ensures { OnOk result (line.new.items ≡ line.old.items ++ bad_word_fault bad.now) }
{
    line.extend_from_slice(b"no request: the ")?;
    line.extend_from_slice(word_text(&bad.word))?;
    line.extend_from_slice(name_fault_text(&bad.fault))?;
    Ok(())
}

/// Puts where a word can be set behind a text. It fails where memory ran out.
fn put_places(line: &mut Vec<u8>, word: &ClientWord) -> Result<(), AllocError>
    ensures { OnOk result (line.new.items ≡ line.old.items ++ word_places word.now) }
{
    line.extend_from_slice(b": see --")?;
    line.extend_from_slice(word_text(word))?;
    line.extend_from_slice(b" and ")?;
    line.extend_from_slice(variable_text(word))?;
    line.extend_from_slice(b"\n")?;
    Ok(())
}

/// Puts the line of a word that is no name behind a text. It fails where memory ran out.
fn put_bad_word(line: &mut Vec<u8>, bad: &BadWord) -> Result<(), AllocError>
    ensures { OnOk result (line.new.items ≡ line.old.items ++ bad_word_text bad.now) }
{
    put_fault(line, bad)?;
    put_places(line, &bad.word)?;
    Ok(())
}

/// Puts the line of a cause behind a text. It fails where memory ran out.
fn put_cause(line: &mut Vec<u8>, cause: &Cause) -> Result<(), AllocError>
    ensures { OnOk result (line.new.items ≡ line.old.items ++ cause_line cause.now) }
{
    match cause {
        Cause::Lost(lost) => line.extend_from_slice(lost_text(lost))?,
        Cause::Refused(refusal) => {
            line.extend_from_slice(refusal.request.line.as_bytes())?;
            line.extend_from_slice(refusal.reply.line())?;
            line.extend_from_slice(b"\n")?;
        }
        Cause::NoNumbers(reply) => {
            line.extend_from_slice(b"no numbers: ")?;
            line.extend_from_slice(reply.line())?;
            line.extend_from_slice(b"\n")?;
        }
        Cause::NoRequest(fault) => line.extend_from_slice(fault_text(fault))?,
        Cause::TooLong => line.extend_from_slice(b"no request: more than 1,024 bytes\n")?,
        Cause::BadWord(bad) => put_bad_word(line, bad)?,
        Cause::NoMemory => line.extend_from_slice(b"no memory\n")?,
        Cause::WriteFault => line.extend_from_slice(b"write fault\n")?,
    }
    Ok(())
}

/// The line that an end has on standard error, with its LF: empty for `Done`. It fails where memory ran out.
pub fn end_line(alloc: Global, end: &End) -> Result<Vec<u8>, AllocError>
    ensures { IfOk result (λ line. line.items ≡ line_of end.now) }
{
    let mut line = Vec::new(alloc);
    match end {
        End::Done => {}
        End::Usage => line.extend_from_slice(b"usage\n")?,
        End::NoDaemon => line.extend_from_slice(b"no daemon at the socket\n")?,
        End::NotAllowed => line.extend_from_slice(b"permission denied at the socket\n")?,
        End::Stopped(cause) => put_cause(&mut line, cause)?,
    }
    Ok(line)
}
