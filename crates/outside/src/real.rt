ghost use Rattle.std.specs.Prelude.{◌≡◌, ◌≤◌, ◌<◌, ◌∷◌, ◌++◌, ℕ, Err, IfOk, IfSome, OnOk, OnErr, None, length, map, string_bytes, take, vec_len};
ghost use Rattle.std.specs.Io.KnownBytes.{Appends};
ghost use Rattle.outside.specs.Told.{AppendsPrefix, HasRisen, TakesPrefix, held_after};

use crate::asked::Asked;
use crate::files::{FileFault, Files};
use crate::memory::risen;
use crate::sink::{Sink, WriteFailed};
use std::alloc::Global;
use std::io::{Read, Write};
use std::{fs, rt};

/// The files of the system. They tell nothing of what they hold.
#[derive(Drop)]
pub struct RealFiles<R: rt::Files + Drop> {
    system: R,
    asked: Asked,
}

impl<R: rt::Files + Drop> RealFiles<R> {
    /// The files of this system, of which none was asked for.
    pub fn of(alloc: Global, system: R) -> RealFiles<R> {
        RealFiles {
            system,
            asked: Asked::none(alloc),
        }
    }
}

/// Reads to the end, or until there is more than the limit. Where the reader tells what it will give, that is just what
/// comes of it, and `TooLong` comes exactly where it is more than the limit. A read that fails is `Failed`.
pub fn read_all<F: Read>(alloc: Global, file: &mut F, limit: usize) -> Result<Vec<u8>, FileFault>
    ensures whole { IfOk result (λ bytes. IfSome (F.remaining file.old) (λ told. bytes.items ≡ told)) }
    ensures short { IfOk result (λ bytes. vec_len bytes ≤ limit) }
    ensures too_long { result ≡ Err FileFault.TooLong → IfSome (F.remaining file.old) (λ told. limit < length told) }
{
    let mut bytes = Vec::new(alloc);
    let mut piece = [0u8; 4096];
    for _ in 0..u64::MAX {
        let Ok(count) = file.read(&mut piece) else {
            return Err(FileFault::Failed);
        };
        if count == 0 {
            return Ok(bytes);
        }
        if count > limit - bytes.len() {
            return Err(FileFault::TooLong);
        }
        if bytes.extend_from_slice(&piece[..count]).is_err() {
            return Err(FileFault::NoMemory);
        }
    }
    Err(FileFault::Failed)
}

/// The bytes of the file of a name.
fn read_named<R: rt::Files>(
    alloc: Global,
    system: &R,
    name: &str,
    limit: usize,
) -> Result<Vec<u8>, FileFault>
    ensures short { IfOk result (λ bytes. vec_len bytes ≤ limit) }
{
    let Ok(mut file) = fs::open(system, name) else {
        return Err(FileFault::Failed);
    };
    read_all(alloc, &mut file, limit)
}

impl<R: rt::Files + Drop> Files for RealFiles<R> {
    ghost asked = { λ f. map string_bytes f.asked.names.items };

    ghost failed = { λ f. map string_bytes f.asked.failed.items };

    ghost contents = { λ f name. None };

    fn read(&mut self, alloc: Global, name: &str, limit: usize) -> Result<Vec<u8>, FileFault> {
        if self.asked.ask(alloc, name).is_err() {
            return Err(FileFault::NoMemory);
        }
        match read_named(alloc, &self.system, name, limit) {
            Err(FileFault::Failed) => Err(self.asked.fail(alloc, name)),
            read => read,
        }
    }
}

/// Writes the whole piece, or fails, where a prefix of it was written. Where the writer tells what it holds, it holds
/// just that behind what it held.
pub fn write_all<W: Write>(writer: &mut W, piece: &[u8]) -> Result<(), WriteFailed>
    ensures whole { OnOk result (Appends (W.contents writer.old) (W.contents writer.new) piece.now) }
    ensures prefix { OnErr result (AppendsPrefix (W.contents writer.old) (W.contents writer.new) piece.now) }
{
    let mut rest = piece;
    while !rest.is_empty() {
        match writer.write(rest) {
            Ok(count) if count > 0 => rest = &rest[count..],
            _ => return Err(WriteFailed),
        }
    }
    Ok(())
}

/// A writer of the system, as standard output. It tells nothing of what it took.
#[derive(Drop)]
pub struct RealSink<W: Write + Drop> {
    writer: W,
    faults: u64,
}

impl<W: Write + Drop> RealSink<W> {
    /// A sink over this writer, of which no call has failed.
    pub fn of(writer: W) -> RealSink<W> {
        RealSink { writer, faults: 0 }
    }
}

impl<W: Write + Drop> Sink for RealSink<W> {
    ghost faults = { λ s. s.faults };

    ghost held = { λ s. None };

    fn write(&mut self, piece: &[u8]) -> Result<(), WriteFailed>
        ensures ok { OnOk result (None ≡ held_after None piece.now) }
        ensures err { OnErr result (TakesPrefix None None piece.now) }
        ensures failed { OnErr result (HasRisen self.old.faults self.new.faults) }
        ensures steady { OnOk result (self.new.faults ≡ self.old.faults) }
        ensures later { self.old.faults ≤ self.new.faults }

        // Where the writer below tells what it holds, it gained the whole piece, or a prefix of it.
        ensures whole { OnOk result (Appends (W.contents self.old.writer) (W.contents self.new.writer) piece.now) }
        ensures prefix { OnErr result (AppendsPrefix (W.contents self.old.writer) (W.contents self.new.writer) piece.now) }
    {
        let written = write_all(&mut self.writer, piece);
        if written.is_err() {
            self.faults = risen(self.faults);
        }
        written
    }
}
