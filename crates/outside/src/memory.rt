ghost use Rattle.std.specs.Prelude.{◌≡◌, ◌≢◌, ◌⊎◌, ◌+◌, ◌%◌, ◌^◌, ◌≤◌, find, nat_eq, ◌<◌, ℕ, List, [], ◌∷◌, ◌++◌, IfOk, OnOk, OnErr, IsOk, IsErr, IfSome, IsNone, IsSome, Some, false, true, length, map, vec_capacity, vec_len, string_bytes};
ghost use Rattle.std.specs.Cmp.Lexicographic.{pointwise};
ghost use Rattle.std.specs.Option.{option_copied};
ghost use Rattle.outside.specs.Memory.{file_named, is_listed};
ghost use Rattle.outside.specs.Told.{HasRisen, TakesPrefix, held_after};

use crate::asked::Asked;
use crate::files::{FileFault, Files};
use crate::sink::{Sink, WriteFailed};
use std::alloc::{AllocError, Global};

/// One fault more, up to the last value of the counter.
pub(crate) fn risen(faults: u64) -> u64
    ensures risen { HasRisen faults result }
    ensures later { faults ≤ result }
{
    faults.saturating_add(1)
}

/// A file in memory.
#[derive(Debug, Drop)]
pub struct MemFile {
    /// Its name.
    pub name: String,
    /// All that it holds.
    pub bytes: Vec<u8>,
}

/// Files in memory, which tell what they hold. A name that none of them has is a fault.
#[derive(Debug, Drop)]
pub struct MemFiles {
    /// The files.
    pub files: Vec<MemFile>,
    /// The calls that fail, counted from 0.
    pub failing: Vec<u64>,
    /// How many calls there were, modulo 2^64.
    pub calls: u64,
    /// The names that were asked for, and those whose reading failed.
    pub asked: Asked,
}

fn find_named<'a>(files: &'a [MemFile], name: &str) -> Option<&'a MemFile>
    ensures { option_copied result ≡ find (λ f. pointwise nat_eq (string_bytes f.name) name.now) files.now }
{
    files.iter().find(|file| file.name.as_str() == name)
}

fn copy_named(
    alloc: Global,
    files: &[MemFile],
    name: &str,
    limit: usize,
) -> Result<Vec<u8>, FileFault>
    ensures read { IfOk result (λ bytes. file_named files.now name.now ≡ Some bytes.items) }
    ensures short { IfOk result (λ bytes. vec_len bytes ≤ limit) }
    ensures too_long { result ≡ Err FileFault.TooLong → IfSome (file_named files.now name.now) (λ told. limit < length told) }
    ensures absent { result ≡ Err FileFault.Failed → IsNone (file_named files.now name.now) }
{
    let Some(file) = find_named(files, name) else {
        return Err(FileFault::Failed);
    };
    if file.bytes.len() > limit {
        return Err(FileFault::TooLong);
    }
    match Vec::from_slice(alloc, file.bytes.as_slice()) {
        Ok(bytes) => Ok(bytes),
        Err(_) => Err(FileFault::NoMemory),
    }
}

impl MemFiles {
    /// These files, of which the calls of these numbers, counted from 0, fail.
    pub fn make(alloc: Global, files: Vec<MemFile>, failing: Vec<u64>) -> MemFiles
        ensures files { result.files ≡ files }
        ensures failing { result.failing ≡ failing }
        ensures calls { result.calls ≡ 0 }
        ensures asked { map string_bytes result.asked.names.items ≡ [] }
        ensures failed { map string_bytes result.asked.failed.items ≡ [] }
    {
        MemFiles {
            files,
            failing,
            calls: 0,
            asked: Asked::none(alloc),
        }
    }
}

impl Files for MemFiles {
    ghost asked = { λ m. map string_bytes m.asked.names.items };

    ghost failed = { λ m. map string_bytes m.asked.failed.items };

    ghost contents = { λ m name. file_named m.files.items name };

    fn read(&mut self, alloc: Global, name: &str, limit: usize) -> Result<Vec<u8>, FileFault>
        ensures read { IfOk result (λ bytes. IfSome (file_named self.old.files.items name.now) (λ told. bytes.items ≡ told)) }
        ensures short { IfOk result (λ bytes. vec_len bytes ≤ limit) }
        ensures too_long { result ≡ Err FileFault.TooLong → IfSome (file_named self.old.files.items name.now) (λ told. limit < length told) }
        ensures asked { result ≢ Err FileFault.NoMemory
            → map string_bytes self.new.asked.names.items ≡ map string_bytes self.old.asked.names.items ++ name.now ∷ [] }
        ensures unasked { result ≡ Err FileFault.NoMemory
            → (map string_bytes self.new.asked.names.items ≡ map string_bytes self.old.asked.names.items)
            ⊎ (map string_bytes self.new.asked.names.items ≡ map string_bytes self.old.asked.names.items ++ name.now ∷ []) }
        ensures failed { result ≡ Err FileFault.Failed
            → map string_bytes self.new.asked.failed.items ≡ map string_bytes self.old.asked.failed.items ++ name.now ∷ [] }
        ensures steady { result ≢ Err FileFault.Failed
            → map string_bytes self.new.asked.failed.items ≡ map string_bytes self.old.asked.failed.items }
        ensures same { (other : List ℕ) → file_named self.new.files.items other ≡ file_named self.old.files.items other }

        // A call that isn't listed to fail, on a name that is there, doesn't fail; one that is listed does, and each is
        // counted.
        ensures succeeds { is_listed self.old.failing.items self.old.calls ≡ false
            → IsSome (file_named self.old.files.items name.now) → result ≢ Err FileFault.Failed }
        ensures listed { is_listed self.old.failing.items self.old.calls ≡ true
            → (result ≡ Err FileFault.Failed) ⊎ (result ≡ Err FileFault.NoMemory) }
        ensures counted { self.new.calls ≡ (self.old.calls + 1) % 2 ^ 64 }
        ensures failing { self.new.failing ≡ self.old.failing }
    {
        let call = self.calls;
        self.calls = self.calls.wrapping_add(1);
        if self.asked.ask(alloc, name).is_err() {
            return Err(FileFault::NoMemory);
        }
        if self.failing.contains(&call) {
            return Err(self.asked.fail(alloc, name));
        }
        match copy_named(alloc, self.files.as_slice(), name, limit) {
            Err(FileFault::Failed) => Err(self.asked.fail(alloc, name)),
            read => read,
        }
    }
}

/// A sink in memory, which tells what it took. Its room is taken at its making, and a piece that finds too little of it
/// is a fault and is not taken at all.
#[derive(Debug, Drop)]
pub struct MemSink {
    /// All that it took.
    pub bytes: Vec<u8>,
    /// The calls that fail, counted from 0.
    pub failing: Vec<u64>,
    /// How many calls there were.
    pub calls: u64,
    /// How many of them failed.
    pub faults: u64,
}

impl MemSink {
    /// An empty sink with room for this many bytes, of which the calls of these numbers, counted from 0, fail.
    pub fn make(alloc: Global, room: usize, failing: Vec<u64>) -> Result<MemSink, AllocError>
        ensures empty { IfOk result (λ sink. (sink.bytes.items ≡ []) × (sink.calls ≡ 0) × (sink.faults ≡ 0)) }
        ensures failing { IfOk result (λ sink. sink.failing ≡ failing) }
        ensures room { IfOk result (λ sink. room ≤ vec_capacity sink.bytes) }
    {
        Ok(MemSink {
            bytes: Vec::with_capacity(alloc, room)?,
            failing,
            calls: 0,
            faults: 0,
        })
    }
}

impl Sink for MemSink {
    ghost faults = { λ s. s.faults };

    ghost held = { λ s. Some s.bytes.items };

    fn write(&mut self, piece: &[u8]) -> Result<(), WriteFailed>
        ensures ok { OnOk result (Some self.new.bytes.items ≡ held_after (Some self.old.bytes.items) piece.now) }
        ensures err { OnErr result (TakesPrefix (Some self.old.bytes.items) (Some self.new.bytes.items) piece.now) }
        ensures failed { OnErr result (HasRisen self.old.faults self.new.faults) }
        ensures steady { OnOk result (self.new.faults ≡ self.old.faults) }
        ensures later { self.old.faults ≤ self.new.faults }

        // A call that isn't listed to fail takes a piece that finds room; one that is listed fails, and each is
        // counted.
        ensures succeeds { is_listed self.old.failing.items self.old.calls ≡ false
            → vec_len self.old.bytes + length piece.now ≤ vec_capacity self.old.bytes → IsOk result }
        ensures listed { is_listed self.old.failing.items self.old.calls ≡ true → IsErr result }
        ensures counted { self.new.calls ≡ (self.old.calls + 1) % 2 ^ 64 }
        ensures failing { self.new.failing ≡ self.old.failing }
        ensures room { vec_capacity self.old.bytes ≤ vec_capacity self.new.bytes }
    {
        let call = self.calls;
        self.calls = self.calls.wrapping_add(1);
        if self.failing.contains(&call) || piece.len() > self.bytes.capacity() - self.bytes.len() {
            self.faults = risen(self.faults);
            return Err(WriteFailed);
        }
        match self.bytes.extend_from_slice(piece) {
            Ok(()) => Ok(()),
            Err(_) => {
                self.faults = risen(self.faults);
                Err(WriteFailed)
            }
        }
    }
}
