//! Lines that are gathered, so that one write takes many of them.
ghost use Rattle.std.specs.Prelude.{◌≡◌, ◌+◌, ◌≤◌, ◌++◌, [], OnOk, length, vec_capacity, vec_len};
ghost use Rattle.outside.specs.Told.{Wrote};
ghost use Rattle.desk_logs.specs.Gathered.{Gathers};

use outside::{Sink, WriteFailed};

/// Writes what was gathered; then nothing is gathered any more.
pub(crate) fn flush<O: Sink>(out: &mut O, gathered: &mut Vec<u8>) -> Result<(), WriteFailed>
    ensures wrote { Wrote O.held O.faults out.old out.new gathered.old.items result }
    ensures empty { OnOk result (gathered.new.items ≡ []) }
    ensures room { vec_capacity gathered.new ≡ vec_capacity gathered.old }
{
    out.write(gathered.as_slice())?;
    gathered.clear();
    Ok(())
}

/// Sees to it that there is room for so many bytes more, if need be by writing what was gathered.
fn make_room<O: Sink>(out: &mut O, gathered: &mut Vec<u8>, bytes: usize) -> Result<(), WriteFailed>
    requires { bytes ≤ vec_capacity gathered.old }
    ensures gathers { Gathers O.held O.faults out.old out.new gathered.old gathered.new gathered.old.items result }
    ensures fits { OnOk result (vec_len gathered.new + bytes ≤ vec_capacity gathered.new) }
{
    if gathered.capacity() - gathered.len() >= bytes {
        return Ok(());
    }
    flush(out, gathered)
}

/// Puts a text behind what was gathered.
fn append(gathered: &mut Vec<u8>, text: &[u8])
    requires { vec_len gathered.old + length text.now ≤ vec_capacity gathered.old }
    ensures text { gathered.new.items ≡ gathered.old.items ++ text.now }
    ensures room { vec_capacity gathered.new ≡ vec_capacity gathered.old }
{
    for byte in text {
        gathered.push_reserved(*byte);
    }
}

/// Puts a text behind what was gathered, which is written before that if there is too little room. So a prefix of both
/// together is written, and the rest is gathered.
pub(crate) fn gather<O: Sink>(
    out: &mut O,
    gathered: &mut Vec<u8>,
    text: &[u8],
) -> Result<(), WriteFailed>
    requires { length text.now ≤ vec_capacity gathered.old }
    ensures { Gathers O.held O.faults out.old out.new gathered.old gathered.new (gathered.old.items ++ text.now) result }
{
    make_room(out, gathered, text.len())?;
    append(gathered, text);
    Ok(())
}
