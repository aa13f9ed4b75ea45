//! The logs and tallies of pools, written.
ghost use Rattle.std.specs.Prelude.{◌≡◌, ◌+◌, ◌^◌, ◌≤◌, ◌<◌, ◌++◌, [], length, vec_capacity};
ghost use Rattle.audit_log.specs.Entries.{entry_text};
ghost use Rattle.outside.specs.Told.{Wrote};
ghost use Rattle.desk_logs.specs.Gathered.{Gathers};
ghost use Rattle.desk_logs.specs.Text.{entries_from, log_of, logs_text, numbered_texts, tally_of};

use crate::gather::{flush, gather};
use audit_log::{write_entry, write_log, write_tally};
use desk_book::DeskLog;
use feature_desk::DeskTally;
use options_machine::Entry;
use outside::{Sink, WriteFailed};

/// Gathers the line of an entry of a pool at its place.
fn put_entry<O: Sink>(
    out: &mut O,
    gathered: &mut Vec<u8>,
    pool: u32,
    place: u64,
    entry: &Entry,
) -> Result<(), WriteFailed>
    requires { 640 ≤ vec_capacity gathered.old }
    ensures { Gathers O.held O.faults out.old out.new gathered.old gathered.new (gathered.old.items ++ entry_text pool place entry.now) result }
{
    let mut room = [0; 640];
    let at = write_entry(pool, place, entry, &mut room);
    gather(out, gathered, &room[..at])
}

/// Gathers the lines of the entries of a pool.
fn put_entries<O: Sink>(
    out: &mut O,
    gathered: &mut Vec<u8>,
    pool: u32,
    entries: &[Entry],
) -> Result<(), WriteFailed>
    requires { 640 ≤ vec_capacity gathered.old }
    ensures { Gathers O.held O.faults out.old out.new gathered.old gathered.new (gathered.old.items ++ entries_from pool 0 entries.now) result }
{
    for (place, entry) in entries.iter().enumerate() {
        put_entry(out, gathered, pool, place as u64, entry)?;
    }
    Ok(())
}

/// Gathers the log of a pool: the lines of its entries, and the line that ends it.
fn put_log<O: Sink>(
    out: &mut O,
    gathered: &mut Vec<u8>,
    pool: u32,
    log: &DeskLog,
) -> Result<(), WriteFailed>
    requires { 640 ≤ vec_capacity gathered.old }
    ensures { Gathers O.held O.faults out.old out.new gathered.old gathered.new (gathered.old.items ++ log_of pool log.now) result }
{
    let entries = log.entries.as_slice();
    put_entries(out, gathered, pool, entries)?;
    let mut room = [0; 640];
    let at = write_log(pool, entries.len() as u64, log.cut, &mut room);
    gather(out, gathered, &room[..at])
}

/// Gathers the line of a pool's tally.
fn put_tally<O: Sink>(
    out: &mut O,
    gathered: &mut Vec<u8>,
    pool: u32,
    tally: &DeskTally,
) -> Result<(), WriteFailed>
    requires { 640 ≤ vec_capacity gathered.old }
    ensures { Gathers O.held O.faults out.old out.new gathered.old gathered.new (gathered.old.items ++ tally_of pool tally.now) result }
{
    let mut room = [0; 640];
    let at = write_tally(pool, tally.calls, tally.grants, tally.uses, &mut room);
    gather(out, gathered, &room[..at])
}

/// Gathers the logs of all pools, in their order.
fn put_logs<O: Sink>(
    out: &mut O,
    gathered: &mut Vec<u8>,
    logs: &[DeskLog],
) -> Result<(), WriteFailed>
    requires few { length logs.now ≤ 2 ^ 32 }
    requires room { 640 ≤ vec_capacity gathered.old }
    ensures { Gathers O.held O.faults out.old out.new gathered.old gathered.new (gathered.old.items ++ numbered_texts log_of 0 logs.now) result }
{
    for (pool, log) in logs.iter().enumerate() {
        put_log(out, gathered, pool as u32, log)?;
    }
    Ok(())
}

/// Gathers the tallies of all pools, in their order.
fn put_tallies<O: Sink>(
    out: &mut O,
    gathered: &mut Vec<u8>,
    tallies: &[DeskTally],
) -> Result<(), WriteFailed>
    requires few { length tallies.now ≤ 2 ^ 32 }
    requires room { 640 ≤ vec_capacity gathered.old }
    ensures { Gathers O.held O.faults out.old out.new gathered.old gathered.new (gathered.old.items ++ numbered_texts tally_of 0 tallies.now) result }
{
    for (pool, tally) in tallies.iter().enumerate() {
        put_tally(out, gathered, pool as u32, tally)?;
    }
    Ok(())
}

/// Writes the logs of all pools, in their order, each ended by a line that says how many entries it has and whether
/// there were more; and then the tallies of all pools, in the same order. The pools are numbered from 0, up to 2^32 of
/// them. The lines are this project's own; `audit_log` tells their forms.
///
/// It takes no memory: the lines are gathered in the buffer, which is empty at the start and has room for 8,192 bytes
/// or more, so that one write takes many of them. The bytes of the buffer are left open behind it. `WriteFailed` comes
/// exactly where a write fails, and then a prefix of the whole text was written.
pub fn write_logs<O: Sink>(
    out: &mut O,
    logs: &[DeskLog],
    tallies: &[DeskTally],
    buffer: &mut Vec<u8>,
) -> Result<(), WriteFailed>
    requires logs { length logs.now ≤ 2 ^ 32 }
    requires tallies { length tallies.now ≤ 2 ^ 32 }
    requires empty { buffer.old.items ≡ [] }
    requires room { 8192 ≤ vec_capacity buffer.old }
    ensures { Wrote O.held O.faults out.old out.new (logs_text logs.now tallies.now) result }
{
    put_logs(out, buffer, logs)?;
    put_tallies(out, buffer, tallies)?;
    flush(out, buffer)
}
