//! What is written of the logs and tallies of desks.
ghost use Rattle.std.specs.Prelude.{◌≤◌, length};

use desk_book::DeskLog;
use desk_logs::write_logs;
use feature_desk::DeskTally;
use lic_types::{Client, Name};
use options_machine::{Entry, Kind, Reply, Request};
use outside::{MemSink, WriteFailed};
use std::alloc::Global;
use std::test::Fail;

/// The entry of a party that asked whether it holds a seat, and doesn't.
fn looked() -> Result<Entry, Fail> {
    let client = Client {
        user: Name::read(b"ann")?,
        host: Name::read(b"h1")?,
        display: Name::read(b"d1")?,
        project: Name::read(b"p1")?,
    };
    Ok(Entry {
        request: Request {
            party: 0,
            client,
            kind: Kind::Look,
        },
        moment: 0,
        reply: Reply::NotHeld,
    })
}

/// A log with so many of that entry.
fn log_of(alloc: Global, entries: usize, cut: bool) -> Result<DeskLog, Fail> {
    let mut made = Vec::new(alloc);
    for _place in 0..entries {
        made.push(looked()?)?;
    }
    Ok(DeskLog { entries: made, cut })
}

fn tally_of(calls: u64, grants: u64) -> DeskTally {
    DeskTally {
        calls,
        grants,
        uses: grants,
    }
}

/// What is written of these logs and tallies by a sink of which the calls of these numbers fail, and whether it failed.
fn written(
    alloc: Global,
    logs: &[DeskLog],
    tallies: &[DeskTally],
    failing: Vec<u64>,
) -> Result<(MemSink, Result<(), WriteFailed>), Fail>
    requires logs { length logs.now ≤ 4 }
    requires tallies { length tallies.now ≤ 4 }
{
    let mut sink = MemSink::make(alloc, 20_000, failing)?;
    let mut buffer = Vec::with_capacity(alloc, 8192)?;
    let done = write_logs(&mut sink, logs, tallies, &mut buffer);
    Ok((sink, done))
}

#[test]
fn logs_come_before_tallies_in_one_write(rt: HostRuntime) -> Result<(), Fail> {
    let logs = [log_of(rt.alloc(), 1, false)?, log_of(rt.alloc(), 0, true)?];
    let tallies = [tally_of(1, 0), tally_of(3, 2)];
    let (sink, done) = written(rt.alloc(), &logs, &tallies, Vec::new(rt.alloc()))?;
    let text =
        b"ENTRY 0 #0 0 0 ann h1 d1 p1 LOOK NOTHELD\nLOG 0 ENTRIES 1 WHOLE\nLOG 1 ENTRIES 0 CUT\nTALLY 0 CALLS 1 GRANTS 0 CARD USES 0\nTALLY 1 CALLS 3 GRANTS 2 CARD USES 2\n";
    assert!(rt; done.is_ok());
    assert_eq!(rt; sink.bytes.as_slice(), text.as_slice());
    assert_eq!(rt; sink.calls, 1);
    Ok(())
}

#[test]
fn a_write_that_fails_is_told(rt: HostRuntime) -> Result<(), Fail> {
    let logs = [log_of(rt.alloc(), 300, false)?];
    let tallies = [tally_of(300, 0)];
    let (sink, done) = written(rt.alloc(), &logs, &tallies, vec![in rt.alloc(); 1]?)?;
    assert!(rt; done.is_err());
    assert!(rt; sink.bytes.len() > 7000);
    assert!(rt; sink.bytes.len() < 8193);
    Ok(())
}
