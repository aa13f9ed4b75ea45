ghost use Rattle.std.specs.Prelude.{◌≡◌};

use crate::tests::client;
use audit_log::{LogPush, LogTake, Logged, is_summary, log_queue, read_entry, write_entry};
use lic_text::lines;
use options_machine::{Charge, Entry, Kind, Reply, Request};
use std::sync::Wait;
use std::test::Fail;
use std::thread::{Threads, join};

/// An entry of a party for ann, asked at a moment.
fn entry_at(party: u32, moment: u64, kind: Kind, reply: Reply) -> Result<Entry, Fail> {
    Ok(Entry {
        request: Request {
            party,
            client: client(b"ann")?,
            kind,
        },
        moment,
        reply,
    })
}

/// Pushes an entry so many times, made at the moments 0, 1 and so on.
fn push_often<R: Wait>(rt: &R, mut push: LogPush, entry: &Entry, times: u64) -> LogPush
    ensures { result.queue ≡ push.queue }
{
    for moment in 0..times {
        let entry = Entry {
            request: entry.request,
            moment,
            reply: entry.reply,
        };
        push.push(rt, &entry);
    }
    push
}

/// Takes until so many entries were taken, or so many attempts were made.
fn take_often<R: Wait>(rt: &R, mut take: LogTake, entries: usize, attempts: u64) -> LogTake
    ensures { result.queue ≡ take.queue }
{
    for _ in 0..attempts {
        if take.taken().len() >= entries {
            break;
        }
        take.take(rt);
    }
    take
}

/// Pushes in one thread what another takes meanwhile, and takes what is left.
fn pushed_and_taken<R: Threads + Wait + Sync>(
    rt: &R,
    push: LogPush,
    take: LogTake,
    entry: &Entry,
    times: u64,
) -> Vec<Entry>
    requires { push.queue ≡ take.queue }
{
    let (push, take) = join(
        rt,
        move || -> LogPush
            ensures { result.queue ≡ push.queue }
        { push_often(rt, push, entry, times) },
        move || -> LogTake
            ensures { result.queue ≡ take.queue }
        { take_often(rt, take, 1000, 100_000_000) },
    );
    let mut take = take;
    take.finish(rt, push);
    take.into_entries()
}

#[test]
fn one_thread_takes_while_another_pushes(rt: HostRuntime) -> Result<(), Fail> {
    let entry = entry_at(7, 9, Kind::Beat, Reply::Beaten)?;
    let (push, take) = log_queue(rt.alloc())?;
    let entries = pushed_and_taken(&rt, push, take, &entry, 2000);
    assert_eq!(rt; entries.len(), 2000);
    for (place, taken) in entries.iter().enumerate() {
        assert_eq!(rt; (taken.moment, taken.request.party), (place as u64, 7));
    }
    Ok(())
}

/// The numbers of a desk.
const COUNTS: Reply = Reply::Counts {
    held: 1,
    lingering: 2,
    taken: 3,
    free: 4,
    own: false,
    queued: false,
};

/// The numbers of a desk whose seat the party has.
const OWN_COUNTS: Reply = Reply::Counts {
    held: 1,
    lingering: 2,
    taken: 3,
    free: 4,
    own: true,
    queued: false,
};

/// The numbers of a desk in whose queue the party is.
const QUEUED_COUNTS: Reply = Reply::Counts {
    held: 1,
    lingering: 2,
    taken: 3,
    free: 4,
    own: false,
    queued: true,
};

/// What was asked and answered, each with the words of it.
const ENTRIES: &[(Kind, Reply, &[u8])] = &[
    (
        Kind::Checkout,
        Reply::Granted(Charge::Open),
        b"CHECKOUT GRANTED OPEN",
    ),
    (
        Kind::Checkout,
        Reply::Granted(Charge::Reserve(u32::MAX)),
        b"CHECKOUT GRANTED RESERVE 4294967295",
    ),
    (
        Kind::Queue,
        Reply::Retaken(Charge::Open),
        b"QUEUE RETAKEN OPEN",
    ),
    (
        Kind::Queue,
        Reply::Retaken(Charge::Reserve(9)),
        b"QUEUE RETAKEN RESERVE 9",
    ),
    (
        Kind::Checkout,
        Reply::Denied(12),
        b"CHECKOUT DENIED LINE 12",
    ),
    (
        Kind::Checkout,
        Reply::NoSeat(2, 2),
        b"CHECKOUT NOSEAT TAKEN 2 OF 2",
    ),
    (Kind::Checkout, Reply::AlreadyHeld, b"CHECKOUT ALREADYHELD"),
    (Kind::Checkin, Reply::Returned, b"CHECKIN RETURNED"),
    (
        Kind::Quit,
        Reply::Lingering(u64::MAX),
        b"QUIT LINGERING UNTIL 18446744073709551615",
    ),
    (Kind::Look, Reply::NotHeld, b"LOOK NOTHELD"),
    (Kind::Beat, Reply::Beaten, b"BEAT BEATEN"),
    (Kind::Look, Reply::Held, b"LOOK HELD"),
    (
        Kind::Count,
        COUNTS,
        b"COUNT COUNTS HELD 1 LINGERING 2 OPEN 3 OF 4 OWN 0",
    ),
    (
        Kind::Count,
        OWN_COUNTS,
        b"COUNT COUNTS HELD 1 LINGERING 2 OPEN 3 OF 4 OWN 1",
    ),
    (
        Kind::Count,
        QUEUED_COUNTS,
        b"COUNT COUNTS HELD 1 LINGERING 2 OPEN 3 OF 4 OWN 2",
    ),
    (Kind::Queue, Reply::Queued(0), b"QUEUE QUEUED 0"),
    (Kind::Quit, Reply::Unqueued, b"QUIT UNQUEUED"),
    (Kind::Reread(1), Reply::Reread(1), b"REREAD REREAD 1"),
];

/// Each reply with its words, of an entry at place 7 of pool 3.
#[test]
fn entries_are_written_and_read_back(rt: HostRuntime) -> Result<(), Fail> {
    for &(kind, reply, words) in ENTRIES {
        let entry = entry_at(255, (1 << 40) - 1, kind, reply)?;
        let mut room = [0u8; 640];
        let len = write_entry(3, 7, &entry, &mut room);
        let mut text = Vec::new(rt.alloc());
        text.extend_from_slice(b"ENTRY 3 #7 1099511627775 255 ann h1 d1 p1 ")?;
        text.extend_from_slice(words)?;
        text.push(b'\n')?;
        assert!(rt; &room[..len] == text.as_slice());
        let found = lines(&room[..len]).next();
        let Some(Ok(line)) = found else {
            panic!(rt; "the line isn't found")
        };
        let logged = Logged {
            pool: 3,
            place: 7,
            entry,
        };
        assert!(rt; read_entry(&line) == Ok(logged));
        assert!(rt; !is_summary(&line));
    }
    Ok(())
}
