//! What a session of the first of two parties says and is told, how it ends, and which entries it makes.
ghost use Rattle.std.specs.Prelude.{◌≡◌, ◌<◌, All, IfOk, vec_len};
ghost use Rattle.daemon_run.specs.Join.{HasSets};
ghost use Rattle.licence_office.specs.Logs.{AreLogsOf};
ghost use Rattle.licence_office.specs.Offices.{AreAt, AreDealt};
ghost use Rattle.office_rows.specs.Ready.{IsReady};

mod auditors;
mod daemons;
mod endings;
mod glances;
mod sockets;
mod trial_links;

use feature_desk::Desk;
use feature_lines::read_licence;
use lic_types::Name;
use licence_office::{Office, OfficeEnd, OfficeLogs, OfficePass};
use office_view::OfficeView;
use options_machine::{Charge, Kind, Reply};
use options_text::read_options;
use session::{Buffers, SessionEnd, serve_session};
use session_outside::{Feed, MemClock, MemLink, NoGate, StillBell, Talk};
use std::process::Abort;
use std::sync::Wait;
use std::test::Fail;

/// What a client sends, piece by piece, and what is written to each. An empty piece is a Quiet.
type Dialogue<'a> = &'a [(&'a [u8], &'a [u8])];

/// A session of ann's, and what comes of it.
#[derive(Clone, Copy)]
struct Row<'a> {
    /// The licence file.
    licence: &'a [u8],
    /// The options files.
    files: &'a [&'a [u8]],
    /// The moments of the clock, the last one again and again.
    moments: &'a [u64],
    /// What is said.
    dialogue: Dialogue<'a>,
    /// How it ends.
    end: SessionEnd,
    /// Its entries, pool by pool: at which pool, what was asked, and what was answered.
    entries: &'a [(usize, Kind, Reply)],
}

/// How a session of bob's begins, who comes after ann and is granted the first seat.
const NEXT: Dialogue<'static> = &[
    (b"HELLO bob h2 d2 p2\n", b"WELCOME 0\n"),
    (b"CHECKOUT edit 1.0\n", b"GRANTED SEAT 0 "),
];

/// Three pools, two of them of one name.
const THREE_POOLS: &[u8] = b"INCREMENT edit acme 1.0 permanent 1 SIGN=01\n\
INCREMENT edit acme 2.0 permanent 2 SIGN=02\n\
FEATURE draw acme 1.0 permanent 1 SIGN=03\n";

/// A pool that is good to the end of 2026.
const UNTIL_2026: &[u8] = b"FEATURE edit acme 2.10 31-dec-2026 1 SIGN=01\n";

/// Two pools of one name and version, the second of which is good for longer.
const TWO_PERIODS: &[u8] = b"INCREMENT edit acme 2.0 31-dec-2026 1 SIGN=01\n\
INCREMENT edit acme 2.0 30-jun-2027 1 SIGN=02\n";

/// The first second of 2027 in UTC.
const NEW_YEAR: u64 = 1_798_761_600;

const HELLO: (&[u8], &[u8]) = (b"HELLO ann h1 d1 p1\n", b"WELCOME 0\n");

const QUIET: (&[u8], &[u8]) = (b"", b"");

const OPEN: Reply = Reply::Granted(Charge::Open);

/// The numbers of a desk whose one licence the party has.
const ONE_OF_ONE: Reply = Reply::Counts {
    held: 1,
    lingering: 0,
    taken: 1,
    free: 1,
    own: true,
    queued: false,
};

/// Two licences of one pool, no options, and a clock that stands at 0; a session that says nothing.
const PLAIN: Row<'static> = Row {
    licence: b"FEATURE edit acme 2.0 permanent 2 SIGN=00AB\n",
    files: &[b""],
    moments: &[0],
    dialogue: &[],
    end: SessionEnd::Quit,
    entries: &[],
};

/// What is outside of a session.
#[derive(Drop)]
struct Outside {
    link: MemLink,
    clock: MemClock,
}

/// A link that feeds the pieces of a dialogue, and whose call of this number fails; and a clock of these moments.
fn outside_of(
    rt: &(impl Abort + AllocGlobal),
    dialogue: Dialogue<'_>,
    failing: u64,
    moments: &[u64],
) -> Result<Outside, Fail> {
    let alloc = rt.alloc();
    let mut feeds = Vec::new(alloc);
    for (piece, _reply) in dialogue {
        feeds.push(Feed::Piece(Vec::from_slice(alloc, piece)?))?;
    }
    let failing = Vec::from_slice(alloc, &[failing])?;
    let talk = Talk::make(alloc, 100, 10_000)?;
    assert!(rt; !moments.is_empty());
    Ok(Outside {
        link: MemLink::make(feeds, failing, talk),
        clock: MemClock::make(Vec::from_slice(alloc, moments)?),
    })
}

/// All that is said in a dialogue, in order.
fn said(rt: &impl AllocGlobal, dialogue: Dialogue<'_>) -> Result<Vec<u8>, Fail> {
    let mut text = Vec::new(rt.alloc());
    for (piece, reply) in dialogue {
        text.extend_from_slice(piece)?;
        text.extend_from_slice(reply)?;
    }
    Ok(text)
}

/// An office of two parties.
fn office_of(
    rt: &(impl Abort + Wait + AllocGlobal),
    licence: &[u8],
    files: &[&[u8]],
) -> Result<(Office, Vec<OfficePass>, OfficeLogs), Fail>
    ensures count { IfOk result (λ made. (vec_len made.1 ≡ 2) × (made.0.parties ≡ 2)) }
    ensures sets { IfOk result (λ made. HasSets made.0.view) }
    ensures dealt { IfOk result (λ made. AreDealt made.0.view.desks made.1.items) }
    ensures logs { IfOk result (λ made. AreLogsOf made.2 made.0) }
{
    let alloc = rt.alloc();
    assert!(rt; licence.len() < 1 << 32);
    let licence = read_licence(alloc, licence)?;
    let mut sets = Vec::new(alloc);
    for file in files {
        assert!(rt; file.len() < 1 << 32);
        sets.push(read_options(alloc, file)?)?;
    }
    assert!(rt; !sets.is_empty() && sets.len() <= 4);
    Ok(Office::make_many(rt, alloc, &licence, sets.as_slice(), 2)?)
}

/// A session of one party.
fn serve(
    rt: &impl Wait,
    office: &OfficeView<Desk>,
    pass: &mut OfficePass,
    outside: &mut Outside,
) -> SessionEnd
    requires { IsReady office.now pass.old.items }
    ensures { IsReady office.now pass.new.items }
{
    serve_session(
        rt,
        office,
        pass,
        &mut outside.link,
        &mut outside.clock,
        &mut NoGate,
        &mut StillBell::make(),
        &mut Buffers::make(),
    )
}

/// Two sessions of the first party, one after the other.
fn serve_two(
    rt: &impl Wait,
    office: &Office,
    passes: &mut Vec<OfficePass>,
    one: &mut Outside,
    next: &mut Outside,
) -> (SessionEnd, SessionEnd)
    requires count { vec_len passes.old ≡ 2 }
    requires sets { HasSets office.now.view }
    requires dealt { AreDealt office.now.view.desks passes.old.items }
    ensures count { vec_len passes.new ≡ 2 }
    ensures ready { All (λ p. AreAt office.now.view.desks p.items) passes.new.items }
{
    let view = office.view();
    let _pools = view.pools();
    let Some(other) = passes.pop() else {
        unreachable!()
    };
    let Some(mut first) = passes.pop() else {
        unreachable!()
    };
    let end = serve(rt, view, &mut first, one);
    let next_end = serve(rt, view, &mut first, next);
    passes.push_reserved(first);
    passes.push_reserved(other);
    (end, next_end)
}

/// The entries of a user, pool by pool.
fn entries_of(
    rt: &impl AllocGlobal,
    end: &OfficeEnd,
    user: &Name,
) -> Result<Vec<(usize, Kind, Reply)>, Fail> {
    let mut entries = Vec::new(rt.alloc());
    for (pool, log) in end.logs.iter().enumerate() {
        for entry in log.entries.iter() {
            if entry.request.client.user == *user {
                entries.push((pool, entry.request.kind, entry.reply))?;
            }
        }
    }
    Ok(entries)
}

/// What came of two sessions, one after the other, and of their office.
#[derive(Drop)]
struct Played {
    one: Outside,
    next: Outside,
    ends: (SessionEnd, SessionEnd),
    told: OfficeEnd,
}

/// Plays a session whose link call of this number fails, and another one after it.
fn play(
    rt: &(impl Abort + AllocGlobal + Wait),
    row: &Row<'_>,
    failing: u64,
) -> Result<Played, Fail> {
    let mut one = outside_of(rt, row.dialogue, failing, row.moments)?;
    let mut next = outside_of(rt, NEXT, u64::MAX, row.moments)?;
    let (office, mut passes, logs) = office_of(rt, row.licence, row.files)?;
    let ends = serve_two(rt, &office, &mut passes, &mut one, &mut next);
    let told = office.close_with_log(rt, passes, logs);
    Ok(Played {
        one,
        next,
        ends,
        told,
    })
}

/// Compares what came of a row's session with the row, and of the one after it with what is due. It tells whether a
/// call of the first one's link failed.
fn compare(rt: &(impl Abort + AllocGlobal), row: &Row<'_>, played: &Played) -> Result<bool, Fail> {
    let talk = played.one.link.talk.bytes.as_slice();
    let whole = said(rt, row.dialogue)?;
    assert!(rt; whole.starts_with(talk));
    let beginning = said(rt, NEXT)?;
    assert!(rt;
        played
            .next
            .link
            .talk
            .bytes
            .starts_with(beginning.as_slice())
    );
    let (end, next_end) = played.ends;
    assert!(rt; next_end == SessionEnd::End);
    if played.one.link.faults > 0 {
        assert!(rt; end == SessionEnd::LinkFault);
        return Ok(true);
    }
    assert!(rt; end == row.end);
    assert_eq!(rt; talk.len(), whole.len());
    let made = entries_of(rt, &played.told, &Name::read(b"ann")?)?;
    assert!(rt; made.as_slice() == row.entries);
    Ok(false)
}

/// Plays a session with each call of its link failing in turn, up to a run without a failure.
fn play_all(rt: &(impl Abort + AllocGlobal + Wait), row: &Row<'_>) -> Result<(), Fail> {
    for call in 0..100 {
        let played = play(rt, row, call)?;
        if !compare(rt, row, &played)? {
            assert!(rt; call > 3);
            return Ok(());
        }
    }
    panic!(rt; "a run ends without a failure")
}

/// Sessions of every kind.
const SESSIONS: &[Row<'static>] = &[
    // A glance shows the session's own entry.
    Row {
        dialogue: &[
            HELLO,
            (
                b"GLANCE edit\n",
                b"GLANCE FRONT 0 HELD 0 LINGERING 0 OPEN 0 OF 2 QUEUED 0\n",
            ),
            (b"CHECKOUT edit 1.0\n", b"GRANTED SEAT 0 OPEN #0\n"),
            (
                b"GLANCE edit\n",
                b"GLANCE FRONT 1 HELD 1 LINGERING 0 OPEN 1 OF 2 QUEUED 0\n",
            ),
            (b"QUIT\n", b"BYE\n"),
        ],
        entries: &[(0, Kind::Checkout, OPEN), (0, Kind::Quit, Reply::Returned)],
        ..PLAIN
    },
    // Each request goes to the pool where the session is holding; a Quiet looks at these, and all desks are reread.
    Row {
        licence: THREE_POOLS,
        files: &[b"", b""],
        dialogue: &[
            HELLO,
            (b"CHECKOUT edit 1.5\n", b"GRANTED SEAT 0 OPEN #0\n"),
            (b"CHECKOUT edit 1.0\n", b"ALREADYHELD #1\n"),
            (b"QUEUE draw 1.0\n", b"GRANTED SEAT 0 OPEN #0\n"),
            (b"REREAD 1\n", b"REREAD 1\n"),
            QUIET,
            (b"CHECKOUT plot 1.0\n", b"UNKNOWN\n"),
            (b"CHECKIN edit\n", b"RETURNED #4\n"),
            (b"CHECKIN edit\n", b"NOTHELD #1\n"),
            (
                b"STATUS draw\n",
                b"COUNTS HELD 1 LINGERING 0 OPEN 1 OF 1 OWN 1 #3\n",
            ),
            (b"QUIT\n", b"BYE\n"),
        ],
        entries: &[
            (0, Kind::Reread(1), Reply::Reread(1)),
            (0, Kind::Checkin, Reply::NotHeld),
            (1, Kind::Checkout, OPEN),
            (1, Kind::Checkout, Reply::AlreadyHeld),
            (1, Kind::Reread(1), Reply::Reread(1)),
            (1, Kind::Look, Reply::Held),
            (1, Kind::Checkin, Reply::Returned),
            (2, Kind::Queue, OPEN),
            (2, Kind::Reread(1), Reply::Reread(1)),
            (2, Kind::Look, Reply::Held),
            (2, Kind::Count, ONE_OF_ONE),
            (2, Kind::Quit, Reply::Returned),
        ],
        ..PLAIN
    },
    // A torn line ends it, and each desk where it is holding is given back.
    Row {
        licence: THREE_POOLS,
        dialogue: &[
            HELLO,
            (b"CHECKOUT edit 1.0\n", b"GRANTED SEAT 0 OPEN #0\n"),
            (b"CHECKOUT draw 1.0\n", b"GRANTED SEAT 0 OPEN #0\n"),
            (b"BEAT edit", b""),
        ],
        end: SessionEnd::Torn(9),
        entries: &[
            (0, Kind::Checkout, OPEN),
            (0, Kind::Quit, Reply::Returned),
            (2, Kind::Checkout, OPEN),
            (2, Kind::Quit, Reply::Returned),
        ],
        ..PLAIN
    },
    // A seat outlives the last day of its pool, and none is had after it.
    Row {
        licence: UNTIL_2026,
        moments: &[NEW_YEAR - 1, NEW_YEAR - 1, NEW_YEAR],
        dialogue: &[
            HELLO,
            (b"CHECKOUT edit 2.9\n", b"UNKNOWN\n"),
            (b"CHECKOUT edit 2.1\n", b"GRANTED SEAT 0 OPEN #0\n"),
            (b"CHECKOUT edit 2.1\n", b"ALREADYHELD #1\n"),
            (b"CHECKIN edit\n", b"RETURNED #2\n"),
            (b"CHECKOUT edit 2.1\n", b"EXPIRED 31-dec-2026\n"),
            (b"CHECKIN edit\n", b"NOTHELD #3\n"),
        ],
        end: SessionEnd::End,
        entries: &[
            (0, Kind::Checkout, OPEN),
            (0, Kind::Checkout, Reply::AlreadyHeld),
            (0, Kind::Checkin, Reply::Returned),
            (0, Kind::Checkin, Reply::NotHeld),
        ],
        ..PLAIN
    },
    // After the last day of the first of two pools the second one serves.
    Row {
        licence: TWO_PERIODS,
        moments: &[NEW_YEAR - 1, NEW_YEAR],
        dialogue: &[
            HELLO,
            (b"CHECKOUT edit 2.0\n", b"GRANTED SEAT 0 OPEN #0\n"),
            (b"CHECKIN edit\n", b"RETURNED #1\n"),
            (b"CHECKOUT edit 2.0\n", b"GRANTED SEAT 0 OPEN #0\n"),
            (b"QUIT\n", b"BYE\n"),
        ],
        entries: &[
            (0, Kind::Checkout, OPEN),
            (0, Kind::Checkin, Reply::Returned),
            (1, Kind::Checkout, OPEN),
            (1, Kind::Quit, Reply::Returned),
        ],
        ..PLAIN
    },
    // A line of the options file keeps a seat for ann, which lingers for her.
    Row {
        files: &[b"RESERVE 1 edit USER ann\nLINGER edit 60\n"],
        dialogue: &[
            HELLO,
            (b"CHECKOUT edit 1.0\n", b"GRANTED SEAT 0 RESERVE 1 #0\n"),
            (b"CHECKIN edit\n", b"LINGERING UNTIL 60 #1\n"),
            (b"CHECKOUT edit 1.0\n", b"RETAKEN SEAT 0 RESERVE 1 #2\n"),
            (b"QUIT\n", b"BYE\n"),
        ],
        entries: &[
            (0, Kind::Checkout, Reply::Granted(Charge::Reserve(1))),
            (0, Kind::Checkin, Reply::Lingering(60)),
            (0, Kind::Checkout, Reply::Retaken(Charge::Reserve(1))),
            (0, Kind::Quit, Reply::Lingering(60)),
        ],
        ..PLAIN
    },
    // Two files deny her, each in its way; she waits in vain, and leaves the queue.
    Row {
        licence: b"FEATURE edit acme 2.0 permanent 1 SIGN=00AB\n",
        files: &[b"\nEXCLUDE edit USER ann\n", b"RESERVE 1 edit USER bob\n"],
        dialogue: &[
            HELLO,
            (b"CHECKOUT edit 1.0\n", b"DENIED LINE 2 #0\n"),
            (b"REREAD 1\n", b"REREAD 1\n"),
            (b"REREAD 2\n", b"NORULES 2\n"),
            (b"REREAD x\n", b"BAD 7\n"),
            (b"CHECKOUT edit 1.0\n", b"NOSEAT TAKEN 0 OF 0 #2\n"),
            (b"QUEUE edit 1.0\n", b"QUEUED 1 #3\n"),
            (b"BEAT edit\n", b"QUEUED 1 #4\n"),
        ],
        end: SessionEnd::End,
        entries: &[
            (0, Kind::Checkout, Reply::Denied(2)),
            (0, Kind::Reread(1), Reply::Reread(1)),
            (0, Kind::Checkout, Reply::NoSeat(0, 0)),
            (0, Kind::Queue, Reply::Queued(1)),
            (0, Kind::Beat, Reply::Queued(1)),
            (0, Kind::Quit, Reply::Unqueued),
        ],
        ..PLAIN
    },
];

#[test]
fn sessions_are_answered_at_their_desks(rt: HostRuntime) -> Result<(), Fail> {
    for row in SESSIONS {
        play_all(&rt, row)?;
    }
    Ok(())
}
