//! Whole sessions: what is written, how they end, and which entries they make.
mod client;
mod site;

use lic_types::Client;
use options_machine::{Charge, Kind, Reply};
use session::SessionEnd;
use session_outside::Feed;
use site::{Site, name};
use std::process::Abort;
use std::sync::Wait;
use std::test::Fail;

/// A session of ann's, as the first of two parties of a desk, and what comes of it.
#[derive(Clone, Copy)]
struct Row<'a> {
    /// The options files.
    files: &'a [&'a [u8]],
    /// How many licences there are.
    count: u32,
    /// Whether bob, the second party, takes a licence before.
    taken: bool,
    /// What is heard. A `~` is a Quiet.
    stream: &'a [u8],
    /// The moments of the clock.
    moments: &'a [u64],
    /// The answers of the bell.
    answers: &'a [bool],
    /// What is written.
    text: &'a [u8],
    /// How it ends.
    end: SessionEnd,
    /// What the desk's entries asked, were answered, and at which moments.
    entries: &'a [(Kind, Reply, u64)],
}

const OPEN: Reply = Reply::Granted(Charge::Open);

/// The numbers of a desk of two licences, one of which the party has.
const ONE_OF_TWO: Reply = Reply::Counts {
    held: 1,
    lingering: 0,
    taken: 1,
    free: 2,
    own: true,
    queued: false,
};

/// The latest moment that a desk knows.
const LATEST: u64 = (1 << 40) - 1;

/// Two licences, no options, a clock that stands at 0, a bell that is never heard; a session that says nothing.
const PLAIN: Row<'static> = Row {
    files: &[b""],
    count: 2,
    taken: false,
    stream: b"",
    moments: &[0],
    answers: &[false],
    text: b"",
    end: SessionEnd::End,
    entries: &[],
};

/// A stream in pieces of at most this many bytes, in which a `~` is a Quiet.
fn feeds(rt: &impl AllocGlobal, stream: &[u8], size: usize) -> Result<Vec<Feed>, Fail> {
    let mut feeds = Vec::new(rt.alloc());
    let mut piece = Vec::new(rt.alloc());
    for byte in stream {
        let quiet = *byte == b'~';
        if !piece.is_empty() && (quiet || piece.len() >= size) {
            feeds.push(Feed::Piece(piece))?;
            piece = Vec::new(rt.alloc());
        }
        if quiet {
            feeds.push(Feed::Quiet)?;
        } else {
            piece.push(*byte)?;
        }
    }
    if !piece.is_empty() {
        feeds.push(Feed::Piece(piece))?;
    }
    Ok(feeds)
}

/// A stream in one piece.
const WHOLE: usize = 1_000;

/// The client bob.
fn bob() -> Result<Client, Fail> {
    Ok(Client {
        user: name(b"bob")?,
        host: name(b"h2")?,
        display: name(b"d2")?,
        project: name(b"p2")?,
    })
}

/// Plays a session in pieces of at most this many bytes, and compares all that comes of it.
fn play(
    rt: &(impl Abort + AllocGlobal + Wait),
    row: &Row<'_>,
    size: usize,
    failing: &[u64],
) -> Result<(), Fail> {
    let mut site = Site::open(rt, row.files, row.count)?;
    site.ask_other(rt, &bob()?, Kind::Checkout, row.taken);
    let heard = feeds(rt, row.stream, size)?;
    let served = site.serve(rt, heard, failing, row.moments, row.answers)?;
    assert_eq!(rt; served.text.as_slice(), row.text);
    assert!(rt; served.end == row.end);
    assert!(rt; (served.rings == 1) == (row.end == SessionEnd::Down));
    let entries = site.close(rt.alloc())?;
    assert_eq!(rt; entries.len(), row.entries.len());
    for (made, wanted) in entries.iter().zip(row.entries.iter()) {
        assert!(rt; made.request.kind == wanted.0);
        assert!(rt; made.reply == wanted.1);
        assert_eq!(rt; made.moment, wanted.2);
    }
    Ok(())
}

/// Plays a session whose link call of this number fails, and another one after it. It tells whether that call came.
fn play_failing(
    rt: &(impl Abort + AllocGlobal + Wait),
    row: &Row<'_>,
    call: u64,
) -> Result<bool, Fail> {
    let mut site = Site::open(rt, row.files, row.count)?;
    site.ask_other(rt, &bob()?, Kind::Checkout, row.taken);
    let heard = feeds(rt, row.stream, WHOLE)?;
    let served = site.serve(rt, heard, &[call], row.moments, row.answers)?;
    assert!(rt; row.text.starts_with(served.text.as_slice()));
    let failed = served.text.len() < row.text.len() || served.end != row.end;
    assert!(rt; !failed || served.end == SessionEnd::LinkFault);
    site.ask_other(rt, &bob()?, Kind::Quit, row.taken);
    let next = feeds(rt, b"HELLO cy h3 d3 p3\nCHECKOUT edit 1.0\nQUIT\n", WHOLE)?;
    let served = site.serve(rt, next, &[], row.moments, &[false])?;
    assert!(rt; served.text.starts_with(b"WELCOME 0\nGRANTED SEAT 0 OPEN #"));
    assert!(rt; served.end == SessionEnd::Quit);
    Ok(failed)
}

/// Plays a session in one piece, in pieces of one byte and of a hundred, and with each call of its link failing.
fn play_all(rt: &(impl Abort + AllocGlobal + Wait), row: &Row<'_>) -> Result<(), Fail> {
    play(rt, row, WHOLE, &[])?;
    play(rt, row, 1, &[])?;
    play(rt, row, 100, &[])?;
    for call in 0..100 {
        if !play_failing(rt, row, call)? {
            assert!(rt; call > 1);
            return Ok(());
        }
    }
    assert!(rt; false);
    Ok(())
}

/// Sessions of every kind.
const SESSIONS: &[Row<'static>] = &[
    // A torn line ends a session.
    Row {
        stream: b"HELLO ann h1 d1 p1\nCHECKOUT edit 1.0\nBEAT edit",
        text: b"WELCOME 0\nGRANTED SEAT 0 OPEN #0\n",
        end: SessionEnd::Torn(9),
        entries: &[(Kind::Checkout, OPEN, 0), (Kind::Quit, Reply::Returned, 0)],
        ..PLAIN
    },
    // A whole session.
    Row {
        stream: b"LOOK edit\nHELLO ann h1 d1 p1\nHELLO x x x x\nCHECKOUT edit 1.0\nSTATUS edit\nJUMP\nCHECKIN edit\nQUIT\nLOOK edit\n",
        text: b"NOHELLO\nWELCOME 0\nGREETED\nGRANTED SEAT 0 OPEN #0\nCOUNTS HELD 1 LINGERING 0 OPEN 1 OF 2 OWN 1 #1\nBAD 2\nRETURNED #2\nBYE\n",
        end: SessionEnd::Quit,
        entries: &[
            (Kind::Checkout, OPEN, 0),
            (Kind::Count, ONE_OF_TWO, 0),
            (Kind::Checkin, Reply::Returned, 0),
        ],
        ..PLAIN
    },
    // The bell stops a quiet session.
    Row {
        stream: b"HELLO ann h1 d1 p1\nCHECKOUT edit 1.0\n~~LOOK edit\n",
        answers: &[false, true],
        text: b"WELCOME 0\nGRANTED SEAT 0 OPEN #0\n",
        end: SessionEnd::Stopped,
        entries: &[
            (Kind::Checkout, OPEN, 0),
            (Kind::Look, Reply::Held, 0),
            (Kind::Quit, Reply::Returned, 0),
        ],
        ..PLAIN
    },
    // A SHUTDOWN rings the bell.
    Row {
        stream: b"HELLO ann h1 d1 p1\nCHECKOUT edit 1.0\nSHUTDOWN\nLOOK edit\n",
        text: b"WELCOME 0\nGRANTED SEAT 0 OPEN #0\nSTOPPING\n",
        end: SessionEnd::Down,
        entries: &[(Kind::Checkout, OPEN, 0), (Kind::Quit, Reply::Returned, 0)],
        ..PLAIN
    },
    // Rule sets are reread.
    Row {
        files: &[b"", b""],
        count: 1,
        stream: b"HELLO ann h1 d1 p1\nREREAD 1\nREREAD 2\nREREAD x\nQUIT\n",
        text: b"WELCOME 0\nREREAD 1\nNORULES 2\nBAD 7\nBYE\n",
        end: SessionEnd::Quit,
        entries: &[(Kind::Reread(1), Reply::Reread(1), 0)],
        ..PLAIN
    },
    // A glance makes no entry.
    Row {
        stream: b"GLANCE edit\nHELLO ann h1 d1 p1\nGLANCE edit\nGLANCE draw\nQUIT\n",
        text: b"NOHELLO\nWELCOME 0\nGLANCE FRONT 0 HELD 0 LINGERING 0 OPEN 0 OF 2 QUEUED 0\nUNKNOWN\nBYE\n",
        end: SessionEnd::Quit,
        ..PLAIN
    },
    // A quiet session times out.
    Row {
        files: &[b"TIMEOUT edit 900\n"],
        count: 1,
        stream: b"HELLO ann h1 d1 p1\nCHECKOUT edit 1.0\n~~~BEAT edit\n",
        moments: &[0, 900, 900],
        text: b"WELCOME 0\nGRANTED SEAT 0 OPEN #0\nNOTHELD #2\n",
        entries: &[
            (Kind::Checkout, OPEN, 0),
            (Kind::Look, Reply::NotHeld, 900),
            (Kind::Beat, Reply::NotHeld, 900),
        ],
        ..PLAIN
    },
    // The latest moment is cut.
    Row {
        files: &[b"LINGER edit 60\n"],
        stream: b"HELLO ann h1 d1 p1\nCHECKOUT edit 1.0\nCHECKIN edit\n",
        moments: &[u64::MAX],
        text: b"WELCOME 0\nGRANTED SEAT 0 OPEN #0\nLINGERING UNTIL 1099511627835 #1\n",
        entries: &[
            (Kind::Checkout, OPEN, LATEST),
            (Kind::Checkin, Reply::Lingering(LATEST + 60), LATEST),
        ],
        ..PLAIN
    },
    // A session waits, and leaves the queue.
    Row {
        count: 1,
        taken: true,
        stream: b"HELLO ann h1 d1 p1\nQUEUE edit 1.0\nBEAT edit\nQUIT\n",
        text: b"WELCOME 0\nQUEUED 1 #1\nQUEUED 1 #2\nBYE\n",
        end: SessionEnd::Quit,
        entries: &[
            (Kind::Checkout, OPEN, 0),
            (Kind::Queue, Reply::Queued(1), 0),
            (Kind::Beat, Reply::Queued(1), 0),
            (Kind::Quit, Reply::Unqueued, 0),
        ],
        ..PLAIN
    },
];

#[test]
fn sessions_are_answered_in_order(rt: HostRuntime) -> Result<(), Fail> {
    for row in SESSIONS {
        play_all(&rt, row)?;
    }
    Ok(())
}

#[test]
fn long_lines_are_answered_or_end_the_session(rt: HostRuntime) -> Result<(), Fail> {
    let mut stream = Vec::new(rt.alloc());
    for _ in 0..1_024 {
        stream.push(b' ')?;
    }
    let mut blanks = Vec::from_slice(rt.alloc(), stream.as_slice())?;
    stream.push(b'\n')?;
    let answered = Row {
        stream: stream.as_slice(),
        text: b"BAD 1\n",
        ..PLAIN
    };
    play_all(&rt, &answered)?;
    blanks.push(b' ')?;
    let too_long = Row {
        stream: blanks.as_slice(),
        end: SessionEnd::LineTooLong,
        ..PLAIN
    };
    play_all(&rt, &too_long)
}

#[test]
fn many_quiets_make_no_entry(rt: HostRuntime) -> Result<(), Fail> {
    let mut stream = Vec::from_slice(rt.alloc(), b"HELLO ann h1 d1 p1\n")?;
    for _ in 0..10_000 {
        stream.push(b'~')?;
    }
    let row = Row {
        stream: stream.as_slice(),
        text: b"WELCOME 0\n",
        ..PLAIN
    };
    play(&rt, &row, WHOLE, &[])?;
    for call in [0, 1, 2, 5_000, 10_002] {
        assert!(&rt; play_failing(&rt, &row, call)?);
    }
    Ok(())
}
