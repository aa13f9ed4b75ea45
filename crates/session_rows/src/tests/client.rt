//! What a client says, hears and prints.
use client_talk::{Client, Errand, Hold, Pace, run};
use outside::MemSink;
use session_outside::{Feed, MemBell, MemClock, MemLink, Talk};
use std::alloc::{AllocError, Global};
use std::test::Fail;

/// What a link feeds: each line with its LF, and a `~` for a Quiet.
fn feeds(alloc: Global, lines: &[&str]) -> Result<Vec<Feed>, AllocError> {
    let mut feeds = Vec::new(alloc);
    for line in lines {
        let feed = if *line == "~" {
            Feed::Quiet
        } else {
            Feed::Piece(format!(in alloc; "{line}\n")?.into_bytes())
        };
        feeds.push(feed)?;
    }
    Ok(feeds)
}

const ANN: Client<'static> = Client {
    user: "ann",
    host: "h1",
    display: "d1",
    project: "p1",
};

/// What the client of a seat that is waited for hears, line by line, with a `~` for a Quiet.
const HEARD: &[&str] = &[
    "WELCOME 3",
    "QUEUED 2 #4",
    "~",
    "QUEUED 1 #5",
    "~",
    "GRANTED SEAT 0 OPEN #7",
    "~",
    "~",
    "BEATEN #8",
    "RETURNED #9",
];

/// While it waits a BEAT is due every 10 seconds, from the moment 100 on, and with the seat every 20 seconds, from 120
/// on.
#[test]
fn a_seat_is_waited_for_and_kept_by_the_clock(rt: HostRuntime) -> Result<(), Fail> {
    const MOMENTS: &[u64] = &[100, 109, 110, 119, 120, 120, 121, 139, 140];
    const ANSWERS: &[bool] = &[false, false, false, false, false, false, false, true];
    let talk = Talk::make(rt.alloc(), 64, 512)?;
    let mut link = MemLink::make(feeds(rt.alloc(), HEARD)?, Vec::new(rt.alloc()), talk);
    let mut clock = MemClock::make(MOMENTS.to_vec(rt.alloc())?);
    let mut bell = MemBell::make(ANSWERS.to_vec(rt.alloc())?);
    let mut out = MemSink::make(rt.alloc(), 256, Vec::new(rt.alloc()))?;
    let pace = Pace {
        holding: 20,
        waiting: Some(10),
    };
    let errand = Errand::Hold(Hold {
        feature: "edit",
        version: "1.0",
        pace,
    });
    let done = run(
        rt.alloc(),
        &errand,
        &ANN,
        &mut link,
        &mut clock,
        &mut bell,
        &mut out,
    );
    assert!(&rt; done.is_ok());
    let said =
        b"HELLO ann h1 d1 p1\nWELCOME 3\nQUEUE edit 1.0\nQUEUED 2 #4\nBEAT edit\nQUEUED 1 #5\nBEAT edit\nGRANTED SEAT 0 OPEN #7\nBEAT edit\nBEATEN #8\nCHECKIN edit\nRETURNED #9\n";
    assert!(&rt; link.talk.bytes.as_slice() == said.as_slice());
    assert_eq!(&rt; (link.quiets, bell.tolls), (4, 1));
    let printed = b"QUEUED 2 #4\nGRANTED SEAT 0 OPEN #7\nRETURNED #9\n";
    assert!(&rt; out.bytes.as_slice() == printed.as_slice());
    Ok(())
}
