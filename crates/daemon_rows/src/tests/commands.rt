use daemon_outside::{Knock, MemPost, MemSite};
use licence_daemon::{DaemonStatus, licenced};
use licence_tool::{Status, Words};
use outside::{MemFile, MemFiles, MemSink};
use session_outside::{Feed, MemLink, NoGate, Talk};
use std::alloc::{AllocError, Global};
use std::sync::Wait;
use std::test::Fail;
use std::thread::Threads;

/// What the program came to: its status, and what it wrote to standard output and to standard error.
#[derive(Drop)]
struct Ended {
    status: DaemonStatus,
    out: Vec<u8>,
    err: Vec<u8>,
}

/// The files: a licence of one pool, an options file without lines, and one whose first line is no options line.
const FILES: [(&str, &[u8]); 3] = [
    ("licence", b"FEATURE edit acme 2.0 permanent 2 SIGN=00AB\n"),
    ("options", b""),
    ("bad", b"SEATS 2\n"),
];

/// The words of a daemon with two sessions.
const SERVE: [&str; 5] = ["serve", "licence", "options", "keel", "2"];

/// What a client sends that takes a seat, gives it back, and stops the daemon.
const WORKS: &[u8] = b"HELLO ann h1 d1 p1\nCHECKOUT edit 1.0\nCHECKIN edit\nSHUTDOWN\n";

fn words_of(alloc: Global, words: &[&str]) -> Result<Words, AllocError> {
    let mut made = Vec::new(alloc);
    for word in words {
        made.push(String::from_str(alloc, word)?)?;
    }
    Ok(Words::Text(made))
}

fn files_of(alloc: Global) -> Result<MemFiles, AllocError> {
    let mut files = Vec::new(alloc);
    for (name, bytes) in FILES {
        files.push(MemFile {
            name: String::from_str(alloc, name)?,
            bytes: Vec::from_slice(alloc, bytes)?,
        })?;
    }
    Ok(MemFiles::make(alloc, files, Vec::new(alloc)))
}

/// A client that sends this.
fn client(alloc: Global, text: &[u8]) -> Result<Vec<Knock>, AllocError> {
    let mut feeds = Vec::new(alloc);
    feeds.push(Feed::Piece(Vec::from_slice(alloc, text)?))?;
    let talk = Talk::make(alloc, 64, 4096)?;
    let mut knocks = Vec::new(alloc);
    knocks.push(Knock::Client(MemLink::make(feeds, Vec::new(alloc), talk)))?;
    Ok(knocks)
}

/// So many accepts that fail.
fn faults(alloc: Global, count: usize) -> Result<Vec<Knock>, AllocError> {
    let mut knocks = Vec::new(alloc);
    for _accept in 0..count {
        knocks.push(Knock::Fault)?;
    }
    Ok(knocks)
}

/// A site at the path `keel` with two posts, at whose doors this comes, and whose clocks stand at 0.
fn site_of(
    alloc: Global,
    first: Vec<Knock>,
    second: Vec<Knock>,
) -> Result<MemSite<NoGate>, AllocError> {
    let mut posts = Vec::new(alloc);
    for knocks in [first, second] {
        posts.push(MemPost {
            knocks,
            moments: [0].to_vec(alloc)?,
            gate: NoGate,
        })?;
    }
    MemSite::make(
        alloc,
        String::from_str(alloc, "keel")?,
        posts,
        Vec::new(alloc),
    )
}

/// Runs the program at a site; the writes of these numbers, counted from 0, fail.
fn run(
    rt: &(impl Threads + Wait + AllocGlobal + Sync),
    words: &[&str],
    site: &mut MemSite<NoGate>,
    writes: &[u64],
) -> Result<Ended, Fail> {
    let alloc = rt.alloc();
    let words = words_of(alloc, words)?;
    let mut files = files_of(alloc)?;
    let mut out = MemSink::make(alloc, 4096, Vec::from_slice(alloc, writes)?)?;
    let mut err = MemSink::make(alloc, 256, Vec::new(alloc))?;
    let status = licenced(rt, alloc, &words, &mut files, &mut out, &mut err, site);
    Ok(Ended {
        status,
        out: out.bytes,
        err: err.bytes,
    })
}

/// An accept fails before the client comes.
#[test]
fn a_daemon_writes_what_its_client_was_told(rt: HostRuntime) -> Result<(), Fail> {
    let mut first = faults(rt.alloc(), 1)?;
    for knock in client(rt.alloc(), WORKS)? {
        first.push(knock)?;
    }
    let mut site = site_of(rt.alloc(), first, Vec::new(rt.alloc()))?;
    let ended = run(&rt, &SERVE, &mut site, &[])?;
    let text =
        b"ENTRY 0 #0 0 0 ann h1 d1 p1 CHECKOUT GRANTED OPEN\nENTRY 0 #1 0 0 ann h1 d1 p1 CHECKIN RETURNED\nLOG 0 ENTRIES 2 WHOLE\nTALLY 0 CALLS 2 GRANTS 1 CARD USES 1\n";
    assert_eq!(rt; ended.status, DaemonStatus::Tool(Status::Done));
    assert_eq!(rt; ended.out.as_slice(), text.as_slice());
    assert!(rt; ended.err.is_empty());
    assert_eq!(rt; (site.made, site.posted, site.rings), (2, 0, 1));
    Ok(())
}

#[test]
fn broken_doors_are_told_with_the_whole_text(rt: HostRuntime) -> Result<(), Fail> {
    let (first, second) = (faults(rt.alloc(), 1000)?, faults(rt.alloc(), 1000)?);
    let mut site = site_of(rt.alloc(), first, second)?;
    let ended = run(&rt, &SERVE, &mut site, &[])?;
    let text = b"LOG 0 ENTRIES 0 WHOLE\nTALLY 0 CALLS 0 GRANTS 0 CARD USES 0\n";
    assert_eq!(rt; ended.status, DaemonStatus::DoorFault);
    assert_eq!(rt; ended.out.as_slice(), text.as_slice());
    assert_eq!(rt; ended.err.as_slice(), b"door fault\n".as_slice());
    assert_eq!(rt; (site.posted, site.broken), (0, 2));
    Ok(())
}

#[test]
fn a_write_that_fails_is_told_before_a_broken_door(rt: HostRuntime) -> Result<(), Fail> {
    let (first, second) = (faults(rt.alloc(), 1000)?, faults(rt.alloc(), 1000)?);
    let mut site = site_of(rt.alloc(), first, second)?;
    let ended = run(&rt, &SERVE, &mut site, &[0])?;
    assert_eq!(rt; ended.status, DaemonStatus::Tool(Status::WriteFault));
    assert_eq!(rt; ended.err.as_slice(), b"write fault\n".as_slice());
    Ok(())
}

#[test]
fn a_trial_without_a_post_for_a_client_is_a_site_fault(rt: HostRuntime) -> Result<(), Fail> {
    let mut site = site_of(rt.alloc(), Vec::new(rt.alloc()), Vec::new(rt.alloc()))?;
    let ended = run(&rt, &["trial-threads", "3", "1", "1"], &mut site, &[])?;
    assert_eq!(rt; ended.status, DaemonStatus::SiteFault);
    assert_eq!(rt; ended.err.as_slice(), b"site fault\n".as_slice());
    assert!(rt; ended.out.is_empty());
    assert_eq!(rt; (site.made, site.posted), (2, 0));
    Ok(())
}
