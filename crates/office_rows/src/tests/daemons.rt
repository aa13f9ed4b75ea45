//! A daemon of two parties over an office of two pools, at a site in memory.
use crate::tests::office_of;
use daemon_outside::{Knock, MemPost, MemSite, Site};
use daemon_run::{Ended, serve};
use session_outside::{Feed, Gate, MemLink, Talk};
use std::alloc::{AllocError, Global};
use std::process::Abort;
use std::sync::atomic::AtomicU64;
use std::sync::{Arc, Wait};
use std::test::Fail;
use std::thread::Threads;

const TWO_POOLS: &[u8] =
    b"FEATURE draft acme 2.0 permanent 2 SIGN=01\nFEATURE render acme 1.0 permanent 1 SIGN=02\n";

/// The knock of a client that sends this.
fn client(alloc: Global, text: &[u8]) -> Result<Knock, AllocError> {
    let mut feeds = Vec::new(alloc);
    feeds.push(Feed::Piece(Vec::from_slice(alloc, text)?))?;
    let talk = Talk::make(alloc, 64, 4096)?;
    Ok(Knock::Client(MemLink::make(feeds, Vec::new(alloc), talk)))
}

/// What a post is made of at which one client sends this, or nobody comes where it is empty.
fn post_of<G: Drop>(alloc: Global, text: &[u8], gate: G) -> Result<MemPost<G>, AllocError> {
    let mut knocks = Vec::new(alloc);
    if !text.is_empty() {
        knocks.push(client(alloc, text)?)?;
    }
    Ok(MemPost {
        knocks,
        moments: [0].to_vec(alloc)?,
        gate,
    })
}

/// A site with two posts of these gates, at each of which one client sends its text, or nobody comes where that is
/// empty.
pub fn site_of<G: Gate + Send + Drop>(
    alloc: Global,
    first: (&[u8], G),
    second: (&[u8], G),
) -> Result<MemSite<G>, AllocError> {
    let mut posts = Vec::new(alloc);
    posts.push(post_of(alloc, first.0, first.1)?)?;
    posts.push(post_of(alloc, second.0, second.1)?)?;
    let path = String::from_str(alloc, "licenced")?;
    MemSite::make(alloc, path, posts, Vec::new(alloc))
}

/// Serves two parties at a site, and adds to a word how many entries the auditor takes meanwhile.
pub fn serve_two(
    rt: &(impl Abort + Threads + Wait + AllocGlobal + Sync),
    site: &mut impl Site,
    taken: Arc<AtomicU64, Global>,
) -> Result<Ended, Fail> {
    let workers = Vec::with_capacity(rt.alloc(), 2)?;
    let (office, passes, logs) = office_of(rt, TWO_POOLS, &[b""])?;
    let logs = logs.counted_in(taken);
    Ok(serve(rt, office, passes, logs, workers, site, "licenced"))
}
