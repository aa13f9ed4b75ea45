use crate::{CountGate, HoldGate, Meeting};
use daemon_outside::{MemPost, MemSite};
use session_outside::Gate;
use std::alloc::{AllocError, Global};
use std::sync::Arc;
use std::sync::atomic::{AtomicU64, Ordering};
use std::test::Fail;
use trial_run::{Trial, try_out};

/// What a post is made of that has this gate; nothing comes to its door.
fn post_of<G: Drop>(alloc: Global, gate: G) -> Result<MemPost<G>, AllocError> {
    Ok(MemPost {
        knocks: Vec::new(alloc),
        moments: [0].to_vec(alloc)?,
        gate,
    })
}

/// A site of these posts, of which no call fails.
fn site_of<G: Gate + Send + Drop>(
    alloc: Global,
    posts: Vec<MemPost<G>>,
) -> Result<MemSite<G>, AllocError> {
    let path = String::from_str(alloc, "keel")?;
    MemSite::make(alloc, path, posts, Vec::new(alloc))
}

/// Each client has 2 calls for HELLO, 6 for each of 50 rounds, and 2 for QUIT.
#[test]
fn trial_runs(rt: HostRuntime) -> Result<(), Fail> {
    let calls = Arc::new(rt.alloc(), AtomicU64::new(0))?;
    let mut posts = Vec::new(rt.alloc());
    for _post in 0..4 {
        posts.push(post_of(rt.alloc(), CountGate::of(Arc::try_clone(&calls)?))?)?;
    }
    let mut site = site_of(rt.alloc(), posts)?;
    let trial = try_out(&rt, rt.alloc(), 4, 4, 50, &mut site)?;
    assert_eq!(rt;
        trial,
        Trial {
            grants: 200,
            uses: 200
        }
    );
    assert_eq!(rt; calls.load(Ordering::SeqCst), 1216);
    Ok(())
}

#[test]
fn two_at_once(rt: HostRuntime) -> Result<(), Fail> {
    let meeting = Meeting::make(rt.alloc())?;
    let mut posts = Vec::new(rt.alloc());
    for is_first in [true, false] {
        posts.push(post_of(
            rt.alloc(),
            HoldGate::of(is_first, Arc::try_clone(&meeting)?),
        )?)?;
    }
    let mut site = site_of(rt.alloc(), posts)?;
    let trial = try_out(&rt, rt.alloc(), 2, 2, 1, &mut site)?;
    assert_eq!(rt; trial, Trial { grants: 2, uses: 2 });
    assert!(rt; meeting.was_held());
    Ok(())
}
