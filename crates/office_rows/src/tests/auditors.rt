//! What the auditor does while a session runs.
use crate::tests::daemons::{serve_two, site_of};
use daemon_outside::MemSite;
use daemon_run::Ended;
use licence_office::OfficeEnd;
use options_machine::Kind;
use session_outside::{Gate, GatePlace};
use std::alloc::{AllocError, Global};
use std::sync::atomic::{AtomicU64, Ordering};
use std::sync::{Arc, Wait};
use std::test::Fail;
use std::thread::yield_now;

/// How often a gate looks whether an entry was taken.
const TURNS: u32 = 1_000_000;

/// A gate that holds its session at each entry until the auditor has taken as many.
#[derive(Drop)]
struct TakenGate {
    /// How many entries the session made.
    made: u64,
    /// How many the auditor took.
    taken: Arc<AtomicU64, Global>,
    /// How often a million looks were not enough.
    missed: Arc<AtomicU64, Global>,
}

impl Gate for TakenGate {
    fn after<R: Wait>(&mut self, _rt: &R, at: GatePlace) {
        if at != GatePlace::Asked {
            return;
        }
        self.made = self.made.saturating_add(1);
        for _turn in 0..TURNS {
            if self.taken.load(Ordering::SeqCst) >= self.made {
                return;
            }
            yield_now();
        }
        self.missed.fetch_add(1, Ordering::SeqCst);
    }
}

const WORKS_AND_SHUTS: &[u8] = b"HELLO ann h1 d1 p1\nCHECKOUT draft 2.0\nCHECKIN draft\nSHUTDOWN\n";

/// A gate of a session that made no entry yet.
fn gate_of(
    taken: &Arc<AtomicU64, Global>,
    missed: &Arc<AtomicU64, Global>,
) -> Result<TakenGate, AllocError> {
    Ok(TakenGate {
        made: 0,
        taken: Arc::try_clone(taken)?,
        missed: Arc::try_clone(missed)?,
    })
}

/// A site to which one client comes, at the first of its posts.
fn site_with(
    alloc: Global,
    taken: &Arc<AtomicU64, Global>,
    missed: &Arc<AtomicU64, Global>,
) -> Result<MemSite<TakenGate>, AllocError> {
    let (first, second) = (gate_of(taken, missed)?, gate_of(taken, missed)?);
    site_of(alloc, (WORKS_AND_SHUTS, first), (b"", second))
}

#[test]
fn auditor_runs(rt: HostRuntime) -> Result<(), Fail> {
    let taken = Arc::new(rt.alloc(), AtomicU64::new(0))?;
    let missed = Arc::new(rt.alloc(), AtomicU64::new(0))?;
    let mut site = site_with(rt.alloc(), &taken, &missed)?;
    let ended = serve_two(&rt, &mut site, Arc::try_clone(&taken)?)?;
    let Ended::Served(OfficeEnd { tallies, logs }) = ended else {
        panic!(rt; "the bell is heard at each door");
    };
    assert_eq!(rt; (tallies.len(), logs.len()), (2, 2));
    assert_eq!(rt; missed.load(Ordering::SeqCst), 0);
    assert_eq!(rt; taken.load(Ordering::SeqCst), 2);
    let entries = logs[0].entries.as_slice();
    assert_eq!(rt; (entries.len(), logs[0].cut), (2, false));
    assert!(rt; entries[0].request.kind == Kind::Checkout);
    assert!(rt; entries[1].request.kind == Kind::Checkin);
    assert_eq!(rt; (tallies[0].calls, tallies[1].calls), (2, 0));
    assert_eq!(rt; (logs[1].entries.len(), logs[1].cut), (0, false));
    Ok(())
}
