//! What one session is shown of another one while both run.
use crate::tests::daemons::{serve_two, site_of};
use daemon_outside::MemSite;
use daemon_run::Ended;
use session_outside::{Gate, GatePlace};
use std::alloc::{AllocError, Global};
use std::sync::atomic::{AtomicU64, Ordering};
use std::sync::{Arc, Wait};
use std::test::Fail;
use std::thread::yield_now;

/// What the gates of two sessions know of each other.
#[derive(Drop)]
struct Meeting {
    /// Whether the first session's checkout was entered.
    entered: AtomicU64,
    /// Whether the second session was shown its glance.
    shown: AtomicU64,
    /// Whether one of them gave up waiting.
    missed: AtomicU64,
}

/// How often a gate looks whether the other session has come there.
const TURNS: u32 = 1_000_000;

impl Meeting {
    /// Waits until this is so, or notes that it wasn't after a million looks.
    fn await_set(&self, set: &AtomicU64) {
        for _turn in 0..TURNS {
            if set.load(Ordering::SeqCst) != 0 {
                return;
            }
            yield_now();
        }
        self.missed.store(1, Ordering::SeqCst);
    }
}

/// One of two gates. The first holds its session where its checkout was entered, until the second session was shown its
/// glance; the second holds its session before its glance, until that checkout was entered.
#[derive(Drop)]
struct SideGate {
    is_first: bool,
    lines: u64,
    meeting: Arc<Meeting, Global>,
}

impl Gate for SideGate {
    fn after<R: Wait>(&mut self, _rt: &R, at: GatePlace) {
        let meeting = &*self.meeting;
        match at {
            GatePlace::Asked if self.is_first => {
                meeting.entered.store(1, Ordering::SeqCst);
                meeting.await_set(&meeting.shown);
            }
            GatePlace::Line if !self.is_first => {
                self.lines = self.lines.saturating_add(1);
                if self.lines == 2 {
                    meeting.await_set(&meeting.entered);
                }
            }
            GatePlace::Written if !self.is_first && self.lines == 2 => {
                meeting.shown.store(1, Ordering::SeqCst);
            }
            GatePlace::Asked | GatePlace::Line | GatePlace::Written => {}
        }
    }
}

const TAKES: &[u8] = b"HELLO ann h1 d1 p1\nCHECKOUT draft 2.0\nQUIT\n";

const GLANCES: &[u8] = b"HELLO bob h2 d2 p2\nGLANCE draft\nSHUTDOWN\n";

/// What the second session is told, behind what it says.
const SHOWN: &[u8] = b"WELCOME 1\nGLANCE FRONT 1 HELD 1 ";

/// The gate of one of two sessions that meet.
fn gate_of(is_first: bool, meeting: &Arc<Meeting, Global>) -> Result<SideGate, AllocError> {
    Ok(SideGate {
        is_first,
        lines: 0,
        meeting: Arc::try_clone(meeting)?,
    })
}

/// A site to which the clients of both sessions come.
fn site_with(
    alloc: Global,
    meeting: &Arc<Meeting, Global>,
) -> Result<MemSite<SideGate>, AllocError> {
    let (first, second) = (gate_of(true, meeting)?, gate_of(false, meeting)?);
    site_of(alloc, (TAKES, first), (GLANCES, second))
}

#[test]
fn glance_sees_others(rt: HostRuntime) -> Result<(), Fail> {
    let meeting = Meeting {
        entered: AtomicU64::new(0),
        shown: AtomicU64::new(0),
        missed: AtomicU64::new(0),
    };
    let meeting = Arc::new(rt.alloc(), meeting)?;
    let taken = Arc::new(rt.alloc(), AtomicU64::new(0))?;
    let mut site = site_with(rt.alloc(), &meeting)?;
    assert!(rt; matches!(serve_two(&rt, &mut site, taken)?, Ended::Served(_)));
    assert_eq!(rt; meeting.missed.load(Ordering::SeqCst), 0);
    assert_eq!(rt; site.kept.len(), 2);
    let links = &site.kept[1].door.kept;
    assert_eq!(rt; links.len(), 1);
    let told = links[0].talk.bytes.as_slice();
    let Some(told) = told.strip_prefix(GLANCES) else {
        panic!(rt; "the talk begins with what is said");
    };
    assert!(rt; told.starts_with(SHOWN));
    Ok(())
}
