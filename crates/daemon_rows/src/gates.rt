//! Gates that count, and gates that hold a session until another one was answered.
use session_outside::{Gate, GatePlace};
use std::alloc::{AllocError, Global};
use std::sync::atomic::{AtomicU64, Ordering};
use std::sync::{Arc, Wait};
use std::thread::yield_now;

/// A gate that counts its calls, together with the other gates of the same count.
#[derive(Drop)]
pub struct CountGate {
    calls: Arc<AtomicU64, Global>,
}

impl CountGate {
    /// A gate with this count.
    pub fn of(calls: Arc<AtomicU64, Global>) -> CountGate {
        CountGate { calls }
    }
}

impl Gate for CountGate {
    fn after<R: Wait>(&mut self, _rt: &R, _at: GatePlace) {
        self.calls.fetch_add(1, Ordering::SeqCst);
    }
}

/// What two gates know of each other: whether the session of the second was answered, and whether the first gave up
/// waiting.
#[derive(Drop)]
pub struct Meeting {
    answered: AtomicU64,
    missed: AtomicU64,
}

impl Meeting {
    /// Before the second session.
    pub fn make(alloc: Global) -> Result<Arc<Meeting, Global>, AllocError> {
        let meeting = Meeting {
            answered: AtomicU64::new(0),
            missed: AtomicU64::new(0),
        };
        Ok(Arc::new(alloc, meeting)?)
    }

    /// Whether the second session was answered before the first gave up waiting.
    pub fn was_held(&self) -> bool {
        self.answered.load(Ordering::SeqCst) != 0 && self.missed.load(Ordering::SeqCst) == 0
    }
}

/// How often a gate looks whether the other session was answered.
const TURNS: u32 = 1_000_000;

/// One of two gates: the first holds its session where an entry was made, until the second's was answered to one, or a
/// million looks were in vain.
#[derive(Drop)]
pub struct HoldGate {
    is_first: bool,
    has_asked: bool,
    meeting: Arc<Meeting, Global>,
}

impl HoldGate {
    /// The first or the second gate of a meeting.
    pub fn of(is_first: bool, meeting: Arc<Meeting, Global>) -> HoldGate {
        HoldGate {
            is_first,
            has_asked: false,
            meeting,
        }
    }

    /// Waits until the second session was answered, or notes that it was not.
    fn hold(&self) {
        for _turn in 0..TURNS {
            if self.meeting.answered.load(Ordering::SeqCst) != 0 {
                return;
            }
            yield_now();
        }
        self.meeting.missed.store(1, Ordering::SeqCst);
    }
}

impl Gate for HoldGate {
    fn after<R: Wait>(&mut self, _rt: &R, at: GatePlace) {
        match at {
            GatePlace::Asked if self.is_first => self.hold(),
            GatePlace::Asked => self.has_asked = true,
            GatePlace::Written if self.has_asked => {
                self.meeting.answered.store(1, Ordering::SeqCst);
            }
            GatePlace::Line | GatePlace::Written => {}
        }
    }
}
