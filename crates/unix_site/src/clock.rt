//! The clock of the system.
use session_outside::Clock;
use std::rt;
use std::time::{SystemTime, UNIX_EPOCH};

/// The clock of the system, in whole seconds since 1970-01-01 UTC. Where the system's can't be read, or shows a time
/// before 1970, it gives its last moment again, at first 0.
#[derive(Drop)]
pub struct SystemClock<R: rt::Clock + Drop> {
    system: R,
    last: u64,
}

impl<R: rt::Clock + Drop> SystemClock<R> {
    /// The clock of this system.
    pub fn of(system: R) -> SystemClock<R> {
        SystemClock { system, last: 0 }
    }
}

impl<R: rt::Clock + Drop> Clock for SystemClock<R> {
    ghost gave = { λ _ _. Unit {0} };

    fn now(&mut self) -> u64 {
        if let Ok(now) = SystemTime::now(&self.system)
            && let Ok(since) = now.duration_since(UNIX_EPOCH)
        {
            self.last = since.as_secs();
        }
        self.last
    }
}
