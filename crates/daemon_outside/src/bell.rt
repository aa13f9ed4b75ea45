//! A bell that several threads share.
ghost use Rattle.std.specs.Prelude.{◌≡◌, nat_lt};

use session_outside::Bell;
use std::alloc::Global;
use std::sync::Arc;
use std::sync::atomic::{AtomicU64, Ordering};

/// A bell that rings together with every other bell of the same flag, in whichever threads they are. It tells nothing
/// of its answers.
#[derive(Drop)]
pub struct SharedBell {
    /// Not 0 once any of the bells was rung.
    flag: Arc<AtomicU64, Global>,
    /// How often it said that it has rung.
    pub tolls: u64,
    /// How often it was rung here.
    pub rings: u64,
}

impl SharedBell {
    /// One more bell with this flag, which is 0 as long as none of its bells was rung.
    pub fn of(flag: Arc<AtomicU64, Global>) -> SharedBell
        ensures { (result.tolls ≡ 0) × (result.rings ≡ 0) }
    {
        SharedBell {
            flag,
            tolls: 0,
            rings: 0,
        }
    }

    /// Whether it ever said that it has rung.
    pub fn was_heard(&self) -> bool
        ensures { result ≡ nat_lt 0 self.now.tolls }
    {
        0 < self.tolls
    }

    /// Whether it was ever rung here.
    pub fn was_rung(&self) -> bool
        ensures { result ≡ nat_lt 0 self.now.rings }
    {
        0 < self.rings
    }
}

impl Bell for SharedBell {
    ghost answered = { λ _ _. Unit {0} };

    ghost tolls = { λ b. b.tolls };

    ghost rings = { λ b. b.rings };

    fn ring(&mut self) {
        self.flag.store(1, Ordering::SeqCst);
        self.rings = self.rings.saturating_add(1);
    }

    fn rung(&mut self) -> bool {
        let rung = self.flag.load(Ordering::SeqCst) != 0;
        if rung {
            self.tolls = self.tolls.saturating_add(1);
        }
        rung
    }
}
