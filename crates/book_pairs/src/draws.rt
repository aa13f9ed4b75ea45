//! Numbers that look random.
ghost use Rattle.std.specs.Prelude.{◌<◌};

/// A generator: Knuth's 64-bit linear congruential one (MMIX), of which the upper bits are used.
#[derive(Clone, Copy)]
pub struct Draws {
    state: u64,
}

impl Draws {
    /// The numbers that follow from this seed.
    pub fn of(seed: u64) -> Draws {
        Draws { state: seed }
    }

    /// The next number, below the limit.
    pub fn below(&mut self, limit: u32) -> u32
        requires { 0 < limit }
        ensures { result < limit }
    {
        self.state = self
            .state
            .wrapping_mul(6_364_136_223_846_793_005)
            .wrapping_add(1_442_695_040_888_963_407);
        (self.state >> 33) as u32 % limit
    }
}
