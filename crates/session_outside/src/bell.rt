//! The bell that stops all sessions.
ghost use Rattle.std.specs.Prelude.{◌≡◌, ℕ, [], ◌∷◌, Bool, true, false, List, All};
ghost use Rattle.session_outside.specs.Talk.{Counted, Follows};

/// The bell that stops all sessions.
pub trait Bell {
    /// The bell stands for this list of answers of `rung`.
    ghost answered: { Self → List Bool → Type 0 };

    /// How often `rung` said yes. It stands still at the last value of its counter.
    ghost tolls: { Self → ℕ };

    /// How often it was rung by `ring`. It stands still at the last value of its counter.
    ghost rings: { Self → ℕ };

    /// Rings it.
    fn ring(&mut self)
        ensures told { Follows answered self.old self.new [] }
        ensures tolls { tolls self.new ≡ tolls self.old }
        ensures rings { Counted true (rings self.old) (rings self.new) };

    /// Whether it has rung.
    fn rung(&mut self) -> bool
        ensures told { Follows answered self.old self.new (result ∷ []) }
        ensures tolls { Counted result (tolls self.old) (tolls self.new) }
        ensures rings { rings self.new ≡ rings self.old };
}

/// A bell that is never heard.
#[derive(Debug, Drop)]
pub struct StillBell {
    /// How often it was rung.
    pub rings: u64,
}

impl StillBell {
    /// A bell that nobody has rung.
    pub fn make() -> StillBell
        ensures { result ≡ record { rings = 0 } }
    {
        StillBell { rings: 0 }
    }
}

impl Bell for StillBell {
    ghost answered = { λ _ told. All (λ b. b ≡ false) told };

    ghost tolls = { λ _. 0 };

    ghost rings = { λ b. b.rings };

    fn ring(&mut self) {
        self.rings = self.rings.saturating_add(1);
    }

    fn rung(&mut self) -> bool {
        false
    }
}
