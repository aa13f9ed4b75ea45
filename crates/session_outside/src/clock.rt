//! The clock.
ghost use Rattle.std.specs.Prelude.{ℕ, [], ◌∷◌, List};
ghost use Rattle.session_outside.specs.Talk.{Follows};

/// What tells the moment.
pub trait Clock {
    /// The clock stands for this list of moments that it gave.
    ghost gave: { Self → List ℕ → Type 0 };

    /// The moment, in seconds since 1970-01-01 UTC.
    fn now(&mut self) -> u64
        ensures { Follows gave self.old self.new (result ∷ []) };
}
