//! The door at which connections come in.
ghost use Rattle.std.specs.Prelude.{◌≡◌, ◌+◌, ◌<◌, ℕ, List, [], ◌∷◌, ◌++◌};
ghost use Rattle.session_outside.specs.Talk.{Counted, Event, Follows};

use session_outside::Link;

/// A door is broken once so many accepts failed with no link between them.
pub const FAIL_LIMIT: u64 = 1000;

/// What an accept gives.
#[derive(Debug, Drop)]
pub enum Came<L> {
    /// A connection.
    Link(L),
    /// Nothing came for a while.
    Quiet,
    /// The accept failed.
    Failed,
}

/// The door at which connections come in.
pub trait Door {
    /// A connection.
    type Link: Link + Send;

    ghost use Rattle.daemon_outside.specs.Doors.{IsFresh, is_failed, is_quiet, fails_after, lent_after};

    /// The door stands for this list of the talks of the links that it took back. One that doesn't tell stands for
    /// every list.
    ghost talks: { Self → List (List Event) → Type 0 };

    /// How many accepts failed so far. It stands still at the last value of its counter.
    ghost faults: { Self → ℕ };

    /// How many accepts were Quiet so far. It stands still at the last value of its counter.
    ghost quiets: { Self → ℕ };

    /// How many accepts failed since the last link.
    ghost fails: { Self → ℕ };

    /// How many links are given and not taken back.
    ghost lent: { Self → ℕ };

    /// Waits a while for a connection.
    fn accept(&mut self) -> Came<Self::Link>
        ensures told { Follows talks self.old self.new [] }
        ensures fresh { IsFresh Self.Link.tells result }
        ensures faults { Counted (is_failed result) (faults self.old) (faults self.new) }
        ensures quiets { Counted (is_quiet result) (quiets self.old) (quiets self.new) }
        ensures fails { fails self.new ≡ fails_after result (fails self.old) }
        ensures lent { lent self.new ≡ lent_after result (lent self.old) };

    /// Takes a link back, and its talk.
    fn done(&mut self, link: Self::Link)
        requires { 0 < lent self.old }
        ensures told { (ts : List (List Event)) (t : List Event) → talks self.old ts → Self.Link.tells link t → talks self.new (ts ++ t ∷ []) }
        ensures faults { faults self.new ≡ faults self.old }
        ensures quiets { quiets self.new ≡ quiets self.old }
        ensures fails { fails self.new ≡ fails self.old }
        ensures lent { lent self.new + 1 ≡ lent self.old };
}
