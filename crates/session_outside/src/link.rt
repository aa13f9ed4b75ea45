//! The link to a client.
ghost use Rattle.std.specs.Prelude.{◌≡◌, ℕ, ◌<◌, ◌≤◌, [], ◌∷◌, List, length, is_err};
ghost use Rattle.session_outside.specs.Talk.{Counted, Event, Follows, IsWithin, read_event, is_failed, is_quiet, write_event};

use thiserror::Error;

/// What a read gives.
#[derive(Clone, Copy, Debug, PartialEq, Eq)]
pub enum Got {
    /// This many bytes, one or more, at the front of the buffer.
    Bytes(usize),
    /// The end: no more bytes come.
    End,
    /// Nothing came for a while.
    Quiet,
    /// The read failed.
    Failed,
}

/// A write that failed.
#[derive(Clone, Copy, Debug, PartialEq, Eq, Error)]
#[error("link fault")]
pub struct LinkFailed;

/// The link to a client.
pub trait Link {
    /// The link stands for this list of events, from its making on. A link that doesn't tell stands for every list.
    ghost tells: { Self → List Event → Type 0 };

    /// How many calls have failed so far. It stands still at the last value of its counter.
    ghost faults: { Self → ℕ };

    /// How many reads were Quiet so far. It stands still at the last value of its counter.
    ghost quiets: { Self → ℕ };

    /// Reads what came, at most as many bytes as the buffer has.
    fn read(&mut self, buffer: &mut [u8]) -> Got
        requires { 0 < length buffer.old }
        ensures within { IsWithin result (length buffer.old) }
        ensures told { Follows tells self.old self.new (read_event result buffer.new ∷ []) }
        ensures faults { Counted (is_failed result) (faults self.old) (faults self.new) }
        ensures quiets { Counted (is_quiet result) (quiets self.old) (quiets self.new) };

    /// Writes the whole piece, or fails, where some first bytes of it were taken.
    fn write(&mut self, piece: &[u8]) -> Result<(), LinkFailed>
        ensures told { (taken : ℕ) × (taken ≤ length piece.now) × Follows tells self.old self.new (write_event result piece.now taken ∷ []) }
        ensures faults { Counted (is_err result) (faults self.old) (faults self.new) }
        ensures quiets { quiets self.new ≡ quiets self.old };
}
