ghost use Rattle.std.specs.Prelude.{◌≡◌, ℕ, ◌≤◌, List, Option, OnOk, OnErr};
ghost use Rattle.outside.specs.Told.{HasRisen, TakesPrefix, held_after};

use thiserror::Error;

/// A write that failed.
#[derive(Clone, Copy, Debug, PartialEq, Eq, Error)]
#[error("write fault")]
pub struct WriteFailed;

/// Where bytes go.
pub trait Sink {
    /// How many writes have failed so far. It stands still at the last value of its counter.
    ghost faults: { Self → ℕ };

    /// All that it took, where it tells that. The real ones tell nothing.
    ghost held: { Self → Option (List ℕ) };

    /// Takes the whole piece, or fails, where the count of faults rose and some first bytes of the piece were taken.
    fn write(&mut self, piece: &[u8]) -> Result<(), WriteFailed>
        ensures ok { OnOk result (held self.new ≡ held_after (held self.old) piece.now) }
        ensures err { OnErr result (TakesPrefix (held self.old) (held self.new) piece.now) }
        ensures failed { OnErr result (HasRisen (faults self.old) (faults self.new)) }
        ensures steady { OnOk result (faults self.new ≡ faults self.old) }
        ensures later { faults self.old ≤ faults self.new };
}
