ghost use Rattle.std.specs.Prelude.{◌≡◌, ◌≢◌, ◌⊎◌, ℕ, ◌<◌, ◌≤◌, List, [], ◌∷◌, ◌++◌, Option, IfOk, IfSome, length, vec_len};

use std::alloc::Global;
use thiserror::Error;

/// Why a file isn't read.
#[derive(Clone, Copy, Debug, PartialEq, Eq, Error)]
pub enum FileFault {
    /// It isn't there, or a read failed.
    #[error("read fault")]
    Failed,
    /// It is longer than the limit.
    #[error("longer than the limit")]
    TooLong,
    /// There was too little memory to hold it, or to keep its name.
    #[error("no memory")]
    NoMemory,
}

/// Files that can be read whole.
pub trait Files {
    /// The names that were asked for so far, in their order.
    ghost asked: { Self → List (List ℕ) };

    /// Those of them whose reading failed, in their order.
    ghost failed: { Self → List (List ℕ) };

    /// What the file of a name holds, where these files tell it. The real ones tell nothing.
    ghost contents: { Self → List ℕ → Option (List ℕ) };

    /// The bytes of a file, which are no more than the limit. `TooLong` comes exactly where the file has more bytes
    /// than that, `Failed` exactly where the name is added to those whose reading failed, and `NoMemory` is free.
    fn read(&mut self, alloc: Global, name: &str, limit: usize) -> Result<Vec<u8>, FileFault>
        ensures read { IfOk result (λ bytes. IfSome (contents self.old name.now) (λ told. bytes.items ≡ told)) }
        ensures short { IfOk result (λ bytes. vec_len bytes ≤ limit) }
        ensures too_long { result ≡ Err FileFault.TooLong → IfSome (contents self.old name.now) (λ told. limit < length told) }
        ensures asked { result ≢ Err FileFault.NoMemory → asked self.new ≡ asked self.old ++ name.now ∷ [] }
        // Memory may be wanted before the name was kept, and behind that.
        ensures unasked { result ≡ Err FileFault.NoMemory
            → (asked self.new ≡ asked self.old) ⊎ (asked self.new ≡ asked self.old ++ name.now ∷ []) }
        ensures failed { result ≡ Err FileFault.Failed → failed self.new ≡ failed self.old ++ name.now ∷ [] }
        ensures steady { result ≢ Err FileFault.Failed → failed self.new ≡ failed self.old }
        ensures same { (other : List ℕ) → contents self.new other ≡ contents self.old other };
}
