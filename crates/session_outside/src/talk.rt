//! What is kept of a talk.
ghost use Rattle.std.specs.Prelude.{◌≡◌, ◌≤◌, ◌∷◌, [], IfOk, false, length, vec_capacity};
ghost use Rattle.session_outside.specs.Talk.{Follows};
ghost use Rattle.session_outside.specs.Memory.{KeepsTalk, event, size, sizes};

use std::alloc::{AllocError, Global};

/// What is kept of an event, beside its bytes.
#[derive(Clone, Copy, Debug, PartialEq, Eq)]
pub enum Mark {
    /// This many bytes were heard.
    Heard(usize),
    /// Nothing came for a while.
    Silence,
    /// The end came.
    Ended,
    /// A read failed.
    ReadFault,
    /// This many bytes were written.
    Wrote(usize),
    /// A write failed that took this many bytes.
    WriteFault(usize),
}

/// A talk that is kept. Its room is taken at its making; where it needs more and finds none, it tells nothing any more.
#[derive(Debug, Drop)]
pub struct Talk {
    /// What is kept of each event.
    pub marks: Vec<Mark>,
    /// The bytes of all events, one after another.
    pub bytes: Vec<u8>,
    /// Whether the room was used up.
    pub lost: bool,
    ghost sized: { sizes marks.items ≡ length bytes.items },
}

impl Talk {
    /// An empty talk with room for this many events, and for this many bytes.
    pub fn make(alloc: Global, events: usize, bytes: usize) -> Result<Talk, AllocError>
        ensures empty { IfOk result (λ talk. (talk.marks.items ≡ []) × (talk.bytes.items ≡ []) × (talk.lost ≡ false)) }
        ensures room { IfOk result (λ talk. (events ≤ vec_capacity talk.marks) × (bytes ≤ vec_capacity talk.bytes)) }
    {
        Ok(Talk {
            marks: Vec::with_capacity(alloc, events)?,
            bytes: Vec::with_capacity(alloc, bytes)?,
            lost: false,
        })
    }

    /// Keeps an event with its bytes.
    pub fn keep(&mut self, mark: Mark, piece: &[u8])
        requires { size mark ≡ length piece.now }
        ensures { Follows (λ t told. KeepsTalk t.lost t.marks.items t.bytes.items told) self.old self.new (event mark piece.now ∷ []) }
    {
        if self.bytes.extend_from_slice(piece).is_err() {
            self.lost = true;
            return;
        }
        if self.marks.push(mark).is_err() {
            self.lost = true;
            let len = self.bytes.len() - piece.len();
            self.bytes.truncate(len);
        }
    }
}
