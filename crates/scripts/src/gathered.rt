//! Output lines that are gathered, and written together.
ghost use Rattle.std.specs.Prelude.{◌≡◌, ◌≤◌, ◌+◌, ◌++◌, [], IfOk, length, nat_le};
ghost use Rattle.outside.specs.Told.{Wrote};
ghost use Rattle.scripts.specs.Answers.{answer_text};
ghost use Rattle.scripts.specs.declared.gathered.TheConstants.{GATHER_LIMIT};

use crate::answers::{Answer, LINE_ROOM, put_answer};
use lic_types::{NoMemory, put};
use outside::{Sink, WriteFailed};
use std::alloc::Global;
use std::marker::Model;

/// How many bytes are gathered at most.
const GATHER_LIMIT: usize = 65_536;

/// Output lines that were not written yet. A clause sees their text.
#[derive(Drop)]
pub(crate) struct Gathered {
    room: Vec<u8>,
    at: usize,
}

impl Model for Gathered {
    ghost use Rattle.std.specs.Prelude.{ℕ, List, take};
    ghost use Rattle.scripts.specs.Gathered.{IsWithin};

    ghost Value = { List ℕ };

    ghost view = { λ g. take g.at g.room.items };

    ghost invariant = { λ g. IsWithin g.at g.room.items };
}

impl Gathered {
    /// No lines yet. All memory is taken here. `NoMemory` comes where there was too little.
    pub fn make(alloc: Global) -> Result<Self, NoMemory>
        ensures { IfOk result (λ gathered. gathered ≡ []) }
    {
        let room = vec![in alloc; 0; GATHER_LIMIT]?;
        Ok(Gathered { room, at: 0 })
    }

    /// Whether there is room for one line more.
    pub fn has_room(&self) -> bool
        ensures { result ≡ nat_le (length self.now + LINE_ROOM) GATHER_LIMIT }
    {
        self.at + LINE_ROOM <= GATHER_LIMIT
    }

    /// Adds the output line of an answer.
    pub fn add(&mut self, answer: &Answer)
        requires { length self.old + LINE_ROOM ≤ GATHER_LIMIT }
        ensures { self.new ≡ self.old ++ answer_text answer.now }
    {
        let mut line = [0u8; LINE_ROOM];
        let len = put_answer(answer, &mut line);
        self.at = put(self.room.as_mut_slice(), self.at, &line[..len]);
    }

    /// Writes the lines to a sink. None are left, whatever comes of it.
    pub fn write<O: Sink>(&mut self, out: &mut O) -> Result<(), WriteFailed>
        ensures wrote { Wrote O.held O.faults out.old out.new self.old result }
        ensures none { self.new ≡ [] }
    {
        let at = self.at;
        self.at = 0;
        out.write(&self.room[..at])
    }
}
