//! What a party reads a board with.
ghost use Rattle.std.specs.Prelude.{◌≡◌};
ghost use Rattle.stat_board.specs.Fronts.{IsSameBoard, IsLater};
ghost use Rattle.stat_board.specs.Shows.{IsGlanceOf};

use crate::note::BoardNote;
use crate::share::ReaderShare;
use counter::Glance;
use std::marker::Model;

/// What a party knows of a board, and the reader by which it sees more, which all passes of the board share.
///
/// Contracts see it as the `Front` that it knows: the one with the longest list of those that it read or was told of.
#[derive(Drop)]
pub struct BoardPass {
    known: BoardNote,
    share: ReaderShare,
}

impl Model for BoardPass {
    ghost use Rattle.stat_board.specs.Fronts.{Front, IsSameBoard};

    ghost Value = { Front };

    ghost view = { λ p. p.known };

    ghost invariant = { λ p. IsSameBoard p.known p.share };
}

impl BoardPass {
    /// A pass that knows a front of the board of this reader.
    pub(crate) fn of(known: BoardNote, share: ReaderShare) -> BoardPass
        requires { IsSameBoard known share }
        ensures { result ≡ known }
    {
        BoardPass { known, share }
    }

    /// Reads the board with its reader, which one pass has at a time. It waits for nobody and takes no memory.
    ///
    /// The answer stands for a list that begins with all that this pass read and was told of before. Where others had
    /// the reader at each of some looks, or the board has ended, it is just what this pass read or was told of, and may
    /// be behind the board.
    pub fn glance(&mut self) -> Glance
        ensures later { IsLater self.old self.new }
        ensures stands { IsGlanceOf self.new.sets self.new.list result }
    {
        self.share.read(&mut self.known);
        self.known.glance()
    }

    /// What this pass knows, for other passes of its board.
    pub fn note(&self) -> BoardNote
        ensures { result ≡ self.now }
    {
        self.known.copy()
    }

    /// Takes in what a note of its board says. Each Glance after this stands for at least that.
    pub fn hear(&mut self, note: &BoardNote)
        requires { IsSameBoard self.old note.now }
        ensures later { IsLater self.old self.new }
        ensures heard { IsLater note.now self.new }
    {
        self.known.hear(note);
    }
}
