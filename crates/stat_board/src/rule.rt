//! The rule of what is published, and what the steps of readers and of the writer tell.
use crate::note::BoardNote;
use atomic_table::{Join, Split};
use crossbeam_utils::rule::{Outcome, Protocol};
use left_right::reader::Reader;
use left_right::writer::Writer;

/// What a seat knows: a front that the board has reached, or nothing. Only proofs speak of it, and no note is kept
/// there.
pub(crate) type Known = Option<BoardNote>;

/// What is published is later than every front that a seat knows.
pub(crate) struct Published;

impl Protocol<BoardNote, Known> for Published {
    ghost use Rattle.std.specs.Prelude.{None};
    ghost use Rattle.stat_board.specs.Rule.{Keeps};

    ghost holds = { Keeps };

    ghost first = { None };
}

/// A step after which the seat knows what is published then.
pub(crate) struct Sees;

impl Outcome<BoardNote, Known> for Sees {
    ghost use Rattle.stat_board.specs.Rule.{Knows};

    ghost then = { Knows };
}

/// As `Sees`, of a board's first publishing. It is a type of its own so that each of the two calls has code of its own,
/// which the compiler then writes in place of the call: the writer isn't copied at each publishing.
pub(crate) struct Opens;

impl Outcome<BoardNote, Known> for Opens {
    ghost use Rattle.stat_board.specs.Rule.{Knows};

    ghost then = { Knows };
}

/// One seat tells another what it knows.
pub(crate) struct Telling;

impl Split<Known> for Telling {
    ghost left = { λ v. v };

    ghost right = { λ v. v };
}

impl Join<Known> for Telling {
    ghost use Rattle.std.specs.Prelude.{None};

    ghost both = { λ _ told. told };

    ghost spent = { None };
}

/// A party's side of what is published.
pub(crate) type NoteReader = Reader<BoardNote, Known, Published>;

/// The side that publishes.
pub(crate) type NoteWriter = Writer<BoardNote, BoardNote, Known, Published>;
