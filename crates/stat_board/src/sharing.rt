//! The table of a board's reader: its rule, and what each step tells.
use crate::note::BoardNote;
use crate::rule::NoteReader;
use atomic_table::{Play, Seat, Split, Table, TableRule};
use std::alloc::Global;
use std::snapshot::Snapshot;

/// The word and the slot of the reader. A board has one, since a publishing looks at each reader that there is.
pub(crate) const SLOT: usize = 0;

/// How many words and slots the table has.
pub(crate) const PLACES: usize = 1;

/// The rule: the word is 0 where the slot is at home, and a reader at home was told of the board that its table opened
/// with.
pub(crate) struct Sharing;

impl TableRule<Option<NoteReader>, BoardNote, Snapshot<BoardNote>> for Sharing {
    ghost use Rattle.left_right.specs.Sides.{view};
    ghost use Rattle.stat_board.specs.Sharing.{IsShared};

    ghost holds = { λ key. IsShared (λ r. view r.place) key.value };

    ghost first = { λ key. key.value };
}

/// A new seat knows the same opening.
impl Split<BoardNote> for Sharing {
    ghost left = { λ f. f };

    ghost right = { λ f. f };
}

/// Raises the word from 0 to 1: then the seat has the slot.
pub(crate) struct Take;

impl Play<Option<NoteReader>, BoardNote> for Take {
    ghost use Rattle.left_right.specs.Sides.{view};
    ghost use Rattle.stat_board.specs.Sharing.{takes_slot};

    ghost then = { takes_slot (λ r. view r.place) };
}

/// Sets the word to 0: the slot goes home.
pub(crate) struct Give;

impl Play<Option<NoteReader>, BoardNote> for Give {
    ghost use Rattle.stat_board.specs.Sharing.{gives_slot};

    ghost then = { gives_slot };
}

/// One word, and one slot with the reader.
pub(crate) type ReaderTable = Table<
    Option<NoteReader>,
    BoardNote,
    Snapshot<BoardNote>,
    Sharing,
    Global,
>;

/// A seat at that table. It has no bytes.
pub(crate) type ReaderSeat = Seat<Option<NoteReader>, BoardNote>;
