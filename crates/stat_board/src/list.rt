//! The list of a board, which only grows: nothing keeps it when the program runs, and the board's word has its length.
use logbook::{Gain, Plain, Play, Rule, Word};
use options_machine::{Entry, EntryRef};

/// The rule of the book: its word is the length of the list.
pub(crate) struct Growing;

impl Rule<Entry, u64> for Growing {
    ghost use Rattle.std.specs.Prelude.{[]};
    ghost use base.Fml.{ftrue};
    ghost use Rattle.stat_board.specs.Counted.{IsCounted};

    ghost holds = { IsCounted };

    ghost first = { [] };

    ghost hinted = { λ _ _. Unit {0} };

    ghost shows = { λ _. [] };

    ghost keeps = { λ _ _. ftrue };

    ghost moves = { λ _ _ _ _. Unit {0} };
}

/// The word of a board.
pub(crate) type Head = Word<Entry, u64, Growing>;

/// The writer trades nothing.
pub(crate) struct Nothing;

impl Gain<Entry, u64> for Nothing {
    ghost use base.Fml.{ftrue};

    ghost after = { λ _ _ _. ftrue };
}

/// The step that adds an entry.
pub(crate) struct Adding;

impl Play<Entry, u64> for Adding {
    ghost use Rattle.stat_board.specs.Counted.{Adds};

    ghost then = { Adds };
}

/// What the step asks for: that this entry is added.
pub(crate) struct Asking;

impl<'a> Plain<EntryRef<'a>, Entry, u64> for Asking {
    ghost use Rattle.std.specs.Prelude.{None};

    ghost ask = { λ e. e };

    ghost state = { λ _. None };
}
