//! The table of words and slots, its rule, and the kinds of step.
ghost use Rattle.std.specs.Prelude.{◌≡◌, ◌+◌, ◌*◌, ◌≤◌};
ghost use Rattle.kex_core.specs.declared.limits.TheConstants.{STAGE_LIMIT};

use crate::card::Card;
use crate::view::View;
use atomic_table::{Join, Play, Seat, Split, Table, TableRule};
use kex_core::Net;
use std::alloc::Global;
use std::snapshot::Snapshot;

/// The word of the counter of stage j. Word 0 is read by split and join alone.
pub(crate) fn counter_word(j: u32) -> usize
    requires { j ≤ STAGE_LIMIT }
    ensures { result ≡ 2 * j + 1 }
{
    2 * j as usize + 1
}

/// The spin word of stage j.
pub(crate) fn spin_word(j: u32) -> usize
    requires { j ≤ STAGE_LIMIT }
    ensures { result ≡ 2 * j + 2 }
{
    2 * j as usize + 2
}

/// The rule of the table: the words and views, read off, are a world that meets its invariant.
pub(crate) struct ReadOff;

impl TableRule<Option<Card>, View, Snapshot<Net>> for ReadOff {
    ghost use Rattle.kex_words.specs.Rule.{IsReadOff};
    ghost use Rattle.kex_words.specs.Steps.{maker};

    ghost holds = { λ key. IsReadOff key.value };

    ghost first = { λ key. maker key.value 0 };
}

/// The words, and a slot for each card.
pub(crate) type WordTable = Table<Option<Card>, View, Snapshot<Net>, ReadOff, Global>;

/// A seat at the table.
pub(crate) type WordSeat = Seat<Option<Card>, View>;

/// An access that moves no card.
pub(crate) struct Moves;

impl Play<Option<Card>, View> for Moves {
    ghost use Rattle.kex_words.specs.Steps.{moves_no_card};

    ghost then = { moves_no_card };
}

/// Reads a bit: where it is set that is the test of it, and else no access.
pub(crate) struct LooksAtBit;

impl Play<Option<Card>, View> for LooksAtBit {
    ghost use Rattle.kex_words.specs.Steps.{looks_at_bit};

    ghost then = { looks_at_bit };
}

/// Sets a card word from 0 to 1: the card goes out with the seat.
pub(crate) struct TakesCard;

impl Play<Option<Card>, View> for TakesCard {
    ghost use Rattle.kex_words.specs.Steps.{took};

    ghost then = { took };
}

/// Sets a card word from 1 to 0: the card goes home.
pub(crate) struct GivesCard;

impl Play<Option<Card>, View> for GivesCard {
    ghost use Rattle.kex_words.specs.Steps.{gave};

    ghost then = { gave };
}

/// A new pass's view is cut off the maker's.
pub(crate) struct Deal;

impl Split<View> for Deal {
    ghost use Rattle.kex_words.specs.Steps.{dealt_view, newcomer};

    ghost left = { dealt_view };

    ghost right = { newcomer };
}

/// A pass's view goes into another's.
pub(crate) struct Gather;

impl Join<View> for Gather {
    ghost use Rattle.kex_words.specs.Steps.{both, spent_view};

    ghost both = { both };

    ghost spent = { spent_view };
}
