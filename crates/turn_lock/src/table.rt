//! The lock's table, its rule, and the kinds of step.
use crate::kept::Kept;
use crate::view::View;
use atomic_table::{Join, Play, Seat, Split, Table, TableRule};
use std::alloc::Global;
use std::marker::{Brand, PhantomData};
use std::snapshot::Snapshot;

/// The word of the next ticket. Word 0 is read by split and join alone.
pub(crate) const TICKET: usize = 1;

/// The word of the ticket that is served, which is the number of the calls that are over.
pub(crate) const SERVING: usize = 2;

/// The slot of the value.
pub(crate) const VALUE: usize = 0;

/// The most passes of a lock.
pub(crate) const PASS_LIMIT: u32 = 256;

/// What the rule is told when the table is made.
#[derive(Drop)]
pub(crate) struct Opening<V> {
    /// The value as it was then.
    pub value: Snapshot<V>,
    /// How many passes there are.
    pub parties: u32,
}

/// The rule of the table.
pub(crate) struct InTurn<V> {
    of: PhantomData<V>,
}

impl<V: Kept> TableRule<Option<V>, View<V::Law, V::Request, V::Answer>, Opening<V>> for InTurn<V> {
    ghost use Rattle.turn_lock.specs.Rule.{Ruled};
    ghost use Rattle.turn_lock.specs.Steps.{maker};

    ghost holds = { λ key. Ruled V.law V.party V.run V.stands (V.law key.value.value) key.parties };

    ghost first = { λ key. maker (V.law key.value.value) 0 };
}

/// Three words, and one slot with the value.
pub(crate) type LockTable<V: Kept> = Table<
    Option<V>,
    View<V::Law, V::Request, V::Answer>,
    Opening<V>,
    InTurn<V>,
    Global,
>;

/// A seat at the table.
pub(crate) type LockSeat<V: Kept> = Seat<Option<V>, View<V::Law, V::Request, V::Answer>>;

/// Raises the ticket word: the seat has the ticket that was found.
pub(crate) struct Draw;

impl<S, L, Q, A> Play<S, View<L, Q, A>> for Draw {
    ghost use Rattle.turn_lock.specs.Steps.{drew};

    ghost then = { drew };
}

/// Raises the ticket word where it is the number handed in: then the seat has that ticket.
pub(crate) struct Claim;

impl<S, L, Q, A> Play<S, View<L, Q, A>> for Claim {
    ghost use Rattle.turn_lock.specs.Steps.{claims_ticket};

    ghost then = { claims_ticket };
}

/// Loads the serving word: the seat has the turn where it finds its ticket.
pub(crate) struct Watch;

impl<S, L, Q, A> Play<S, View<L, Q, A>> for Watch {
    ghost use Rattle.turn_lock.specs.Steps.{watches_turn};

    ghost then = { watches_turn };
}

/// Loads the serving word: the value goes out with the seat.
pub(crate) struct Take<V> {
    of: PhantomData<V>,
}

impl<V: Kept> Play<Option<V>, View<V::Law, V::Request, V::Answer>> for Take<V> {
    ghost use Rattle.turn_lock.specs.Steps.{took};

    ghost then = { took V.law V.party V.run V.stands };
}

/// The entry that a call counts, picked where it is counted.
pub(crate) trait Saying<Q, A> {
    ghost use Rattle.std.specs.Prelude.{List};
    ghost use Rattle.turn_lock.specs.declared.kept.Entry.{Entry};

    /// A list of that one entry.
    ghost said: { List (Entry Q A) };
}

impl<Q, A> Saying<Q, A> for Brand {
    ghost use Rattle.std.specs.Prelude.{[]};

    ghost said = { [] };
}

/// Loads the serving word: the entry is in the history.
pub(crate) struct Count<J> {
    of: PhantomData<J>,
}

impl<S, L, Q, A, J: Saying<Q, A>> Play<S, View<L, Q, A>> for Count<J> {
    ghost use Rattle.turn_lock.specs.Steps.{extends_history};

    ghost then = { extends_history J.said };
}

/// Loads the serving word: the value goes home.
pub(crate) struct Give;

impl<S, L, Q, A> Play<S, View<L, Q, A>> for Give {
    ghost use Rattle.turn_lock.specs.Steps.{gave};

    ghost then = { gave };
}

/// Raises the serving word: the seat has no ticket any more.
pub(crate) struct Next;

impl<S, L, Q, A> Play<S, View<L, Q, A>> for Next {
    ghost use Rattle.turn_lock.specs.Steps.{hands_on_turn};

    ghost then = { hands_on_turn };
}

/// A new pass's view is cut off the maker's.
pub(crate) struct Deal;

impl<L, Q, A> Split<View<L, Q, A>> for Deal {
    ghost use Rattle.turn_lock.specs.Steps.{dealt_view, newcomer};

    ghost left = { dealt_view };

    ghost right = { newcomer };
}

/// A pass's view goes into another's.
pub(crate) struct Gather;

impl<L, Q, A> Join<View<L, Q, A>> for Gather {
    ghost use Rattle.turn_lock.specs.Steps.{both, spent_view};

    ghost both = { both };

    ghost spent = { spent_view };
}
