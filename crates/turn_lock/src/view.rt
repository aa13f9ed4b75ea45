//! What a seat at the lock's table knows. No value of these types is made.
use crate::kept::Entry;
use pass_roles::Role;
use std::collections::LinkedList;

/// How far a seat has come in its turn. The number is its ticket, which is not cut to the width of a word.
pub(crate) enum Stage {
    /// It has no ticket.
    Idle,
    /// Its ticket is not served yet.
    Waiting(u64),
    /// Its ticket is served, and the value is at home.
    Turn(u64),
    /// The value is out with it.
    Out(u64),
    /// Its entry is in the history, and the value is still out.
    Counted(u64),
    /// The value is at home again.
    Home(u64),
}

/// What was left of a view that was joined into another.
pub(crate) struct Joined<Q, A> {
    pub number: u64,
    pub seen: LinkedList<Entry<Q, A>>,
    pub mine: LinkedList<Entry<Q, A>>,
}

/// What one seat knows.
pub(crate) struct View<L, Q, A> {
    /// The law alone, or nothing in a spent view.
    pub law: LinkedList<L>,
    pub role: Role,
    pub stage: Stage,
    /// The history, as far as this seat has seen it.
    pub seen: LinkedList<Entry<Q, A>>,
    /// The party's own entries.
    pub mine: LinkedList<Entry<Q, A>>,
    pub joined: LinkedList<Joined<Q, A>>,
}
