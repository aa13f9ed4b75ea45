//! What a seat at the gate's table knows. No value of these types is made.
use pass_roles::Role;
use seat_names::Seats;
use std::collections::LinkedList;

/// Where a session stands at the gate.
pub(crate) enum Spot {
    /// Outside.
    Free,
    /// It was let through, and is to test this bit.
    Testing(u64),
    /// This pass is its own to take.
    Taking(u64),
    /// It has this pass.
    Fast(u64),
    /// The pass is home again, and this bit is to be cleared.
    Clearing(u64),
    /// It is to give its place in the gate back.
    Giving,
    /// It was not let through, and uses its own pass.
    Slow,
}

/// A seat that a session had.
pub(crate) struct Visit {
    pub seat: u64,
    /// By the fast way.
    pub fast: bool,
}

/// What one seat knows.
pub(crate) struct View {
    /// The seats behind the gate.
    pub seats: Seats,
    pub role: Role,
    pub spot: Spot,
    /// The seats that the session had, in order.
    pub visits: LinkedList<Visit>,
    /// At Fast, the numbers that the pass had taken before it left its slot.
    pub kept: LinkedList<u64>,
    /// How many sessions were not Free when this one last took its place.
    pub met: u64,
    /// The numbers of the sessions that were joined into this one.
    pub joined: LinkedList<u64>,
}
