//! What a seat at the table knows. No value of these types is made.
use kex_core::{Net, Place};
use pass_roles::Role;
use std::collections::LinkedList;

/// What one seat knows.
pub(crate) struct View {
    /// The table's net.
    pub net: Net,
    pub role: Role,
    /// Where the party stands. At Out it has not made its first access.
    pub place: Place,
    /// The party's accesses since it was last Out, but for reads of spin words.
    pub firsts: u64,
    /// The party's reads of spin words since it was last Out.
    pub spins: u64,
    /// The numbers that the party took, in order.
    pub got: LinkedList<u64>,
    /// While a card is held, how often it was used.
    pub uses: u64,
    /// The numbers of the parties that were joined into this one.
    pub joined: LinkedList<u64>,
}
