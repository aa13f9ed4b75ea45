//! The seats of a pool that linger, in the order in which they came.
//!
//! A table keeps them in slots that are filled in the order of coming, each with a mark of its client and a deadline in
//! a clock, so that the next entry whose time is up is found without a search, and a client's own entry by one
//! comparison of marks for each slot. All memory is taken when the table is made.
#![tactic(auto)]

mod gaps;
mod marks;
mod slots;
mod table;

pub use no_memory::NoMemory;
pub use table::LingerTable;
