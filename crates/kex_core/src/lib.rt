//! Nets of stages, and the machine that gives at most k of N parties different numbers below k.
//!
//! The stages and the renaming are after J. Anderson and M. Moir, "Using Local-Spin k-Exclusion Algorithms to Improve
//! Wait-Free Object Implementations", Distributed Computing 11, 1997. The exact listing, and nets of stages in this
//! form, are this project's.
//!
//! A [`Net`] is a valid net. A [`World`] is a machine on it: the parties' places and the words that they share. One
//! step of a party is one access to one word. The laws of the machine are the contracts of the functions in `laws`,
//! which do nothing.
#![tactic(auto)]

mod fault;
mod laws;
mod limits;
mod net;
mod place;
mod validity;
mod world;

pub use fault::NetFault;
pub use laws::{
    accesses_are_bounded, moves_keep_the_invariant, paths_follow_next, safe_on_every_schedule,
};
pub use limits::{PARTY_LIMIT, STAGE_LIMIT};
pub use net::Net;
pub use no_memory::NoMemory;
pub use place::{Access, Place};
pub use world::World;
