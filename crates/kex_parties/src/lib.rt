//! The parties of a table of running words, each of which makes its next access when it is told to.
//!
//! A pass of a table is of one type for each kind of place, and each type has its own step calls. A [`Party`] is a pass
//! at whatever place it stands, and [`Party::step`] is the one step call that is due there. [`Parties`] are a table
//! with all its parties, so that a schedule is a list of party numbers, as it is for the machine of `kex_core`.
#![tactic(auto)]

mod parties;
mod party;

pub use parties::Parties;
pub use party::Party;
