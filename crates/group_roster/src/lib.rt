//! Who is in the groups of an options file: their members, sorted once, for all pools of the file. And whether a name is
//! none of many, by numbers made of names.
#![tactic(auto)]

mod listing;
mod prints;
mod roster;

pub use prints::{Printed, Prints, name_print};
pub use roster::Roster;
