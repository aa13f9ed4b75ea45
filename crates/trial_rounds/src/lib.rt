//! What the rounds of a trial's client come to: as many grants, however the sessions of the others interleave.
#![tactic(auto)]

mod laws;

pub use laws::{grants_add, rounds_granted};
