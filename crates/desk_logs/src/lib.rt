//! What a daemon writes at its end: the logs of its pools, and then their tallies.
#![tactic(auto)]

mod gather;
mod laws;
mod pools;

pub use laws::ends_are_written;
pub use pools::write_logs;
