//! A trial: the clients of one feature, each with a session of its own in a thread of its own, over links in memory.
//!
//! [`try_out`] is the whole of it: the office, the posts, the sessions, and the office's close.
#![tactic(auto)]

mod failure;
mod holding;
mod opening;
mod player;
mod playing;

pub use failure::TrialFailed;
pub use opening::try_out;
pub use player::{Player, Trial};
