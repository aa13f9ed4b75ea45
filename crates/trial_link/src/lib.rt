//! A link in memory that plays one client of a trial: it takes a licence and gives it back, round after round.
#![tactic(auto)]

mod call;
mod link;

pub use call::{Call, Stage};
pub use link::TrialLink;
