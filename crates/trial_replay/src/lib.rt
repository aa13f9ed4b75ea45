//! A trial of the book: events that follow from their numbers are replayed on the book of one pool, and the replies are
//! counted.
//!
//! The trial is this project's own.
#![tactic(auto)]

mod counts;
mod event;
mod replaying;
mod terms;
mod text;

pub use counts::Counts;
pub use replaying::replay_events;
pub use text::trial_text;
