//! The outside of the daemon over the real system: a Unix stream socket at a path, a copy of its listener for each
//! worker, the system's clock, and one bell for all. Nothing of what they give or take is told.
#![tactic(auto)]

mod busy_poll;
mod clock;
mod door;
mod flag;
mod link;
mod listening;
mod site;
mod socket;

pub use clock::SystemClock;
pub use door::UnixDoor;
pub use link::UnixLink;
pub use site::UnixSite;
