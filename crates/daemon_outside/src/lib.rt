//! The outside as the daemon sees it: the doors at which connections come in, and the site that gives each worker its
//! post; both in memory too.
#![tactic(auto)]

mod bell;
mod door;
mod memory;
mod site;

pub use bell::SharedBell;
pub use door::{Came, Door, FAIL_LIMIT};
pub use memory::{Knock, MemDoor, MemPost, MemSite, Retired};
pub use site::{Post, Site, SiteFailed};
