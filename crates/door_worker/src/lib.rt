//! A worker of the daemon: it serves the links of a door, one after another, until a bell is heard or the door is
//! broken.
#![tactic(auto)]

mod end;
mod worker;

pub use end::DoorEnd;
pub use worker::serve_door;
