//! The outside as a session sees it: the link to a client, the clock, the bell that stops all sessions, and the gate at
//! which a test can hold one; all of them in memory too.
#![tactic(auto)]

mod bell;
mod clock;
mod gate;
mod link;
mod memory;
mod talk;

pub use bell::{Bell, StillBell};
pub use clock::Clock;
pub use gate::{Gate, GatePlace, NoGate};
pub use link::{Got, Link, LinkFailed};
pub use memory::{Feed, MemBell, MemClock, MemLink};
pub use talk::{Mark, Talk};
