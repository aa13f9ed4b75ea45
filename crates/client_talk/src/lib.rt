//! What a client of the daemon says and hears: one line and its reply, a whole errand, and what is printed of it.
#![tactic(auto)]

mod cause;
mod client;
mod errand;
mod exchange;
mod glance;
mod hearing;
mod hold;
mod holding;
mod judging;
mod keeping;
mod lost;
mod printing;
mod request;
mod running;
mod standing;
mod table;
mod want;

pub use cause::{Cause, Refusal};
pub use client::{BadWord, Client, ClientWord};
pub use errand::{ask, reread, shutdown, status};
pub use glance::read_glance;
pub use hold::{Hold, Pace};
pub use judging::judge;
pub use keeping::{give_back, keep, take, wait};
pub use lost::Lost;
pub use request::Request;
pub use running::{Errand, run};
pub use standing::Standing;
pub use want::Want;
