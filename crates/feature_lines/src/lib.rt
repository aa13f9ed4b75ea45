//! The licence file read exactly: its pools, what isn't served and why, and which pool serves a checkout.
#![tactic(auto)]

mod date;
mod draft;
mod fault;
mod licence;
mod line;
mod names;
mod pool;
mod route;
mod words;

pub use date::read_expiry;
pub use fault::LicenceFault;
pub use lic_types::{Note, NoteKind};
pub use licence::{Licence, read_licence};
pub use pool::Pool;
pub use route::{Found, find_pool};
