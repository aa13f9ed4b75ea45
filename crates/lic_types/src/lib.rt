//! The plain types that every part of the licence daemon speaks of: names, versions, clients, rules, groups, days and
//! notes, and the error for want of memory. Beside them the writing of texts and numbers into a room of bytes.
#![tactic(auto)]

mod client;
mod client_ref;
mod day;
mod group;
mod limits;
mod name;
mod name_ref;
mod note;
mod printed_day;
mod room;
mod same;
mod version;

pub use client::{Client, Rule, RuleLine, Who, WhoKind};
pub use client_ref::ClientRef;
pub use day::{Day, Expiry};
pub use group::Group;
pub use limits::{LICENCE_LIMIT, LINGER_LIMIT, MOMENT_END, PARTY_LIMIT};
pub use name::{Name, NameFault};
pub use name_ref::NameRef;
pub use no_memory::NoMemory;
pub use note::{Note, NoteKind};
pub use room::{put, put_number};
pub use same::same_bytes;
pub use version::Version;
