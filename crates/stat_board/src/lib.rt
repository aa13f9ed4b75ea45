//! A status board: one writer publishes a Glance of a desk after each step, and parties read the last one without a
//! lock.
//!
//! [`Board::make`] gives the writer's side and a pass for each party. Each Glance stands for a list of entries, and a
//! board's lists each begin with the one before. A [`BoardNote`] says what a party has read; a pass that hears it reads
//! at least that from then on.
//!
//! A board has one reader, since a publishing looks at each reader and waits for those who still read what it is to
//! change. The passes share it: [`BoardPass::glance`] takes it where nobody else has it, reads the last Glance with it,
//! and puts it back. It waits for nobody. Where others have the reader at each of some looks it answers what its pass
//! has read or was told before, so it may be behind.
#![tactic(auto)]

mod board;
mod law;
mod list;
mod note;
mod pass;
mod rule;
mod share;
mod sharing;

pub use board::Board;
pub use counter::Glance;
pub use law::Ruling;
pub use no_memory::NoMemory;
pub use note::BoardNote;
pub use pass::BoardPass;
