//! A ticket lock round a value of any type that can say what its runs are.
//!
//! [`Turns::make`] puts a value behind the lock and gives a pass for each party. [`Turns::ask`] waits for the caller's
//! turn and makes one step of the value, which is one entry of the lock's history. A pass knows that history as far as
//! it has seen it, and which of the entries are its own. [`Turns::close`] takes all passes in and gives the value back,
//! which stands for the whole history.
//!
//! That a ticket is ever served is not claimed: `ask` may wait forever.
#![tactic(auto)]

mod kept;
pub mod sum;
mod table;
mod turns;
mod view;

pub use kept::{Entry, Kept, Stepped};
pub use no_memory::NoMemory;
pub use turns::{Answered, PartyPass, TurnPass, Turns};
