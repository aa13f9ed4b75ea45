//! The desk of a pool: its book of entries, and the seats that the entries grant.
//!
//! A party's call, `ask` of its pass as a [`counter::Counter`], makes one entry under the lock of the book and then
//! makes the party's seat agree with it: the seat is entered or left outside of the lock. Both halves are also calls of
//! their own, for who wants to look in between: [`Desk::enter_book`], and [`Desk::match_seat`] or step by step
//! [`Desk::turn_seat`]. [`Desk::close`] takes all passes in and tells the whole history.
//!
//! The seats are those of a net ([`Desk::make_many`]), or stand behind a fast gate ([`Desk::make_gated`]), where a
//! party that meets few others goes past the tree.
#![tactic(auto)]

mod closing;
mod counting;
mod desk;
mod making;
mod passes;
mod seating;

pub use closing::{DeskKeeper, DeskTally};
pub use desk::Desk;
pub use passes::{DeskPass, DeskState, Noted, Seating};
