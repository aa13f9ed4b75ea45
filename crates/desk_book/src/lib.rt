//! What a desk keeps behind its lock: the book, the log of its first entries, and the board that shows it.
//!
//! [`DeskBook`] is one value for [`turn_lock`]: each step of it is one entry, which the book answers, the log keeps if
//! it is one of the first 4,096, and the board shows. A history of the lock is so at once a run of the book, what the
//! log begins, and what the board's Glances stand for.
#![tactic(auto)]

mod book;
mod end;
mod logging;
mod making;
mod pass;

pub use book::{DeskBook, DeskLaw, NotedReply};
pub use end::{Closed, DeskLog, Keeper, close_book};
pub use making::lock_book;
pub use pass::BookPass;
