//! The words of the machine's replies, written into a room of bytes.
//!
//! The words are this project's own.
#![tactic(auto)]

mod words;

pub use words::{put_charge, put_reply, reply_words};
