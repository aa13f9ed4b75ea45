//! The rules of a pool, made of an options file (`DeskRules`); what a book of a pool's state must be able to tell and
//! to change (`Rows`), and the answers of the options machine over any such book (`step`, `glance`); and the plain
//! book, which keeps the state as lists (`PlainBook`). The words of replies and the sides of a desk are passed on from
//! the crates below.
#![tactic(auto)]

mod anew;
mod answers;
mod change;
mod chosen;
mod limits;
mod lists;
mod matching;
mod members;
mod plain;
mod rows;
mod rules;
mod selection;

pub use answers::{glance, step};
pub use counter::{Asked, Counter, Glance};
pub use limits::{LentLimit, Limits};
pub use options_machine::{
    Charge, Cut, Entry, Holder, Kind, Limit, Lingerer, Queuer, Reply, Request,
};
pub use plain::PlainBook;
pub use reply_words::reply_words;
pub use rows::Rows;
pub use rules::{DeskRules, are_sets, cuts_at};
