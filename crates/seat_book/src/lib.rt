//! The book of one pool by rows: the options machine, with steps whose time doesn't grow with the number of seats but
//! by a logarithm, apart from the search for a client's own lingering seat. It answers as the plain book does.
#![tactic(auto)]

mod book;
mod charging;
mod deciding;
mod lapsing;
mod members;
mod parts;
mod serving;

pub use book::Book;
