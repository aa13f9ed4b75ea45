//! Seats by number: at most as many parties hold one as the net is wide, and no two hold the same.
//!
//! [`Seats::make`] gives a pass for each party of a net. A party enters by [`Seats::begin`], by [`Seats::turn`] until
//! it is through the stages, and by [`Seats::name`], which gives it a seat with its card; [`Seats::enter`] is all of
//! these, and may wait; [`Seats::go_on`] does what is left of them after any turn. [`Seats::leave`] gives the seat
//! back.
//!
//! Every call but `enter` and `go_on` makes a bounded number of accesses to the shared words and waits for nobody. So a
//! party that stops, wherever it stands, keeps no other from making its own calls. That a waiting party ever comes
//! through is not claimed.
#![tactic(auto)]

mod seats;
mod turns;

pub use seats::Seats;
pub use turns::{Through, Turn};
