//! The seats of a desk: those of a net as they are, or those behind a fast gate.
//!
//! [`DeskSeats::make`] and [`DeskSeats::make_gated`] give a pass for each party. A party enters by
//! [`DeskSeats::begin`], by [`DeskSeats::turn`] until it is through the stages, and by [`DeskSeats::name`];
//! [`DeskSeats::go_on`] does what is left of them after any turn, and may wait. [`DeskSeats::leave`] gives the seat
//! back. At the end [`DeskSeats::gather`] takes all passes in, and [`DeskSeats::close_gathered`] gives the cards back.
//!
//! A pass is of the seats that it was made with: each call has that as its condition. So with no gate a call has the
//! passes of the net, and behind a gate those of the gate's sessions.
#![tactic(auto)]

mod closing;
mod gathering;
mod making;
mod passes;
mod seats;
mod turns;
mod waiting;

pub use gathering::SeatGathering;
pub use passes::{SeatEntering, SeatHold, SeatOut, SeatThrough};
pub use seats::DeskSeats;
pub use turns::SeatTurn;
