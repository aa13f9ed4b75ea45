//! The fast gate before the seats: a session that meets few others goes past the tree.
//!
//! [`GatedSeats::make`] gives a pass for each session. A session enters by [`GatedSeats::begin`], by
//! [`GatedSeats::turn`] until it is through the stages, and by [`GatedSeats::name`]; [`GatedSeats::enter`] is all of
//! these, and may wait. [`GatedSeats::leave`] gives the seat back.
//!
//! The gate lets at most m sessions through at a time, m being the number of seats. Each of these gets one of the m
//! passes n to n+m-1 of the seats, whose paths have m stages; they lie in slots of the gate's own table while nobody
//! has them. Every other session uses its own pass. So whoever has a hold has one of the same seats.
#![tactic(auto)]

mod closing;
mod gate;
mod gated;
mod laws;
mod making;
mod passes;
mod steps;
mod view;

pub use gated::GatedSeats;
pub use laws::{gates_let_few_through, steps_keep_the_rule};
pub use passes::{GateEntering, GateHold, GateOut, GateThrough, GateTurn};
