//! What is the same in the rule of every table whose passes one maker deals: whose view a seat has, and sums over all
//! views.
//!
//! The ticket lock, the stages of the k-assignment and its fast gate have each such a table.
#![tactic(auto)]

mod role;

pub use role::Role;
