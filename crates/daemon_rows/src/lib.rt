//! Whole trials and the whole daemon over a site in memory: rows, as tests, and the gates that they need.
#![tactic(auto)]

mod gates;

pub use gates::{CountGate, HoldGate, Meeting};

#[cfg(test)]
mod tests;
