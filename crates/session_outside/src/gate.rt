//! The gate at which a test can hold a session.
use std::sync::Wait;

/// Where a session has come to.
#[derive(Clone, Copy, Debug, PartialEq, Eq)]
pub enum GatePlace {
    /// A line was taken.
    Line,
    /// The entry of a feature request was made, and its reply isn't written yet.
    Asked,
    /// A reply line was written.
    Written,
}

/// Where a test can hold a session.
pub trait Gate {
    /// The session has come to this place. It may wait.
    fn after<R: Wait>(&mut self, rt: &R, at: GatePlace);
}

/// A gate that holds nobody.
#[derive(Debug, Drop)]
pub struct NoGate;

impl Gate for NoGate {
    fn after<R: Wait>(&mut self, _rt: &R, _at: GatePlace) {}
}
