//! The law of streams.
ghost use Rattle.line_protocol.specs.Streams.{OneReading};

/// A stream has one reading: however it is cut into pieces, its lines and its rest are the same.
#[tactic(auto, using(crate::proofs::Streams::one))]
pub fn one_reading()
    ensures { OneReading }
{}
