//! The outside as the tools see it: files that are read whole and sinks that take bytes, each with a count of its
//! faults; both in memory for tests, and over the real system.
#![tactic(auto)]

mod asked;
mod files;
mod memory;
mod real;
mod sink;

pub use asked::Asked;
pub use files::{FileFault, Files};
pub use memory::{MemFile, MemFiles, MemSink};
pub use real::{RealFiles, RealSink, read_all, write_all};
pub use sink::{Sink, WriteFailed};
