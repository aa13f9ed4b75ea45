//! The limits that many crates keep to. All are this project's own.

/// Moments and spans of time are below it, in seconds (moments since 1970-01-01 UTC).
pub const MOMENT_END: u64 = 1 << 40;

/// The most parties that a pool has. They are numbered from 0.
pub const PARTY_LIMIT: u32 = 256;

/// The most seats of a pool that linger at once.
pub const LINGER_LIMIT: u32 = 4096;

/// The most licences that a pool has.
pub const LICENCE_LIMIT: u32 = 65_535;
