//! The limits of a net. They are this project's own.

/// The most parties of a net.
pub const PARTY_LIMIT: u32 = 256;

/// The most stages of a net.
pub const STAGE_LIMIT: usize = 4096;
