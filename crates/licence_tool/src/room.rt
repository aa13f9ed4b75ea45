/// Room for the longest line on standard error, in bytes.
pub const ROOM: usize = 96;
