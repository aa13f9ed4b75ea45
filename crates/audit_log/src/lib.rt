//! The log of a desk: the queue that its entries go through, and the lines of a log, written and read.
#![tactic(auto)]

mod ends;
mod laws;
mod queue;
mod reading;
mod reply_reading;
mod writing;

pub use laws::{logs_read_back, replies_read_back};
pub use queue::{ENTRY_LIMIT, LogPush, LogTake, QueueId, log_queue};
pub use reading::{Logged, is_summary, read_entry};
pub use writing::{write_entry, write_log, write_tally};
