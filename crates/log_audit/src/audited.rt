use crate::sums::Sums;
use options_machine::Reply;

/// What an audit of a log shows.
#[derive(Drop)]
pub enum Audited {
    /// The log is a run of the machine under the files, with these sums.
    Yes(Sums),
    /// The log is no run. This is the first line that shows it, and what holds in the place of its entry.
    No {
        /// The number of the line's first physical line in the file, from 1.
        line: u32,
        /// How many entries its pool had before.
        place: u64,
        /// The moment that the machine uses there, in seconds since 1970-01-01 UTC.
        moment: u64,
        /// The reply that the machine gives there.
        reply: Reply,
    },
}
