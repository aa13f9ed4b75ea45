use lic_types::{Day, Name};

/// A slip that the readers of the licence and of the options file accept. `line` is its physical line, from 1: that of
/// the options file, and at `Expires` that of the licence. Which slips are told of is this project's own.
#[derive(Clone, Copy, Debug, PartialEq, Eq)]
pub enum Advice {
    /// No rule of the file names the group that the line lists.
    NoRule {
        line: u32,
        /// Whether it is a HOST_GROUP line.
        of_hosts: bool,
        /// The name of the group.
        name: Name,
    },
    /// No pool of the licence has the feature of the line.
    NoPool {
        line: u32,
        /// The feature.
        feature: Name,
    },
    /// The RESERVE line is cut.
    Cut {
        line: u32,
        /// The number of the pool that cuts it, from 0.
        pool: usize,
        /// How many licences it keeps there.
        to: u32,
    },
    /// The MAX line denies nobody: no pool of its feature has more licences than it allows.
    IdleMax {
        line: u32,
        /// How many licences it allows.
        number: u32,
    },
    /// Those of whom the line of a feature speaks get no licence of any feature.
    ShutOut {
        line: u32,
        /// The first EXCLUDEALL line of the same type and name.
        by: u32,
    },
    /// The LINGER or TIMEOUT line is never read, since an earlier one of the same feature holds.
    NeverRead {
        line: u32,
        /// The line that holds.
        first: u32,
    },
    /// The TIMEOUT line has fewer than 900 seconds, which count as 900.
    ShortTimeout {
        line: u32,
        /// The seconds that it has.
        seconds: u64,
    },
    /// The pool whose first line this is expires by the horizon, or has expired before.
    Expires {
        line: u32,
        /// Its feature.
        name: Name,
        /// The last day on which it is good.
        day: Day,
    },
}

/// By when a pool expires that is told of: so many days behind a day, or earlier.
#[derive(Clone, Copy, Debug, PartialEq, Eq)]
pub struct Horizon {
    /// The day.
    pub on: Day,
    /// How many days are added to it.
    pub days: u32,
}
