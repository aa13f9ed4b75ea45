//! A stored log, checked and summed apart from the daemon: whether it is a run of the machine under the files, and else
//! the first line that shows it is not.
#![tactic(auto)]

mod audited;
mod auditing;
mod day_sum;
mod days;
mod desk;
mod fault;
mod judging;
mod log;
mod making;
mod sums;
mod users;

pub use audited::Audited;
pub use auditing::{audit, audit_entries};
pub use day_sum::DaySum;
pub use fault::AuditFault;
pub use log::{Numbered, read_log};
pub use sums::Sums;
pub use users::UserSum;
