//! The desks of all pools of a licence, one for each pool, and the passes of the parties that come to them.
//!
//! [`Office::make`] makes the desks with their logs, and deals each party one pass of each desk;
//! [`Office::close_with_log`] takes all passes and the logs in, and tells the numbers and the log of each desk. Between
//! the two, sessions see the pools with their desks ([`Office::view`]), while one thread may take entries out of the
//! logs ([`OfficeLogs::take_round`]).
#![tactic(auto)]

mod closing;
mod dealing;
mod logs;
mod making;
mod office;

pub use closing::OfficeEnd;
pub use logs::OfficeLogs;
pub use office::{Office, OfficePass};
