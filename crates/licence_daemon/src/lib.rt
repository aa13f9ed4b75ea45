//! The words of `serve` and `trial-threads`, and the top call of the floating licence daemon.
//!
//! [`licenced`] runs what the words of a command line ask for, over any files, sinks and site, and ends with a
//! [`DaemonStatus`]: a `serve`, which [`read_serve`] reads; a `trial-threads`, which [`read_trial`] reads; or a command of
//! the offline tools.
#![tactic(auto)]

mod daemon;
mod program;
mod reading;
mod serve_words;
mod status;
mod terms;
mod trial;
mod trial_words;

pub use program::licenced;
pub use serve_words::{ServeNames, read_serve};
pub use status::DaemonStatus;
pub use trial_words::{TrialNumbers, read_trial};
