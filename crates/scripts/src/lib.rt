//! Scripts of requests: their run against the pools of a licence, by the rules of one options file or several.
#![tactic(auto)]

mod answers;
mod fault;
mod gathered;
mod histories;
mod laws;
mod making;
mod playing;
mod pool_run;
mod reporting;
mod routing;

pub use fault::PlayFault;
pub use laws::{lines_are_replies, scripts_are_lawful, scripts_are_pooled, scripts_are_runs};
pub use playing::play;
pub use reporting::report_script;
