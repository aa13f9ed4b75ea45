//! The daemon's run: posts for its workers, the workers in threads, and the close of the office.
//!
//! [`serve`] is the whole of it, over any site: [`post_all`], [`run`] with the auditor of the logs beside it,
//! [`give_back`] and the office's close, one after another.
#![tactic(auto)]

mod auditing;
mod ended;
mod giving;
mod posting;
mod running;
mod serving;
mod whole;
mod worker;

pub use ended::Ended;
pub use giving::give_back;
pub use posting::post_all;
pub use running::run;
pub use serving::serve_all;
pub use whole::serve;
pub use worker::Worker;
