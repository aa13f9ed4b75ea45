//! The k-assignment on running words: each step call is one atomic access to one shared word.
//!
//! [`KexTable::make`] lays out the words of a net and gives a pass for each party. A pass is of one type for each kind
//! of place, so a party can only make an access of the kind that is due. [`KexTable::close`] takes all passes in and
//! gives the cards back, each with the number of its uses.
//!
//! At each moment between two accesses the words and the passes, read off, are a world of `kex_core` that meets its
//! invariant. So what is proved there of every schedule holds of running threads.
//!
//! That a waiting party ever passes is not claimed.
#![tactic(auto)]

mod card;
mod closing;
mod laws;
mod laying;
mod passes;
mod table;
mod view;
mod words;

pub use card::Card;
pub use closing::Gathering;
pub use laws::{accesses_are_moves, calls_are_moves, tables_are_safe};
pub use passes::{Back, Entering, Hold, Leaving, Named, Naming, Next, Out};
pub use words::KexTable;
