//! Counters of a pool's seats: how many are charged to Open, how many to each RESERVE line, and how many are of clients
//! of whom each MAX line speaks. With them a decision costs a look at each line, however many seats there are.
#![tactic(auto)]

mod changes;
mod tally;

pub use tally::Counters;
