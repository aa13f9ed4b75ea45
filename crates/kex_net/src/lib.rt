//! Nets that are valid by proof, for any number of parties from 2 to 256 and any number of licences from 1.
//!
//! A module makes one net each, after J. Anderson and M. Moir, Distributed Computing 11, 1997. `chains`: the chain of
//! stages. `trees`: the tree of stages. `gates`: the net behind the fast gate.
#![tactic(auto)]

mod chains;
mod gates;
mod laws;
mod stages;
mod trees;

pub use chains::chain;
pub use gates::gated;
pub use laws::{gates_are_short, trees_are_short};
pub use trees::tree;
