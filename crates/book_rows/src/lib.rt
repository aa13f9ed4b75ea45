//! The plain book; and the rows of the book by rows, its table of lingering seats and its clock. There are only tests
//! here.
#![tactic(auto)]

#[cfg(test)]
mod tests;
