//! The lock, the log, the board and the desk that keeps all three: by rows, and with threads, as tests.
#![tactic(auto)]

#[cfg(test)]
mod tests;
