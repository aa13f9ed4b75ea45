//! Whole sessions at an office of several pools in memory and whole daemons, and the sockets and written logs that a
//! daemon has, as tests.
#![tactic(auto)]

#[cfg(test)]
mod tests;
