//! Nets, their machine, tables of running words, and seats with a gate and without in use: some steps by hand, and
//! threads that come and go, as tests.
#![tactic(auto)]

#[cfg(test)]
mod tests;
