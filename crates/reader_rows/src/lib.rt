//! What is read of lines, words and scripts, and how names and days are printed, as tests.
#![tactic(auto)]

#[cfg(test)]
mod tests;
