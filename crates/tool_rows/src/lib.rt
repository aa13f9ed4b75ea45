//! The offline commands where words, files and writes fail, and the files and sinks that they have, as tests.
#![tactic(auto)]

#[cfg(test)]
mod tests;
