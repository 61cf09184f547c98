//! Tests that cross crates.
#![tactic(auto)]

#[cfg(test)]
mod tests;
