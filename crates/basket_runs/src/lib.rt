//! Tests of whole runs: words and an input go in, and a report comes out.
#![tactic(auto)]

#[cfg(test)]
mod tests;
