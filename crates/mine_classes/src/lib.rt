//! Classes, and the laws that join the miners of classes to the list of the frequent sets.
//!
//! The class of a rank is the frequent sets whose greatest rank it is, and its conditional database
//! is what a miner needs to find them.
#![tactic(auto)]

pub mod laws;
pub mod worked;
