//! FP-growth (Han, Pei and Yin 2000): the classes of coded baskets, each grown within conditional
//! databases, and read off if one is a single branch.
//!
//! ```
//! let forest = Forest::of(alloc, coded)?;
//! fp_class(alloc, &forest, rank, tally)
//! ```
#![tactic(auto)]

mod forest;
mod pattern_base;
mod tree;
mod trees;
pub mod worked;

pub use forest::{Forest, fp_class, fp_class_with};
pub use tree::FpTree;
