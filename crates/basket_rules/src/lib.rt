//! Closed and maximal sets and association rules, from the list of the frequent sets.
//!
//! ```
//! let confidence = Share::new(7, 10).unwrap();
//! for rule in &rules(alloc, frequent, confidence)? {
//!     let (antecedent, consequent) = (rule.antecedent.items(), rule.consequent.items());
//!     writeln!(
//!         lines,
//!         "{antecedent:?} => {consequent:?}: {}",
//!         rule.confidence
//!     )?;
//! }
//! ```
#![tactic(auto)]

mod association;
mod condensed;
mod confident;
mod consequents;
mod covered;
mod hashes;
pub mod laws;
mod listed;
mod query;
mod rule_counts;
mod search;
mod set_index;
mod shared;
mod supports;
pub mod worked;

pub use association::{Rule, met_rules, rules, rules_with};
pub use condensed::{closed, closed_shared, maximal, maximal_shared};
pub use confident::ConfidentRule;
pub use consequents::Sides;
pub use rule_counts::RuleCounts;
pub use set_index::{SetIndex, index_table_of};
