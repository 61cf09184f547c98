//! The list of the frequent sets, and fractions. The names of the crates below come with it: ranks
//! and coded baskets, itemsets, databases and minimums, sources and sinks, and the limit on the list.
//!
//! ```
//! for found in frequent.sets().iter(alloc) {
//!     let found = found?;
//!     writeln!(lines, "{:?}: {} of {total}", found.set.items(), found.count)?;
//! }
//! ```
#![tactic(auto)]

mod compare;
mod fraction;
mod frequent;
pub mod worked;

pub use basket_lists::{CountedSets, MOST_ITEMS};
pub use basket_ranks::{Coded, CodedItems, Codes, add_counts, deep, shard};
pub use basket_sets::{
    Counted, Database, INLINE_ITEMS, Itemset, Minimum, Share, Weighted, count_items, parse_minimum,
    parse_share, report_order, support,
};
pub use basket_stream::{Failed, MemSink, MemSource, Sink, Source, StdSink, StdSource};
pub use compare::compare_parts;
pub use fraction::Fraction;
pub use frequent::Frequent;
pub use mine_limit::{Limit, MineFault, Tally};
