//! What tests are given: baskets, and the plain miner that the other miners are compared with.
#![tactic(auto)]

mod given;
mod plain;
mod subset;

pub use given::{NINE_BASKETS, Row, database};
pub use plain::plain_sets;
pub use subset::subsets;
