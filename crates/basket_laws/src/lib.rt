//! Laws on parts of a database that are counted apart and put together. Each is a function that does
//! nothing: its contract is the law.
#![tactic(auto)]

mod cuts;
mod names;
mod outcomes;
mod parts;
mod runs;
mod texts;
pub mod worked;

pub use cuts::cuts_are_parts;
pub use names::{named_parts_answer_as_the_whole, named_parts_are_parts};
pub use outcomes::parts_answer_as_the_whole;
pub use parts::{count_is_share, parts_make_the_whole, some_part_has_it};
pub use runs::runs_over_parts_agree;
pub use texts::{reports_are_read_back, texts_make_the_whole};
