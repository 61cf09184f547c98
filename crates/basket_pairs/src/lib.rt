//! A table as two columns: the id of a basket and an item of it, which `--form single` reads. What
//! is done to the table is a `Recipe`, which the command's options name.
//!
//! ```
//! match write_pairs(rt.alloc(), &bytes, recipe, rt.stdout()) {
//!     Ok(()) => 0,
//!     Err(PairsFault::Memory) => explain(rt, NO_MEMORY, 6),
//! ```
#![tactic(auto)]

mod cell;
mod columns;
mod encoding;
mod fault;
mod fields;
mod pairs;
mod recipe;
mod records;
mod words;
mod writer;

pub use cell::{day_of, is_no, is_null, names_within, without_count};
pub use encoding::{ENCODINGS, Encoding};
pub use fault::PairsFault;
pub use fields::{Fields, separator_of, word_of};
pub use pairs::{TakesPairs, pairs_of};
pub use recipe::{Key, Recipe, Span};
pub use records::Records;
pub use words::{HELP as PAIRS_HELP, Pairs, pairs_asked};
pub use writer::write_pairs;
