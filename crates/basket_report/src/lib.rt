//! The bytes of a report: a line of numbers for each set or rule, or a CSV record of names.
//!
//! ```
//! match style {
//!     Style::Numbers => {
//!         let lines = SetLines::new(alloc, &sets, workers)?;
//!         Ok(PreparedReport::Sets(sets, lines))
//!     }
//!     Style::Names { .. } => Ok(PreparedReport::Text(sets_report(alloc, &sets, style)?)),
//! }
//! ```
#![tactic(auto)]

mod buffer;
mod bytes;
mod count_text;
mod count_texts;
mod item_text;
mod items;
mod lines;
mod ratios;
mod report;
mod report_size;
mod room;
mod rules;
mod set_lines;
mod sets;
mod style;
mod table;
mod texts;

pub use bytes::{write_bytes, write_texts};
pub use items::items_report;
pub use rules::rules_report;
pub use set_lines::SetLines;
pub use sets::sets_report;
pub use style::Style;
