//! What an input says, a report before it is written, and the outcome of a question by definition:
//! the text of its report, or its fault.
//!
//! ```
//! let names = Names::none(alloc);
//! match Contents::read(rt, alloc, plan.layout(), names, plan.workers(), reader) {
//!     Ok(contents) => report_contents(rt, alloc, contents, plan),
//!     Err(fault) => Err(RunFault::Input(fault)),
//! }
//! ```
#![tactic(auto)]

mod asked;
mod contents;
mod counted;
mod fault;
mod prepared;
pub mod worked;

pub use asked::read_asked;
pub use contents::{Contents, style_of};
pub use counted::{listing, report_listing};
pub use fault::{RunFault, status_of};
pub use prepared::PreparedReport;
