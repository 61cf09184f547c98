//! Lines of advice for a person at a terminal, made of what a run tells and of nothing else. No more
//! is proved of these functions than that they are safe and end.
//!
//! ```
//! let advice = match ending {
//!     Ending::Refused(PlanFault::Usage(text)) => words_advice(rt.alloc(), text.as_str(), words),
//!     Ending::Ran(invocation, Ok(done)) => {
//!         report_advice(rt.alloc(), invocation, done.greatest, told)
//!     }
//!     Ending::Ran(invocation, Err(fault)) => fault_advice(rt.alloc(), invocation, *fault, told),
//!     Ending::NotOpened(origin, error) if error.kind() == ErrorKind::FileTooLarge => {
//!         too_long_advice(rt.alloc(), origin.path())
//!     }
//!     Ending::Unanswered(_) => unwritten_advice(rt.alloc(), told),
//!     _ => return,
//! };
//! ```
#![tactic(auto)]

mod decimal;
mod fault;
mod hints;
mod place;
mod run;
mod words;

pub use run::{Told, fault_advice, report_advice, too_long_advice, unwritten_advice};
pub use words::words_advice;
