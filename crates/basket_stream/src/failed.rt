use thiserror::Error;

/// A reader or a writer failed.
#[derive(Clone, Copy, Debug, PartialEq, Eq, Error)]
#[error("a reader or a writer failed")]
pub struct Failed;
