//! Some of the prefixes of sets.
ghost use Rattle.std.specs.Prelude.{◌≡◌, ◌≤◌};

/// Prefixes in a row, from one index up to another.
#[derive(Clone, Copy)]
pub struct PrefixRange {
    pub start: usize,
    pub end: usize,
    ghost ordered: { start ≤ end },
}

impl PrefixRange {
    /// The prefixes from `start` up to `end`.
    pub fn new(start: usize, end: usize) -> Self
        requires { start ≤ end }
        ensures { (result.start ≡ start) × (result.end ≡ end) }
    {
        PrefixRange { start, end }
    }
}
