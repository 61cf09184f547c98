//! Parts of a list of ranks.
ghost use Rattle.std.specs.Prelude.{◌≡◌, ◌≤◌, ◌+◌, IfOk, length};
ghost use Rattle.std.specs.List.{slice_range};
ghost use Rattle.basket_sets.specs.Database.{MOST_WEIGHT};
ghost use Rattle.mine_baskets.specs.Span.{IsWithin, span_front};

use std::alloc::AllocError;

/// A part of a list of ranks, from `start` up to `end`, which is a basket, and its weight.
#[derive(Clone, Copy, PartialEq, Eq)]
pub struct Span {
    pub start: u32,
    pub end: u32,
    pub weight: u64,
}

impl Span {
    /// The ranks of this part.
    pub fn of<'a>(&self, ranks: &'a [u32]) -> &'a [u32]
        requires { IsWithin (length ranks.now) self.now }
        ensures { result.now ≡ slice_range ranks.now self.now.start self.now.end }
    {
        &ranks[self.start as usize..self.end as usize]
    }

    /// The first ranks of this part, this many of them.
    pub fn first(&self, depth: u32) -> Span
        requires { self.now.start + depth ≤ self.now.end }
        ensures { result ≡ span_front self.now depth }
    {
        let end = self.start + depth;
        Span { end, ..*self }
    }

    /// Adds the weight of an equal neighbour.
    pub fn add_weight(&mut self, weight: u64)
        requires { self.old.weight + weight ≤ MOST_WEIGHT }
        ensures { self.new ≡ record { start = self.old.start; end = self.old.end; weight = self.old.weight + weight } }
    {
        self.weight += weight;
    }
}

/// An index in a list of ranks. More than 4,294,967,295 ranks count as out of memory.
pub fn as_index(len: usize) -> Result<u32, AllocError>
    ensures { IfOk result (λ index. index ≡ len) }
{
    if len > u32::MAX as usize {
        return Err(AllocError);
    }
    Ok(len as u32)
}
