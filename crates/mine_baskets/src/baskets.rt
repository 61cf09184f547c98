//! Baskets of ranks, borrowed.
ghost use Rattle.std.specs.Prelude.{All, length};
ghost use Rattle.std.proofs.Props.{props};
ghost use Rattle.mine_baskets.specs.ListBaskets.{AreRankBaskets};
ghost use Rattle.mine_baskets.specs.Span.{IsWithin, baskets_at};

use crate::span::Span;

/// The ends of this many baskets are read ahead.
pub const BASKETS_AHEAD: usize = 16;

/// Baskets of ranks below `count`: each is a part of a list of ranks.
#[derive(Clone, Copy)]
pub struct Baskets<'a> {
    pub count: u32,
    pub ranks: &'a [u32],
    pub spans: &'a [Span],
    ghost within: { All (IsWithin (length ranks.now)) spans.now },
    ghost ranked: { AreRankBaskets (record { ranks = count; baskets = baskets_at ranks.now spans.now }) } by { Prim.hlevel props },
}

impl<'a> Baskets<'a> {
    ghost use Rattle.std.specs.Prelude.{◌≡◌, ◌<◌, [], slice_index_or};
    ghost use Rattle.basket_sets.specs.Database.{weighted};
    ghost use Rattle.mine_baskets.specs.Baskets.{baskets_in};
    ghost use Rattle.mine_baskets.specs.ListBaskets.{IsRankBasket};

    /// How many baskets there are.
    #[inline(always)]
    pub fn len(self) -> usize
        ensures { result ≡ length (baskets_in self.entry) }
    {
        self.spans.len()
    }

    /// The ranks of a basket and its weight.
    #[inline(always)]
    pub fn at(self, index: usize) -> (&'a [u32], u64)
        requires { index < length (baskets_in self) }
        ensures basket { weighted result.0.now result.1 ≡ slice_index_or (baskets_in self.entry) index (weighted [] 0) }
        ensures ranked { IsRankBasket self.entry.count (weighted result.0.now result.1) }
    {
        let span = self.spans[index];
        (span.of(self.ranks), span.weight)
    }

    /// The greater of the ranks at the ends of each of the next baskets, from the one at an index on.
    /// These lie far apart, and such reads don't wait for one another.
    pub fn read_ahead(self, first: usize) -> [u32; BASKETS_AHEAD] {
        let mut end_ranks = [0u32; BASKETS_AHEAD];
        let next = self.spans.get(first..).unwrap_or(&[]);
        for (rank, basket) in end_ranks.iter_mut().zip(next) {
            *rank = self.rank_at(basket.start).max(self.rank_at(basket.end));
        }
        end_ranks
    }

    /// The rank at an index of the list, or 0 if there is none.
    fn rank_at(self, index: u32) -> u32 {
        self.ranks.get(index as usize).copied().unwrap_or(0)
    }
}
