//! The indexes of each rank in baskets that follow one another.
ghost use Rattle.std.specs.Prelude.{◌≡◌, ◌≤◌, ◌<◌, [], ◌∷◌, IfOk};
ghost use Rattle.basket_sets.specs.Support.{support_of};
ghost use Rattle.mine_baskets.specs.Baskets.{baskets_in};
ghost use Rattle.mine_baskets.specs.ListBaskets.{AreRankBaskets, HaveSameWeights};
ghost use Rattle.mine_baskets.specs.Span.{baskets_at};
ghost use Rattle.mine_pairs.specs.Pairs.{pairs_of};
ghost use Rattle.mine_pairs.specs.Runs.{ArePairsOf, HaveRunsFrom, below, lists_in};

use crate::rank_range::RankRange;
use crate::rank_runs::runs_of_range;
use crate::sums::Sums;
use mine_baskets::{Baskets, ListBaskets, Span};
use std::alloc::{AllocError, Global};
use std::marker::Model;

/// Baskets of ranks that follow one another, and the runs of each rank in them. A run is an
/// occurrence of the rank after some others: the ranks before it are its path, and its weight is
/// that of the neighbours that share the path and the rank. If baskets with a common prefix are
/// neighbours, a run is a node of their prefix tree (Han, Pei and Yin 2000).
pub struct Runs {
    count: u32,
    ranks: Vec<u32>,
    baskets: Vec<Span>,
    /// The runs of each rank.
    of: Vec<Vec<Span>>,
    /// The frequent pairs of each rank by a least support, or of none.
    pairs: Vec<Vec<(u32, u64)>>,
    least: u64,
}

impl Drop for Runs {
    fn drop(self) {
        let Runs {
            count: _,
            ranks: _,
            baskets: _,
            of: _,
            pairs: _,
            least: _,
        } = self;
    }
}

impl Model for Runs {
    ghost use Rattle.mine_baskets.specs.ListBaskets.{RankBaskets, AreRankBaskets};
    ghost use Rattle.mine_pairs.specs.Runs.{ArePairsOf, HaveRunsFrom, lists_in};
    ghost use Rattle.mine_baskets.specs.Span.{baskets_at};

    ghost Value = { RankBaskets };

    ghost view = { λ r. record { ranks = r.count; baskets = baskets_at r.ranks.items r.baskets.items } };

    ghost invariant = { λ r. AreRankBaskets (record { ranks = r.count; baskets = baskets_at r.ranks.items r.baskets.items })
        × HaveRunsFrom 0 r.count r.ranks.items (baskets_at r.ranks.items r.baskets.items) (lists_in r.of.items)
        × ArePairsOf (baskets_at r.ranks.items r.baskets.items) r.least r.pairs.items };
}

impl Runs {
    /// The runs of the baskets.
    pub fn of(alloc: Global, lists: ListBaskets) -> Result<Self, AllocError>
        ensures { IfOk result (λ runs. runs ≡ lists) }
    {
        let (count, ranks, baskets) = lists.into_parts();
        let all = Baskets {
            count,
            ranks: &ranks,
            spans: &baskets,
        };
        let of = runs_of_range(alloc, all, RankRange { first: 0, count })?;
        Ok(Runs::with(alloc, count, ranks, baskets, of))
    }

    /// The runs of baskets of this many ranks, which are parts of a list of ranks: these runs.
    pub fn with(
        alloc: Global,
        count: u32,
        ranks: Vec<u32>,
        baskets: Vec<Span>,
        of: Vec<Vec<Span>>,
    ) -> Self
        requires ranked { AreRankBaskets (record { ranks = count; baskets = baskets_at ranks.items baskets.items }) }
        requires runs { HaveRunsFrom 0 count ranks.items (baskets_at ranks.items baskets.items) (lists_in of.items) }
        ensures { result ≡ record { ranks = count; baskets = baskets_at ranks.items baskets.items } }
    {
        Runs {
            count,
            ranks,
            baskets,
            of,
            pairs: Vec::new(alloc),
            least: 0,
        }
    }

    /// Keeps the frequent pairs of each rank by a least support, which then need not be summed.
    pub fn keep_pairs(&mut self, pairs: Vec<Vec<(u32, u64)>>, least: u64)
        requires { ArePairsOf self.old.baskets least pairs.items }
        ensures { self.new ≡ self.old }
    {
        self.pairs = pairs;
        self.least = least;
    }
}

impl Runs {
    /// How many ranks there are.
    pub fn ranks(&self) -> u32
        ensures { result ≡ self.now.ranks }
    {
        self.count
    }

    /// The baskets that have a rank, kept to the ranks below it: the paths of its runs.
    pub fn of_rank(&self, rank: u32) -> Baskets<'_>
        requires { rank < self.now.ranks }
        ensures count { result.count ≡ rank }
        ensures weights { HaveSameWeights (below rank self.now.baskets) (baskets_in result) }
        ensures ranked { AreRankBaskets self.now }
    {
        Baskets {
            count: rank,
            ranks: &self.ranks,
            spans: &self.of[rank as usize],
        }
    }

    /// The support of a rank, which is the weight of its runs.
    #[tactic(auto, using(std::proofs::lemmas::Grind::common_steps, std::proofs::lemmas::List::take_all, crate::proofs::theory::Sums::weights_of, crate::proofs::theory::Sums::paths_weigh))]
    pub fn support(&self, rank: u32) -> u64
        requires { rank < self.now.ranks }
        ensures { result ≡ support_of self.now.baskets (rank ∷ []) }
    {
        let paths = self.of_rank(rank);
        let mut support = 0;
        for run in paths.spans {
            support += run.weight;
        }
        support
    }

    /// The ranks below the rank that are frequent together with it, by a least support, each with
    /// the support of the pair. If they aren't kept, only the runs of the rank are looked at.
    pub fn pairs(
        &self,
        alloc: Global,
        sums: &mut Sums,
        rank: u32,
        least: u64,
    ) -> Result<Vec<(u32, u64)>, AllocError>
        requires rank { rank < self.now.ranks }
        requires sums { self.now.ranks ≤ sums.old }
        ensures pairs { IfOk result (λ pairs. pairs.items ≡ pairs_of self.now.baskets least rank) }
        ensures sums { sums.new ≡ sums.old }
    {
        match self.pairs.get(rank as usize) {
            Some(pairs) if self.least == least => pairs.to_vec(alloc),
            _ => sums.of_baskets(alloc, self.of_rank(rank), least),
        }
    }
}
