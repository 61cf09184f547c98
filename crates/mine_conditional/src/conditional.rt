//! The conditional database of a rank.
ghost use Rattle.std.specs.Prelude.{◌≡◌, ◌≤◌, ◌<◌, IfOk, map};
ghost use Rattle.mine_baskets.specs.ListBaskets.{AreRankBaskets, HaveSameWeights};
ghost use Rattle.mine_conditional.specs.Conditional.{conditional_baskets};
ghost use Rattle.mine_pairs.specs.Pairs.{pairs_of};
ghost use Rattle.mine_conditional.specs.Paths.{IsConditional};

use crate::few::below_few;
use crate::local_numbers::LocalNumbers;
use mine_baskets::{ListBaskets, WordBaskets};
use mine_pairs::Runs;
use std::alloc::{AllocError, Global};

/// The baskets that have a rank, kept to the ranks below it that are frequent together with it, by
/// a least support (Han, Pei and Yin 2000): words if at most 64 are kept, else lists. The ranks
/// that are kept are numbered anew, from 0 on, so that the baskets are baskets of ranks again.
#[derive(Drop)]
pub enum Conditional {
    Lists(ListBaskets),
    Words(WordBaskets),
}

impl Conditional {
    /// The same baskets as lists, equal ones merged, those whose weights have more bits first.
    pub fn merged(self, alloc: Global) -> Result<ListBaskets, AllocError>
        requires { AreRankBaskets (conditional_baskets self) }
        ensures ranks { IfOk result (λ merged. merged.ranks ≡ (conditional_baskets self).ranks) }
        ensures ranked { IfOk result AreRankBaskets }
        ensures weights { IfOk result (λ merged. HaveSameWeights (conditional_baskets self).baskets merged.baskets) }
    {
        let merged = match self {
            Conditional::Lists(lists) => lists.sorted(alloc)?,
            // Equal words are merged already.
            Conditional::Words(words) => words.lists(alloc)?,
        };
        Ok(merged.heavy_first())
    }

    /// That of a rank of the runs. The pairs are those of the rank by the same least support.
    pub fn below(
        runs: &Runs,
        alloc: Global,
        numbers: &mut LocalNumbers,
        rank: u32,
        least: u64,
        pairs: &[(u32, u64)],
    ) -> Result<Conditional, AllocError>
        requires rank { rank < runs.now.ranks }
        requires numbers { runs.now.ranks ≤ numbers.old }
        requires pairs { pairs.now ≡ pairs_of runs.now.baskets least rank }
        ensures below { IfOk result (λ below. IsConditional runs.now.baskets least rank (conditional_baskets below)) }
        ensures numbers { numbers.new ≡ numbers.old }
    {
        let paths = runs.of_rank(rank);
        if pairs.len() <= 1 {
            let below = below_few(alloc, runs.support(rank), pairs)?;
            return Ok(Conditional::Words(below));
        }
        let kept = ranks_of(alloc, pairs)?;
        let below = numbers.coded(alloc, &kept, paths)?;
        Ok(below)
    }
}

/// The ranks of some pairs.
pub fn ranks_of(alloc: Global, pairs: &[(u32, u64)]) -> Result<Vec<u32>, AllocError>
    ensures { IfOk result (λ ranks. ranks.items ≡ map (λ pair. pair.0) pairs.now) }
{
    pairs.iter().map(|pair| pair.0).collect(alloc)
}
