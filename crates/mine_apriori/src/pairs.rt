//! The frequent pairs of ranks, by the lesser one.
ghost use Rattle.std.specs.Prelude.{◌≡◌, IfOk, map};
ghost use Rattle.basket_ranks.specs.Codes.{IsCoding};
ghost use Rattle.basket_sets.specs.Order.{IsInReportOrder};
ghost use Rattle.basket_sets.specs.Support.{support_of};
ghost use Rattle.mine_supports.specs.Extensions.{AreGrouped, sets_of};
ghost use Rattle.mine_apriori.specs.Levels.{level_of};
ghost use Rattle.mine_supports.specs.Sizes.{AreOfSize};
ghost use Rattle.mine_pairs.specs.Pairs.{ArePairs, lists_of};

use basket_core::Coded;
use mine_supports::Extensions;
use std::alloc::{AllocError, Global};

/// Two ranks, the lesser one first, and the support of the pair.
#[derive(Drop)]
pub struct Pair {
    pub ranks: [u32; 2],
    pub count: u64,
}

/// The pairs of each rank with lesser ones, in lexicographic order.
#[tactic(auto, using(crate::proofs::PairLemmas::pairs_long))]
pub fn sorted_pairs(
    alloc: Global,
    coded: &Coded,
    lists: &[Vec<(u32, u64)>],
) -> Result<Vec<Pair>, AllocError>
    requires coding { IsCoding coded.now }
    requires pairs { ArePairs coded.now (lists_of lists.now) }
    ensures ranks { IfOk result (λ pairs. map (λ pair. pair.ranks) pairs.items ≡ level_of coded.now 2) }
    ensures counts { IfOk result (λ pairs. map (λ pair. pair.count) pairs.items ≡ map (support_of coded.now.baskets) (level_of coded.now 2)) }
{
    let mut pairs = Vec::new(alloc);
    for (rank, list) in lists.iter().enumerate() {
        for (lesser, count) in list {
            let ranks = [*lesser, rank as u32];
            pairs.push(Pair {
                ranks,
                count: *count,
            })?;
        }
    }
    pairs.sort_unstable_by(|pair, other| pair.ranks.cmp(&other.ranks));
    Ok(pairs)
}

/// The pairs as sets, those of each lesser rank together, and their counts.
#[tactic(auto, using(mine_supports::proofs::theory::Grouped::one_rises))]
pub fn pair_sets(alloc: Global, pairs: &[Pair]) -> Result<(Extensions, Vec<u64>), AllocError>
    requires two { AreOfSize 2 (map (λ pair. pair.ranks) pairs.now) }
    requires in_order { IsInReportOrder (map (λ pair. pair.ranks) pairs.now) }
    ensures sets { IfOk result (λ found. sets_of found.0 ≡ map (λ pair. pair.ranks) pairs.now) }
    ensures grouped { IfOk result (λ found. AreGrouped found.0) }
    ensures counts { IfOk result (λ found. found.1.items ≡ map (λ pair. pair.count) pairs.now) }
{
    let mut found = Extensions::new(alloc);
    let mut counts = Vec::with_capacity(alloc, pairs.len())?;
    let mut lesser = 0;
    let mut greater = Vec::new(alloc);
    for pair in pairs {
        let [first, second] = pair.ranks;
        if first != lesser {
            found = found.with_items(alloc, &[lesser], &greater)?;
            lesser = first;
            greater.clear();
        }
        greater.push(second)?;
        counts.push(pair.count)?;
    }
    Ok((found.with_items(alloc, &[lesser], &greater)?, counts))
}
