//! A count for each pair of ranks whose greater rank is in a range.
ghost use Rattle.std.specs.Prelude.{◌≡◌, ◌<◌, ◌≤◌, ◌+◌, ◌-◌, ◌*◌, ◌/◌, ℕ, [], IfOk, length, map, slice_index};
ghost use Rattle.basket_sets.specs.Counts.{AllBelow};
ghost use Rattle.basket_sets.specs.Database.{MOST_WEIGHT};
ghost use Rattle.basket_sets.specs.Itemset.{IsRising};
ghost use Rattle.mine_pairs.specs.Pairs.{lists_of};
ghost use Rattle.mine_pairs.specs.Sums.{WithBasket};
ghost use Rattle.mine_pairs.specs.Triangle.{HaveCounts, HaveRows, WithPairs, pairs_in_range, ranks_in, row_at, zeros};

use crate::rank_range::RankRange;
use crate::ranked::RankedBaskets;
use crate::sums::met_in_order;
use std::alloc::{AllocError, Global};

/// How many pairs this many ranks make.
pub fn pair_count(ranks: u32) -> usize
    ensures number { result ≡ ranks * (ranks - 1) / 2 }
{
    let ranks = ranks as usize;
    ranks * ranks.saturating_sub(1) / 2
}

/// For each rank of a range the ranks below it that are frequent together with it, by a least
/// support, rising, each with the support of the pair.
pub fn pairs_of_range<B: RankedBaskets>(
    alloc: Global,
    baskets: &B,
    range: RankRange,
    least: u64,
) -> Result<Vec<Vec<(u32, u64)>>, AllocError>
    ensures { IfOk result (λ lists. lists_of lists.items ≡ pairs_in_range (B.baskets baskets.now) least range) }
{
    let mut rows = no_counts(alloc, range)?;
    count_pairs(&mut rows, range.first, baskets);
    let mut lists = Vec::with_capacity(alloc, rows.len())?;
    for row in &rows {
        lists.push(met_in_order(alloc, row, least)?)?;
    }
    Ok(lists)
}

/// A row for each rank of a range, which has a count of 0 for each lesser rank.
#[tactic(auto, using(std::proofs::lemmas::Grind::common_steps, crate::proofs::theory::PairSums::lists_pushed))]
fn no_counts(alloc: Global, range: RankRange) -> Result<Vec<Vec<u64>>, AllocError>
    ensures { IfOk result (λ rows. lists_of rows.items ≡ map zeros (ranks_in range)) }
{
    let mut rows = Vec::with_capacity(alloc, range.count as usize)?;
    for number in 0..range.count {
        rows.push(vec![in alloc; 0; (range.first + number) as usize]?)?;
    }
    Ok(rows)
}

/// Counts the pairs of ranks of some baskets whose greater ranks have rows, from a first one on.
fn count_pairs<B: RankedBaskets>(rows: &mut [Vec<u64>], first: u32, baskets: &B)
    requires { HaveCounts [] first (lists_of rows.old) }
    ensures { HaveCounts (B.baskets baskets.now) first (lists_of rows.new) }
{
    for index in 0..baskets.basket_count() {
        let (ranks, weight) = baskets.basket_at(index);
        count_basket(rows, first, ranks, weight);
    }
}

/// Adds a weight for each pair of ranks of a basket whose greater rank has a row. The ranks rise, so
/// the first one past the rows is the end.
fn count_basket(rows: &mut [Vec<u64>], first: u32, ranks: &[u32], weight: u64)
    requires rises { IsRising ranks.now }
    requires rows { HaveRows first (lists_of rows.old) }
    requires light { (k lesser : ℕ) → k < length rows.old → lesser < first + k → slice_index (row_at (lists_of rows.old) k) lesser + weight ≤ MOST_WEIGHT }
    ensures { WithPairs first ranks.now ranks.now weight (lists_of rows.old) (lists_of rows.new) }
{
    for (index, rank) in ranks.iter().enumerate() {
        if *rank < first {
            continue;
        }
        let row = (*rank - first) as usize;
        if row >= rows.len() {
            break;
        }
        count_below(&mut rows[row], &ranks[..index], weight);
    }
}

/// Adds a weight at each of the ranks.
fn count_below(row: &mut [u64], ranks: &[u32], weight: u64)
    requires rises { IsRising ranks.now }
    requires below { AllBelow (length row.old) ranks.now }
    requires light { (rank : ℕ) → rank < length row.old → slice_index row.old rank + weight ≤ MOST_WEIGHT }
    ensures { WithBasket ranks.now weight row.old row.new }
{
    for rank in ranks {
        let count = &mut row[*rank as usize];
        *count += weight;
    }
}
