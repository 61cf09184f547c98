//! The frequent pairs of ranks, without a list of all pairs.
ghost use Rattle.std.specs.Prelude.{◌≡◌, ◌<◌, ◌≤◌, ◌↔◌, ◌*◌, ◌/◌, ℕ, List, IfOk, IsTrue, length};
ghost use Rattle.basket_sets.specs.Support.{support_of};
ghost use Rattle.mine_pairs.specs.Pairs.{ArePairs, lists_of, pairs_by_greater};

use crate::rank_range::RankRange;
use crate::runs::Runs;
use crate::sums::Sums;
use crate::triangle::pairs_of_range;
use basket_ranks::{Coded, CodedItems};
use mine_baskets::ListBaskets;
use std::alloc::{AllocError, Global};

/// If merging equal baskets leaves no more than one of this many, most are equal to others.
const SHARED: usize = 4;

/// For each rank the ranks below it that are frequent together with it, rising, each with the
/// support of the pair. Time and memory follow the baskets and these pairs, however many ranks
/// there are.
pub fn frequent_pairs(alloc: Global, coded: &Coded) -> Result<Vec<Vec<(u32, u64)>>, AllocError>
    ensures { IfOk result (λ lists. ArePairs coded.now (lists_of lists.items)) }
{
    if is_small_triangle(coded.ranks(), coded.baskets().len()) {
        let range = RankRange {
            first: 0,
            count: coded.ranks(),
        };
        return pairs_of_range(alloc, coded, range, coded.coded_items().least_support());
    }
    let (runs, least) = runs_with_least(alloc, coded)?;
    pairs_by_runs(alloc, &runs, least)
}

/// The runs of the coded baskets, and the least support that a frequent pair of them has.
pub fn runs_with_least(alloc: Global, coded: &Coded) -> Result<(Runs, u64), AllocError>
    ensures { IfOk result (λ found. ArePairs coded.now (pairs_by_greater found.0.baskets found.1 found.0.ranks)) }
{
    let runs = Runs::of(alloc, ListBaskets::of_coded(alloc, coded)?)?;
    Ok((runs, coded.coded_items().least_support()))
}

/// The runs of the coded baskets, which keep the frequent pairs of each rank, or none if none are
/// given.
#[tactic(auto, using(std::proofs::lemmas::Grind::common_steps, crate::proofs::theory::PairSums::pairs_for))]
pub fn runs_keeping(coded: &CodedItems, mut runs: Runs, pairs: Vec<Vec<(u32, u64)>>) -> Runs
    requires supports { (set : List ℕ) → support_of runs.baskets set ≡ support_of coded.now.baskets set }
    requires pairs { 0 < length pairs.items → ArePairs coded.now (lists_of pairs.items) }
    ensures { result ≡ runs }
{
    runs.keep_pairs(pairs, coded.least_support());
    runs
}

/// Whether a miner that mines class by class has a count for each pair of ranks. The runs are made
/// in any case, and sum the pairs of a rank as fast as a triangle that is larger than the caches,
/// and faster if most baskets are equal to others.
pub fn pays_for_classes(coded: &Coded, lists: &ListBaskets) -> bool {
    let baskets = coded.baskets().len();
    lists.len() > baskets / SHARED && is_small_triangle(coded.ranks(), baskets / 2)
}

/// Whether a count for each pair of ranks takes no more memory than the baskets, of which there are
/// two lists: those of items, and those of ranks.
pub fn is_small_triangle(ranks: u32, baskets: usize) -> bool
    ensures { IsTrue result ↔ (ranks * ranks / 2 ≤ 16 * baskets) }
{
    let ranks = u64::from(ranks);
    ranks * ranks / 2 <= (baskets as u64).saturating_mul(16)
}

/// The frequent pairs of each rank, from the runs of the baskets, one rank after another.
fn pairs_by_runs(alloc: Global, runs: &Runs, least: u64) -> Result<Vec<Vec<(u32, u64)>>, AllocError>
    ensures { IfOk result (λ lists. lists_of lists.items ≡ pairs_by_greater runs.now.baskets least runs.now.ranks) }
{
    let ranks = runs.ranks();
    let mut sums = Sums::new(alloc, ranks)?;
    let mut lists = Vec::with_capacity(alloc, ranks as usize)?;
    for rank in 0..ranks {
        lists.push(runs.pairs(alloc, &mut sums, rank, least)?)?;
    }
    Ok(lists)
}
