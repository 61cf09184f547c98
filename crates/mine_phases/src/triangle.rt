//! The frequent pairs of few ranks, over ranges of their greater ranks.
ghost use Rattle.std.specs.Prelude.{◌≡◌, ◌<◌, ◌^◌, ℕ, List, [], IfOk, length, map, slice_index_or};
ghost use Rattle.basket_sets.specs.Support.{support_of};
ghost use Rattle.mine_pairs.specs.Pairs.{ArePairs, lists_of};
ghost use Rattle.mine_pairs.specs.Triangle.{pairs_in_range};

use crate::joined::in_a_row;
use crate::pairs::{PHASE, Pairs};
use crate::ranges::{Cost, ranges_of};
use basket_core::Coded;
use mine_pairs::{RankRange, RankedBaskets, pairs_of_range};
use mine_pieces::{Cutting, Gate, PartWork, Phase, by_pieces};
use std::alloc::{AllocError, Global};
use std::thread::Threads;

/// Ranks whose pairs with lesser ones are counted, a range of them at a time.
#[derive(Drop)]
struct PairCounting<'a, B> {
    baskets: &'a B,
    least: u64,
    ranges: Vec<RankRange>,
    ghost few: { length ranges.items < 2 ^ 32 },
}

impl<B: RankedBaskets> PartWork<Vec<Pairs>> for PairCounting<'_, B> {
    type Tools = ();

    ghost part_count = { λ work. length work.ranges.items };

    ghost are_tools = { λ work tools. Unit {0} };

    ghost is_value = { λ work part lists. lists_of lists.items ≡ slice_index_or (map (pairs_in_range (B.baskets work.baskets.now) work.least) work.ranges.items) part [] };

    fn parts(&self) -> u32 {
        self.ranges.len() as u32
    }

    fn tools(&self, _alloc: Global) -> Result<(), AllocError> {
        Ok(())
    }

    fn value(&self, alloc: Global, _tools: &mut (), part: u32) -> Result<Vec<Pairs>, AllocError> {
        pairs_of_range(alloc, self.baskets, self.ranges[part as usize], self.least)
    }
}

/// The frequent pairs of each rank, found by a number of workers over ranges of the ranks. The baskets
/// may be those of the coding or others with the same supports. Each worker has the counts of its range
/// alone, and one worker has one range.
pub fn triangle_pairs<R: Threads + Sync, G: Gate + Sync, B: RankedBaskets + Sync>(
    rt: &R,
    alloc: Global,
    coded: &Coded,
    baskets: &B,
    cutting: Cutting,
    gate: &G,
) -> Result<Vec<Pairs>, AllocError>
    requires { (set : List ℕ) → support_of (B.baskets baskets.now) set ≡ support_of coded.now.baskets set }
    ensures { IfOk result (λ lists. ArePairs coded.now (lists_of lists.items)) }
{
    let counting = PairCounting {
        baskets,
        least: coded.coded_items().least_support(),
        ranges: ranges_of(alloc, coded, cutting, Cost::Pairs)?,
    };
    let lists = by_pieces(rt, alloc, &counting, &Phase::new(PHASE, cutting, gate))?;
    in_a_row(alloc, lists)
}
