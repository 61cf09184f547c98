//! The runs of coded baskets, before their classes are mined.
ghost use Rattle.std.specs.Prelude.{◌≡◌, ◌<◌, ◌^◌, ℕ, List, IfOk, length, slice_index_or};
ghost use Rattle.std.specs.List.{flat_map, range_with_len};
ghost use Rattle.basket_sets.specs.Support.{support_of};
ghost use Rattle.mine_baskets.specs.Baskets.{baskets_in};
ghost use Rattle.mine_baskets.specs.ListBaskets.{AreRankBaskets, HaveSameWeights};
ghost use Rattle.mine_pairs.specs.Runs.{HaveRunsFrom, lists_in};
ghost use Rattle.mine_pairs.specs.Triangle.{ranks_in};
ghost use Rattle.mine_pairs.specs.declared.rank_range.RankRange.{RankRange as Range};

use crate::joined::in_a_row;
use crate::pairs::PHASE;
use crate::ranges::{Cost, ranges_of};
use crate::triangle::triangle_pairs;
use basket_core::{Coded, CodedItems};
use mine_baskets::{Baskets, ListBaskets, Span};
use mine_pairs::{RankRange, Runs, pays_for_classes, runs_keeping, runs_of_range};
use mine_pieces::{Cutting, Open, PartWork, Phase, by_pieces};
use std::alloc::{AllocError, Global};
use std::thread::Threads;

/// Ranks whose runs are found, a range of them at a time.
#[derive(Drop)]
struct RankRuns<'a> {
    baskets: Baskets<'a>,
    ranges: Vec<RankRange>,
    ghost few: { length ranges.items < 2 ^ 32 },
}

impl PartWork<Vec<Vec<Span>>> for RankRuns<'_> {
    type Tools = ();

    ghost part_count = { λ work. length work.ranges.items };

    ghost are_tools = { λ work tools. Unit {0} };

    ghost is_value = { λ work part of. (range : Range) → slice_index_or work.ranges.items part range ≡ range
        → HaveRunsFrom range.first range.count work.baskets.ranks.now (baskets_in work.baskets) (lists_in of.items) };

    fn parts(&self) -> u32 {
        self.ranges.len() as u32
    }

    fn tools(&self, _alloc: Global) -> Result<(), AllocError> {
        Ok(())
    }

    fn value(
        &self,
        alloc: Global,
        _tools: &mut (),
        part: u32,
    ) -> Result<Vec<Vec<Span>>, AllocError> {
        runs_of_range(alloc, self.baskets, self.ranges[part as usize])
    }
}

/// The runs of each rank, found by a number of workers over these ranges of the ranks.
fn runs_by_ranges<R: Threads + Sync>(
    rt: &R,
    alloc: Global,
    baskets: Baskets<'_>,
    ranges: Vec<RankRange>,
    cutting: Cutting,
) -> Result<Vec<Vec<Span>>, AllocError>
    requires few { length ranges.items < 2 ^ 32 }
    ensures { (ranks : ℕ) → flat_map ranks_in ranges.items ≡ range_with_len 0 ranks
        → IfOk result (λ of. HaveRunsFrom 0 ranks baskets.entry.ranks.now (baskets_in baskets.entry) (lists_in of.items)) }
{
    let work = RankRuns { baskets, ranges };
    let lists = by_pieces(rt, alloc, &work, &Phase::new(PHASE, cutting, &Open))?;
    in_a_row(alloc, lists)
}

/// The runs of the coded baskets, which a number of workers sort, and their items: the baskets themselves are
/// gone before the runs are made. The runs keep the frequent pairs of each rank if it pays to count each pair
/// of ranks. The workers count these pairs and find the runs over ranges of the ranks.
pub fn runs_shared<R: Threads + Sync>(
    rt: &R,
    alloc: Global,
    coded: Coded,
    cutting: Cutting,
) -> Result<(Runs, CodedItems), AllocError>
    ensures items { IfOk result (λ made. made.1 ≡ coded) }
    ensures ranks { IfOk result (λ made. made.0.ranks ≡ length coded.items) }
    ensures ranked { IfOk result (λ made. AreRankBaskets made.0) }
    ensures weights { IfOk result (λ made. HaveSameWeights coded.baskets made.0.baskets) }
    ensures supports { IfOk result (λ made. (set : List ℕ) → support_of made.0.baskets set ≡ support_of coded.baskets set) }
{
    let lists = ListBaskets::grouped(rt, alloc, &coded, cutting.workers)?;
    let pairs = if pays_for_classes(&coded, &lists) {
        triangle_pairs(rt, alloc, &coded, &lists, cutting, &Open)?
    } else {
        Vec::new(alloc)
    };
    let ranges = ranges_of(alloc, &coded, cutting, Cost::Occurrences)?;
    let items = coded.into_items();
    let (count, ranks, baskets) = lists.into_parts();
    let all = Baskets {
        count,
        ranks: &ranks,
        spans: &baskets,
    };
    let of = runs_by_ranges(rt, alloc, all, ranges, cutting)?;
    let runs = Runs::with(alloc, count, ranks, baskets, of);
    Ok((runs_keeping(&items, runs, pairs), items))
}
