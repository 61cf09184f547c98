//! The runs of some ranks in baskets that follow one another.
ghost use Rattle.std.specs.Prelude.{◌≡◌, ◌≤◌, ◌<◌, ◌+◌, ℕ, [], IfOk, IsTrue, OnOk, length, replicate, slice_index, slice_index_or, sum_by, take};
ghost use Rattle.basket_sets.specs.Database.{MOST_WEIGHT};
ghost use Rattle.basket_sets.specs.Itemset.{IsRising};
ghost use Rattle.mine_baskets.specs.declared.span.Span.{Span as Run};
ghost use Rattle.mine_baskets.specs.Baskets.{baskets_in};
ghost use Rattle.mine_pairs.specs.Runs.{HaveRuns, HaveRunsFrom, lists_in, with_run};

use crate::rank_range::RankRange;
use mine_baskets::{Baskets, Span};
use std::alloc::{AllocError, Global};

/// The runs of each rank of a range in baskets that follow one another.
pub fn runs_of_range(
    alloc: Global,
    baskets: Baskets<'_>,
    range: RankRange,
) -> Result<Vec<Vec<Span>>, AllocError>
    ensures { IfOk result (λ of. HaveRunsFrom range.first range.count baskets.entry.ranks.now (baskets_in baskets.entry) (lists_in of.items)) }
{
    let mut of = no_runs(alloc, range.count)?;
    let mut last = &baskets.ranks[..0];
    for basket in baskets.spans {
        let path = basket.of(baskets.ranks);
        add_runs(&mut of, range, path, *basket, shared(last, path))?;
        last = path;
    }
    Ok(of)
}

/// An empty list for each rank.
fn no_runs(alloc: Global, count: u32) -> Result<Vec<Vec<Span>>, AllocError>
    ensures { IfOk result (λ of. lists_in of.items ≡ replicate count []) }
{
    let mut of = Vec::with_capacity(alloc, count as usize)?;
    for _rank in 0..count {
        of.push(Vec::new(alloc))?;
    }
    Ok(of)
}

/// The length of the common prefix of two baskets.
fn shared(a: &[u32], b: &[u32]) -> usize
    ensures in_first { result ≤ length a.now }
    ensures in_second { result ≤ length b.now }
    ensures same { take result a.now ≡ take result b.now }
{
    let most = a.len().min(b.len());
    for index in 0..most {
        if a[index] != b[index] {
            return index;
        }
    }
    most
}

/// Adds the runs that ranks of the range have in a basket with this path, which shares its first ranks
/// with the basket before.
fn add_runs(
    of: &mut [Vec<Span>],
    range: RankRange,
    path: &[u32],
    basket: Span,
    shared: usize,
) -> Result<(), AllocError>
    requires whole { basket.start + length path.now ≡ basket.end }
    requires rises { IsRising path.now }
    requires long { length of.old ≡ range.count }
    requires there { (k n : ℕ) → k < shared → k < length path.now → n < length of.old
        → slice_index path.now k ≡ range.first + n → 0 < length (slice_index_or (lists_in of.old) n []) }
    requires light { (n : ℕ) → n < length of.old → sum_by (λ (other : Run). other.weight) (slice_index_or (lists_in of.old) n []) + basket.weight ≤ MOST_WEIGHT }
    ensures { OnOk result (HaveRuns path.now basket shared (length path.now) range.first (lists_in of.old) (lists_in of.new)) }
{
    for (depth, rank) in path.iter().enumerate() {
        if let Some(number) = range.number(*rank) {
            let run = basket.first(depth as u32);
            add_run(&mut of[number], run, depth < shared)?;
        }
    }
    Ok(())
}

/// Adds a run to those of a rank, or its weight to the last one if that is the same.
#[tactic(auto, using(std::proofs::lemmas::Grind::common_steps, crate::proofs::theory::Runs::heavier_is, crate::proofs::theory::Runs::same_run, crate::proofs::theory::Runs::other_run))]
fn add_run(runs: &mut Vec<Span>, run: Span, same: bool) -> Result<(), AllocError>
    requires some { IsTrue same → 0 < length runs.old.items }
    requires light { sum_by (λ (other : Run). other.weight) runs.old.items + run.weight ≤ MOST_WEIGHT }
    ensures { OnOk result (runs.new.items ≡ with_run same run runs.old.items) }
{
    if same {
        let last = runs.len() - 1;
        runs[last].add_weight(run.weight);
        return Ok(());
    }
    runs.push(run)?;
    Ok(())
}
