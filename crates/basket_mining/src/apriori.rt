//! Apriori, whose phases workers share.
ghost use Rattle.std.specs.Prelude.{◌≡◌, ◌≤◌, ℕ, Err, IfOk, length};
ghost use Rattle.mine_limit.specs.declared.fault.MineFault.TheVariants.{TooMany};
ghost use Rattle.basket_ranks.specs.Codes.{baskets_of};
ghost use Rattle.basket_core.specs.Listing.{listing_of};
ghost use Rattle.mine_apriori.specs.Levels.{AreTooMany};
ghost use Rattle.mine_pairs.specs.Pairs.{ArePairs, lists_of};
ghost use Rattle.mine_apriori.specs.Work.{candidate_count};

use crate::joiner::Workers;
use basket_core::{Coded, Frequent};
use mine_apriori::FirstLevel;
use mine_limit::MineFault;
use mine_pairs::{is_small_triangle, runs_with_least};
use mine_phases::{count_pairs, triangle_pairs};
use mine_pieces::{Cutting, Gate};
use mine_sets::count_candidates;
use std::alloc::{AllocError, Global};
use std::thread::Threads;

/// The frequent pairs of ranks. The workers count each pair of ranks if these are few, and
/// otherwise only the pairs that occur, rank by rank.
#[tactic(auto, using(std::proofs::lemmas::Grind::common_steps))]
fn pairs<R: Threads + Sync, G: Gate + Sync>(
    rt: &R,
    alloc: Global,
    coded: &Coded,
    cutting: Cutting,
    gate: &G,
) -> Result<Vec<Vec<(u32, u64)>>, AllocError>
    ensures { IfOk result (λ lists. ArePairs coded.now (lists_of lists.items)) }
{
    if is_small_triangle(coded.ranks(), coded.baskets().len()) {
        return triangle_pairs(rt, alloc, coded, coded, cutting, gate);
    }
    let (runs, least) = runs_with_least(alloc, coded)?;
    count_pairs(rt, alloc, &runs, least, cutting, gate)
}

/// The list of the frequent sets, if it is no longer than the limit, and the number of candidates
/// (Agrawal and Srikant 1994), found by this many workers: the pairs over parts of the ranks, the
/// supports of the candidates of each level over parts of the baskets, and the frequent sets and
/// the next candidates over parts of the prefixes.
#[tactic(auto, using(std::proofs::lemmas::Grind::common_steps))]
pub fn apriori_shared<R: Threads + Sync, G: Gate + Sync>(
    rt: &R,
    alloc: Global,
    coded: &Coded,
    limit: u32,
    cutting: Cutting,
    gate: &G,
) -> Result<(Frequent, u64), MineFault>
    ensures ok { IfOk result (λ mined. mined.0 ≡ listing_of coded.now) }
    ensures candidates { IfOk result (λ mined. mined.1 ≡ candidate_count (baskets_of coded.now) coded.now.minimum) }
    ensures within { IfOk result (λ mined. length mined.0.sets ≤ limit) }
    ensures too_many { (most : ℕ) → result ≡ Err (TooMany most) → (most ≡ limit) × AreTooMany coded.now limit }
{
    let first = FirstLevel::of(alloc, coded, limit)?;
    let pairs = pairs(rt, alloc, coded, cutting, gate)?;
    let joiner = Workers {
        rt,
        count: cutting.workers,
    };
    let mut levels = first.with_pairs(alloc, &pairs, &joiner)?;
    while !levels.asked().is_empty() {
        let counts = count_candidates(rt, alloc, coded.baskets(), levels.asked(), cutting, gate)?;
        levels = levels.answer(alloc, &counts, &joiner)?;
    }
    let candidates = levels.counted();
    let frequent = levels.finish_shared(rt, alloc, cutting.workers)?;
    Ok((frequent, candidates))
}
