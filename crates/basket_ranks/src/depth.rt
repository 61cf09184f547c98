//! Whether a frequent set has many items.
ghost use Rattle.std.specs.Prelude.{◌≡◌, ◌≤◌, [], ◌∷◌, ℕ, IsTrue, IsNone, IfOk, IfSome, filter};
ghost use Rattle.std.specs.List.{Contains};
ghost use Rattle.basket_ranks.specs.Codes.{frequent_of_coding};
ghost use Rattle.basket_sets.specs.Database.{MOST_WEIGHT, weighted};
ghost use Rattle.basket_sets.specs.Itemset.{IsRising};
ghost use Rattle.basket_ranks.specs.Depth.{HasSetOfSize, is_long, narrowed, narrowed_basket};
ghost use Rattle.basket_sets.specs.Minimum.{meets};
ghost use Rattle.basket_sets.specs.Support.{support_of, total_of};

use crate::coded::Coded;
use basket_sets::{Itemset, Weighted, count_items, weight_of};
use std::alloc::{AllocError, Global};

/// Whether a frequent set of this many items was found. It goes through the ranks from 0 upward
/// once and keeps each with which the set so far is still frequent, so there may be one even if it
/// returns that it found none. Baskets that have too few ranks for such a set are left out.
pub fn deep(alloc: Global, coded: &Coded, depth: u32) -> Result<bool, AllocError>
    requires { 1 ≤ depth }
    ensures { IfOk result (λ found. IsTrue found → HasSetOfSize (frequent_of_coding coded.now) depth) }
{
    let mut rest = narrowed_to(alloc, coded.baskets(), 0, depth - 1)?;
    if !coded.minimum().met(weight_of(&rest), coded.total()) {
        return Ok(false);
    }
    for size in 1..depth {
        match narrower(alloc, coded, &rest, depth - 1 - size)? {
            Some(narrower) => rest = narrower,
            None => return Ok(false),
        }
    }
    Ok(true)
}

/// The baskets that have the least rank whose support over them meets the minimum, kept to the
/// ranks above it, if these are at least this many.
fn narrower(
    alloc: Global,
    coded: &Coded,
    baskets: &[Weighted],
    least: u32,
) -> Result<Option<Vec<Weighted>>, AllocError>
    requires { total_of baskets.now ≤ MOST_WEIGHT }
    ensures { IfOk result (λ found. IfSome found (λ rest. (rank : ℕ) × (rest.items ≡ filter (is_long least) (narrowed rank baskets.now))
        × IsTrue (meets coded.now.minimum (support_of baskets.now (rank ∷ [])) (total_of coded.now.baskets)))) }
{
    match first_met(coded, &count_items(alloc, baskets)?) {
        Some(rank) => Ok(Some(narrowed_to(alloc, baskets, rank, least)?)),
        None => Ok(None),
    }
}

/// The first rank whose count meets the minimum.
fn first_met(coded: &Coded, counts: &[(u32, u64)]) -> Option<u32>
    ensures { IfSome result (λ rank. (count : ℕ) × Contains counts.now (rank, count)
        × IsTrue (meets coded.now.minimum count (total_of coded.now.baskets))) }
{
    let minimum = coded.minimum();
    let total = coded.total();
    for (rank, count) in counts {
        if minimum.met(*count, total) {
            return Some(*rank);
        }
    }
    None
}

/// The baskets that have the rank, kept to the ranks above it, if these are at least this many.
fn narrowed_to(
    alloc: Global,
    baskets: &[Weighted],
    rank: u32,
    least: u32,
) -> Result<Vec<Weighted>, AllocError>
    ensures { IfOk result (λ rest. rest.items ≡ filter (is_long least) (narrowed rank baskets.now)) }
{
    let mut rest = Vec::new(alloc);
    for weighted in baskets {
        if let Some(above) = ranks_above(weighted.basket.items(), rank, least) {
            rest.push(Weighted {
                basket: Itemset::from_items(alloc, above)?,
                weight: weighted.weight,
            })?;
        }
    }
    Ok(rest)
}

/// The ranks above a rank, if the rank is there and they are at least this many.
fn ranks_above(ranks: &[u32], rank: u32, least: u32) -> Option<&[u32]>
    requires { IsRising ranks.now }
    ensures some { IfSome result (λ kept. IsRising kept.now
        × ((weight : ℕ) → filter (is_long least) (narrowed_basket rank (weighted ranks.now weight)) ≡ weighted kept.now weight ∷ [])) }
    ensures none { IsNone result → (weight : ℕ) → filter (is_long least) (narrowed_basket rank (weighted ranks.now weight)) ≡ [] }
{
    // Most baskets are too short, so this is tested first.
    if ranks.len() <= least as usize {
        return None;
    }
    let Ok(at) = ranks.binary_search(&rank) else {
        return None;
    };
    let above = &ranks[at + 1..];
    if above.len() < least as usize {
        return None;
    }
    Some(above)
}
