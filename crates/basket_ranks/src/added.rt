//! Counts of items, added.
ghost use Rattle.std.specs.Prelude.{◌≡◌, ◌<◌, ◌+◌, ◌^◌, ℕ, IfOk};
ghost use Rattle.basket_ranks.specs.Added.{added_counts, items_of_counts, number_of};
ghost use Rattle.basket_sets.specs.Itemset.{IsRising};

use std::alloc::{AllocError, Global};
use std::cmp::Ordering;

/// The items of either list of counts, rising, each with its numbers in both added.
pub fn add_counts(
    alloc: Global,
    a: &[(u32, u64)],
    b: &[(u32, u64)],
) -> Result<Vec<(u32, u64)>, AllocError>
    requires rising { IsRising (items_of_counts a.now) × IsRising (items_of_counts b.now) }
    requires fits { (item : ℕ) → number_of a.now item + number_of b.now item < 2 ^ 64 }
    ensures counts { IfOk result (λ counts. counts.items ≡ added_counts a.now b.now) }
    ensures rising { IfOk result (λ counts. IsRising (items_of_counts counts.items)) }
{
    let mut counts = Vec::with_capacity(alloc, a.len().saturating_add(b.len()))?;
    let mut ours = a;
    let mut theirs = b;
    while let (Some((first, rest)), Some((other, others))) = (
        ours.split_first(),
        theirs.split_first(),
    ) {
        let entry = match first.0.cmp(&other.0) {
            Ordering::Less => {
                ours = rest;
                *first
            }
            Ordering::Equal => {
                ours = rest;
                theirs = others;
                (first.0, first.1 + other.1)
            }
            Ordering::Greater => {
                theirs = others;
                *other
            }
        };
        counts.push(entry)?;
    }
    counts.extend_from_slice(ours)?;
    counts.extend_from_slice(theirs)?;
    Ok(counts)
}
