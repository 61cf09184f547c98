//! The supports of sets in a shard: the baskets of a database, or some of them.
ghost use Rattle.std.specs.Prelude.{◌≡◌, ◌≤◌, IfOk, map};
ghost use Rattle.basket_sets.specs.Database.{MOST_WEIGHT};
ghost use Rattle.basket_sets.specs.Support.{support_of, total_of};
ghost use Rattle.mine_supports.specs.Extensions.{sets_of};

use crate::counter::RowCounter;
use crate::extensions::Extensions;
use basket_sets::{Itemset, Weighted, weight_of};
use std::alloc::{AllocError, Global};

/// The support of each set in the baskets. The sets may come in any order and have any sizes.
pub fn count_shard(
    alloc: Global,
    baskets: &[Weighted],
    sets: &[Itemset],
) -> Result<Vec<u64>, AllocError>
    requires light { total_of baskets.now ≤ MOST_WEIGHT }
    ensures { IfOk result (λ counts. counts.items ≡ map (support_of baskets.now) sets.now) }
{
    let counted = count_extensions(alloc, baskets, &Extensions::of_sets(alloc, sets)?)?;
    let mut counts = Vec::with_capacity(alloc, sets.len())?;
    let mut rest: &[u64] = &counted;
    for set in sets {
        if set.is_empty() {
            counts.push(weight_of(baskets))?;
        } else if let Some((count, others)) = rest.split_first() {
            counts.push(*count)?;
            rest = others;
        }
    }
    Ok(counts)
}

/// The support of each set in the baskets.
pub fn count_extensions(
    alloc: Global,
    baskets: &[Weighted],
    sets: &Extensions,
) -> Result<Vec<u64>, AllocError>
    requires light { total_of baskets.now ≤ MOST_WEIGHT }
    ensures { IfOk result (λ counts. counts.items ≡ map (support_of baskets.now) (sets_of sets.now)) }
{
    let mut counts = vec![in alloc; 0; sets.len()]?;
    RowCounter::of(alloc, sets)?.add(alloc, baskets, &mut counts)?;
    Ok(counts)
}
