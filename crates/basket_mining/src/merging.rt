//! Equal baskets are merged if that pays.
ghost use Rattle.std.specs.Prelude.{◌≡◌, IfOk};
ghost use Rattle.basket_ranks.specs.Codes.{frequent_of_coding};
ghost use Rattle.basket_sets.specs.Support.{total_of};

use basket_core::{Coded, Weighted};
use basket_order::items_hash;
use std::alloc::{AllocError, Global};

/// So many baskets are looked at.
const SAMPLE: usize = 4_096;

/// So many are merged in any case.
const FEW_BASKETS: usize = 65_536;

/// The coding with equal baskets merged, or as it is if few of them are equal.
pub fn merged_if_it_pays(alloc: Global, coded: Coded) -> Result<Coded, AllocError>
    ensures list { IfOk result (λ merged. frequent_of_coding merged ≡ frequent_of_coding coded) }
    ensures total { IfOk result (λ merged. total_of merged.baskets ≡ total_of coded.baskets) }
    ensures minimum { IfOk result (λ merged. merged.minimum ≡ coded.minimum) }
{
    if coded.baskets().len() > FEW_BASKETS && !repeat(alloc, coded.baskets())? {
        return Ok(coded);
    }
    coded.merged(alloc)
}

/// Whether an eighth of the first baskets have the hash of another one of them.
fn repeat(alloc: Global, baskets: &[Weighted]) -> Result<bool, AllocError> {
    let sample = &baskets[..SAMPLE.min(baskets.len())];
    let mut hashes = Vec::with_capacity(alloc, sample.len())?;
    for basket in sample {
        hashes.push(items_hash(basket.basket.items()))?;
    }
    hashes.sort_unstable();
    hashes.dedup();
    Ok(hashes.len() <= sample.len() - sample.len() / 8)
}
