//! Equal baskets of a list, found by a map.
ghost use Rattle.std.specs.Prelude.{◌≡◌, ◌≤◌, ◌+◌, IfOk, OnOk, map};
ghost use Rattle.basket_sets.specs.Database.{MOST_WEIGHT, merged_of, with_basket};
ghost use Rattle.basket_sets.specs.Merge.{as_weighted};
ghost use Rattle.basket_sets.specs.Support.{total_of};

use crate::itemset::Itemset;
use crate::weighted::Weighted;
use indexmap::IndexMap;
use std::alloc::{AllocError, Global};
use std::hash::{BuildHasher, DefaultHasher, FoldHasher, Hash, Hasher};

/// What each hash begins with: a hash of all the baskets. So a file of many baskets that have one hash is
/// hard to make, as each that is put into it changes all hashes.
#[derive(Clone, Copy)]
struct Seed {
    hasher: FoldHasher,
}

impl Seed {
    fn of(baskets: &[Weighted]) -> Self {
        let mut all = DefaultHasher::new();
        for weighted in baskets {
            weighted.basket.hash(&mut all);
        }
        let mut hasher = FoldHasher::default();
        all.finish().hash(&mut hasher);
        Seed { hasher }
    }
}

impl BuildHasher for Seed {
    type Hasher = FoldHasher;

    ghost build_hasher = { λ seed. seed.hasher };

    fn build_hasher(&self) -> FoldHasher {
        self.hasher
    }
}

/// Each distinct basket once, where it first comes, with the sum of its weights.
pub fn merged(alloc: Global, baskets: Vec<Weighted>) -> Result<Vec<Weighted>, AllocError>
    requires light { total_of baskets.items ≤ MOST_WEIGHT }
    ensures { IfOk result (λ merged. merged.items ≡ merged_of baskets.items) }
{
    let mut weights = IndexMap::with_hasher(alloc, Seed::of(&baskets));
    for weighted in baskets {
        add(&mut weights, weighted)?;
    }
    listed(alloc, weights)
}

/// Adds a basket's weight to that of its equal, or the basket at the end.
fn add<S: BuildHasher>(
    weights: &mut IndexMap<Itemset, u64, S>,
    weighted: Weighted,
) -> Result<(), AllocError>
    requires light { total_of (map as_weighted weights.old.entries) + weighted.weight ≤ MOST_WEIGHT }
    ensures { OnOk result (map as_weighted weights.new.entries ≡ with_basket (map as_weighted weights.old.entries) weighted) }
{
    *weights.entry(weighted.basket)?.or_insert(0) += weighted.weight;
    Ok(())
}

/// The baskets of a map with their weights, in its order.
fn listed<S: BuildHasher + Drop>(
    alloc: Global,
    weights: IndexMap<Itemset, u64, S>,
) -> Result<Vec<Weighted>, AllocError>
    ensures { IfOk result (λ listed. listed.items ≡ map as_weighted weights.entries) }
{
    weights
        .into_iter()
        .map(|(basket, weight)| Weighted { basket, weight })
        .collect(alloc)
}
