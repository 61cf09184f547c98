//! The sets that are asked for.
ghost use Rattle.std.specs.Prelude.{◌≡◌, IfOk};
ghost use Rattle.mine_sets.specs.Asked.{asked_of};

use basket_sets::Itemset;
use indexmap::IndexSet;
use std::alloc::{AllocError, Global};
use std::hash::{BuildHasher, BuildHasherDefault, FoldHasher, RandomState};
use std::random::RandomSource;

/// The sets that are asked for: the empty set, and then each of the others once, where it first
/// comes. Equal sets are found by random keys, or by a fixed seed.
pub fn asked_for<R: RandomSource>(
    rt: &R,
    alloc: Global,
    sets: Vec<Itemset>,
) -> Result<Vec<Itemset>, AllocError>
    ensures { IfOk result (λ asked. asked.items ≡ asked_of sets.items) }
{
    match RandomState::new(rt) {
        Ok(keys) => distinct_sets(alloc, keys, sets),
        // The order of the sets is the same.
        Err(_) => distinct_sets(alloc, BuildHasherDefault::<FoldHasher>::new(), sets),
    }
}

/// The empty set, and then each of the others once, where it first comes.
fn distinct_sets<S: BuildHasher + Drop>(
    alloc: Global,
    hasher: S,
    sets: Vec<Itemset>,
) -> Result<Vec<Itemset>, AllocError>
    ensures { IfOk result (λ distinct. distinct.items ≡ asked_of sets.items) }
{
    let mut distinct = IndexSet::with_hasher(alloc, hasher);
    distinct.insert(Itemset::from_items(alloc, &[])?)?;
    for set in sets {
        distinct.insert(set)?;
    }
    distinct.into_iter().collect(alloc)
}
