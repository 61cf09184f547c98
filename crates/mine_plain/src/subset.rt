//! The subsets of a set.
ghost use Rattle.std.specs.Prelude.{◌≡◌, ◌∷◌, All, IfOk, map};
ghost use Rattle.basket_sets.specs.Itemset.{IsRising};
ghost use Rattle.basket_sets.specs.Subsets.{subsets_of_size, subsets_of};

use basket_core::Itemset;
use std::alloc::{AllocError, Global};

/// The nonempty subsets of a set in report order. There are 2^n - 1 of them for n items.
pub fn subsets(alloc: Global, set: &Itemset) -> Result<Vec<Itemset>, AllocError>
    ensures { IfOk result (λ sets. sets.items ≡ subsets_of set.now) }
{
    let items = set.items();
    let mut sets = Vec::new(alloc);
    for size in 0..items.len() {
        sets.append(&mut subsets_of_size(alloc, size + 1, items)?)?;
    }
    Ok(sets)
}

/// The subsets of this many items: first those with the first item, then those without.
fn subsets_of_size(alloc: Global, size: usize, items: &[u32]) -> Result<Vec<Itemset>, AllocError>
    requires { IsRising items.now }
    ensures { IfOk result (λ sets. sets.items ≡ subsets_of_size size items.now) }
{
    if size == 0 {
        let mut sets = Vec::new(alloc);
        sets.push(Itemset::from_items(alloc, &[])?)?;
        return Ok(sets);
    }
    let Some((first, others)) = items.split_first() else {
        return Ok(Vec::new(alloc));
    };
    let mut sets = each_with_first(alloc, *first, &subsets_of_size(alloc, size - 1, others)?)?;
    sets.append(&mut subsets_of_size(alloc, size, others)?)?;
    Ok(sets)
}

/// Each set with an item before its own.
fn each_with_first(alloc: Global, first: u32, sets: &[Itemset]) -> Result<Vec<Itemset>, AllocError>
    requires { All (λ set. IsRising (first ∷ set)) sets.now }
    ensures { IfOk result (λ more. more.items ≡ map (λ set. first ∷ set) sets.now) }
{
    let mut more = Vec::new(alloc);
    for set in sets {
        more.push(with_first(alloc, first, set)?)?;
    }
    Ok(more)
}

/// The set with an item before its own.
fn with_first(alloc: Global, first: u32, set: &Itemset) -> Result<Itemset, AllocError>
    requires { IsRising (first ∷ set.now) }
    ensures { IfOk result (λ more. more ≡ first ∷ set.now) }
{
    let mut items = Vec::new(alloc);
    items.push(first)?;
    items.extend_from_slice(set.items())?;
    Itemset::from_items(alloc, &items)
}
