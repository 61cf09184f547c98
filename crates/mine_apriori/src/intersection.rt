//! The items that two rising lists share.
ghost use Rattle.std.specs.Prelude.{◌≡◌, ◌≤◌, ◌<◌, ◌++◌, ℕ, OnOk, filter, length, slice_index};
ghost use Rattle.basket_sets.specs.Itemset.{IsRising, has};

use std::alloc::AllocError;

/// Adds the items that others have too.
pub fn push_shared(items: &[u32], others: &[u32], shared: &mut Vec<u32>) -> Result<(), AllocError>
    requires rises { IsRising items.now }
    requires others_rise { IsRising others.now }
    ensures { OnOk result (shared.new.items ≡ shared.old.items ++ filter (has others.now) items.now) }
{
    let mut next = 0;
    for item in items {
        next = first_from(others, next, *item);
        if next < others.len() && others[next] == *item {
            shared.push(*item)?;
        }
    }
    Ok(())
}

/// The index, from one on, of the first of the items that isn't below a given one.
fn first_from(items: &[u32], start: usize, least: u32) -> usize
    ensures later { start ≤ result }
    ensures below { (k : ℕ) → start ≤ k → k < result → slice_index items.now k < least }
    ensures first { result < length items.now → least ≤ slice_index items.now result }
{
    let mut index = start;
    while index < items.len() && items[index] < least {
        index += 1;
    }
    index
}
