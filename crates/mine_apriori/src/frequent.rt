//! The frequent sets among candidates.
ghost use Rattle.std.specs.Prelude.{◌≡◌, ◌≤◌, ◌++◌, ◌∷◌, [], All, IfOk, OnOk, filter, length, map, slice_range};
ghost use Rattle.basket_ranks.specs.Codes.{IsCoding};
ghost use Rattle.basket_sets.specs.Frequent.{is_frequent};
ghost use Rattle.basket_sets.specs.Itemset.{IsRising};
ghost use Rattle.basket_sets.specs.Support.{support_of};
ghost use Rattle.mine_supports.specs.Extensions.{extend, kept, sets_of};
ghost use Rattle.mine_apriori.specs.Levels.{decoded_sets};

use basket_core::{Coded, CountedSets, Itemset};
use mine_supports::{Extensions, PrefixRange};
use std::alloc::{AllocError, Global};

/// Adds those sets of some prefixes that are frequent to those found, as items and with their supports. Returns them as
/// ranks.
#[tactic(auto, using(basket_sets::proofs::theory::Ranges::filter_rises))]
pub fn add_frequent(
    alloc: Global,
    coded: &Coded,
    sets: &Extensions,
    range: PrefixRange,
    counts: &[u64],
    found: &mut CountedSets,
) -> Result<Extensions, AllocError>
    requires coding { IsCoding coded.now }
    requires within { range.end ≤ length sets.now }
    requires rising { All IsRising (sets_of (slice_range sets.now range.start range.end)) }
    requires counts { counts.now ≡ map (support_of coded.now.baskets) (sets_of (slice_range sets.now range.start range.end)) }
    ensures level { IfOk result (λ level. level ≡ kept (is_frequent coded.now.baskets coded.now.minimum) (slice_range sets.now range.start range.end)) }
    ensures found { OnOk result (found.new ≡ found.old ++ decoded_sets coded.now (filter (is_frequent coded.now.baskets coded.now.minimum)
        (sets_of (slice_range sets.now range.start range.end)))) }
{
    let mut level = Extensions::new(alloc);
    let mut rest = counts;
    for number in range.start..range.end {
        let prefix = &sets.prefixes()[number];
        let items = sets.lists()[number].items();
        let (counts, others) = rest.split_at(items.len());
        let frequent = add_extensions(alloc, coded, prefix, items, counts, found)?;
        level = level.with_items(alloc, prefix.items(), &frequent)?;
        rest = others;
    }
    Ok(level)
}

/// Adds the frequent ones of the sets of a prefix to those found. Returns the items that extend it.
fn add_extensions(
    alloc: Global,
    coded: &Coded,
    prefix: &Itemset,
    items: &[u32],
    counts: &[u64],
    found: &mut CountedSets,
) -> Result<Vec<u32>, AllocError>
    requires coding { IsCoding coded.now }
    requires rising { All IsRising (extend prefix.now items.now) }
    requires counts { counts.now ≡ map (support_of coded.now.baskets) (extend prefix.now items.now) }
    ensures items { IfOk result (λ kept. kept.items ≡ filter (λ item. is_frequent coded.now.baskets coded.now.minimum (prefix.now ++ item ∷ [])) items.now) }
    ensures found { OnOk result (found.new ≡ found.old ++ decoded_sets coded.now (filter (is_frequent coded.now.baskets coded.now.minimum) (extend prefix.now items.now))) }
{
    let minimum = coded.minimum();
    let total = coded.total();
    let mut kept = Vec::new(alloc);
    for (index, item) in items.iter().enumerate() {
        if minimum.met(counts[index], total) {
            let ranks = prefix.with(alloc, *item)?;
            found.push_renamed(alloc, &ranks, coded.items(), counts[index])?;
            kept.push(*item)?;
        }
    }
    Ok(kept)
}
