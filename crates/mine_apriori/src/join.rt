//! Apriori's candidates, made by join and prune.
ghost use Rattle.std.specs.Prelude.{◌≡◌, ◌<◌, ◌≤◌, ◌+◌, ◌-◌, ◌++◌, ◌∷◌, [], suc, All, IfOk, OnOk, filter, length, slice_range};
ghost use Rattle.std.specs.Cmp.Lexicographic.{slice_cmp};
ghost use Rattle.std.specs.List.Sorted.{IsStrictlySortedBy};
ghost use Rattle.std.specs.Ordering.{nat_cmp};
ghost use Rattle.basket_sets.specs.Itemset.{IsRising, without};
ghost use Rattle.basket_sets.specs.Order.{IsInReportOrder};
ghost use Rattle.mine_apriori.specs.Candidates.{is_one_of, candidates_of};
ghost use Rattle.mine_supports.specs.Extensions.{AreGrouped, has_items, prefixes_of, sets_of};
ghost use Rattle.mine_apriori.specs.Join.{AreParts, has_parts, joined_group, joined_groups};
ghost use Rattle.mine_supports.specs.Sizes.{AreOfSize};

use crate::intersection::push_shared;
use crate::search::find_near;
use mine_supports::{Extensions, PrefixRange};
use std::alloc::{AllocError, Global};
use std::mem::swap;

/// The sets of one more item all of whose subsets of the level's size are in the level, in report
/// order (Agrawal and Srikant 1994).
pub fn candidates(alloc: Global, level: &Extensions) -> Result<Extensions, AllocError>
    requires grouped { AreGrouped level.now }
    requires in_order { IsInReportOrder (sets_of level.now) }
    requires rising { All IsRising (sets_of level.now) }
    ensures candidates { IfOk result (λ found. sets_of found ≡ candidates_of (sets_of level.now)) }
    ensures grouped { IfOk result AreGrouped }
{
    candidates_in(alloc, level, level.range())
}

/// Those of the candidates whose first two subsets have one of these prefixes.
pub fn candidates_in(
    alloc: Global,
    level: &Extensions,
    range: PrefixRange,
) -> Result<Extensions, AllocError>
    requires within { range.end ≤ length level.now }
    requires grouped { AreGrouped level.now }
    requires rising { All IsRising (sets_of level.now) }
    ensures { IfOk result (λ found. found ≡ joined_groups (sets_of level.now) (slice_range level.now range.start range.end)) }
{
    let mut found = Extensions::new(alloc);
    let size = match level.prefixes().first() {
        Some(prefix) => prefix.len(),
        None => 0,
    };
    let mut hints = vec![in alloc; 0; size]?;
    for index in range.start..range.end {
        let prefix = level.prefixes()[index].items();
        let items = level.lists()[index].items();
        found = join(alloc, level, prefix, items, &mut hints, found)?;
    }
    Ok(found)
}

/// Adds the candidates whose first two subsets are sets of a prefix: each of them is joined to the later ones.
#[tactic(auto, using(std::proofs::lemmas::Grind::common_steps, crate::proofs::JoinStepLemmas::drop_rises))]
fn join(
    alloc: Global,
    level: &Extensions,
    prefix: &[u32],
    items: &[u32],
    hints: &mut [usize],
    found: Extensions,
) -> Result<Extensions, AllocError>
    requires parts { AreParts level.now prefix.now items.now }
    requires hinted { length prefix.now ≤ length hints.old }
    ensures { IfOk result (λ more. more ≡ found ++ filter has_items (joined_group (suc (length prefix.now)) (sets_of level.now) prefix.now items.now)) }
{
    let mut found = found;
    let mut joined = Vec::new(alloc);
    let mut later = Vec::new(alloc);
    let mut room = Vec::new(alloc);
    for index in 0..items.len() {
        put_extended(&mut joined, prefix, items[index])?;
        later.clear();
        later.extend_from_slice(&items[index + 1..])?;
        keep_extensions(level, &joined, hints, &mut later, &mut room)?;
        found = found.with_items(alloc, &joined, &later)?;
    }
    Ok(found)
}

/// Keeps those items with which a set has all subsets of its size that lack one of its items except the last. From one
/// set to the next the prefix without the item at an index mostly moves on a little, so each index has a hint of its own.
#[tactic(auto, using(crate::proofs::JoinStepLemmas::parts_none, crate::proofs::JoinStepLemmas::parts_more, basket_sets::proofs::theory::Ranges::filter_rises))]
fn keep_extensions(
    level: &Extensions,
    set: &[u32],
    hints: &mut [usize],
    items: &mut Vec<u32>,
    room: &mut Vec<u32>,
) -> Result<(), AllocError>
    requires some { 1 ≤ length set.now }
    requires hinted { length set.now ≤ length hints.old + 1 }
    requires sized { AreOfSize (length set.now - 1) (prefixes_of level.now) }
    requires sorted { IsStrictlySortedBy (slice_cmp nat_cmp) (prefixes_of level.now) }
    requires rising { IsRising items.old.items }
    ensures { OnOk result (items.new.items ≡ filter (has_parts (length set.now - 1) (sets_of level.now) set.now) items.old.items) }
{
    for index in 0..set.len() - 1 {
        keep_with(level, set, index, &mut hints[index], items, room)?;
    }
    Ok(())
}

/// Keeps those items with which the set without the item at an index is in the level. The search for that prefix begins at the
/// hint, which then becomes the index where it was found.
fn keep_with(
    level: &Extensions,
    set: &[u32],
    index: usize,
    hint: &mut usize,
    items: &mut Vec<u32>,
    room: &mut Vec<u32>,
) -> Result<(), AllocError>
    requires within { index < length set.now }
    requires sized { AreOfSize (length set.now - 1) (prefixes_of level.now) }
    requires sorted { IsStrictlySortedBy (slice_cmp nat_cmp) (prefixes_of level.now) }
    requires rising { IsRising items.old.items }
    ensures { OnOk result (items.new.items ≡ filter (λ item. is_one_of (sets_of level.now) (without index set.now ++ item ∷ [])) items.old.items) }
{
    if items.is_empty() {
        return Ok(());
    }
    room.clear();
    match find_near(level.prefixes(), &set[..index], &set[index + 1..], *hint) {
        Ok(at) => {
            *hint = at;
            push_shared(items, level.lists()[at].items(), room)?;
        }
        Err(at) => *hint = at,
    }
    swap(items, room);
    Ok(())
}

/// Makes a set of a prefix and one item more. The room of its items is used again.
fn put_extended(set: &mut Vec<u32>, prefix: &[u32], item: u32) -> Result<(), AllocError>
    ensures { OnOk result (set.new.items ≡ prefix.now ++ item ∷ []) }
{
    set.clear();
    set.extend_from_slice(prefix)?;
    set.push(item)?;
    Ok(())
}
