ghost use Rattle.std.specs.Prelude.{◌≡◌, ◌<◌, ◌≤◌, ◌+◌, ◌++◌, ◌^◌, ℕ, List, None, IfOk, OnOk, IsTrue, false, if◌then◌else◌, length, map, min, nat_eq, take, unwrap_or, slice_index_or};
ghost use Rattle.std.specs.BTreeMap.{get};
ghost use Rattle.std.specs.Ordering.{nat_cmp};
ghost use Rattle.std.specs.List.{IsDistinct};
ghost use Rattle.basket_sets.specs.declared.weighted.Weighted.{Weighted as Basket};
ghost use Rattle.basket_sets.specs.Counts.{item_supports, IsTable, AllBelow, entries_of};
ghost use Rattle.basket_sets.specs.Database.{MOST_WEIGHT};
ghost use Rattle.basket_sets.specs.Itemset.{IsRising, has};
ghost use Rattle.basket_sets.specs.Slot.{slot_with, slots_joined};
ghost use Rattle.basket_sets.specs.Support.{total_of, all_items};

use crate::slot::Slot;
use crate::weighted::Weighted;
use std::alloc::{AllocError, Global};
use std::collections::BTreeMap;

/// A table of this many slots is made for any baskets, however few items they have.
pub const SMALL_TABLE: usize = 65_536;

/// The items of the baskets in rising order, each with its support.
pub fn count_items(alloc: Global, baskets: &[Weighted]) -> Result<Vec<(u32, u64)>, AllocError>
    requires { total_of baskets.now ≤ MOST_WEIGHT }
    ensures counts { IfOk result (λ counts. counts.items ≡ item_supports baskets.now) }
    ensures rising { IfOk result (λ counts. IsRising (map (λ entry. entry.0) counts.items)) }
{
    let greatest = greatest_item(baskets);
    if greatest as usize <= SMALL_TABLE || greatest as usize <= occurrences(baskets) {
        count_by_table(alloc, baskets, greatest)
    } else {
        count_by_map(alloc, baskets)
    }
}

/// How many items the baskets have together, or `usize::MAX` if they have more.
pub fn occurrences(baskets: &[Weighted]) -> usize {
    baskets.iter().fold(0usize, |all, weighted| {
        all.saturating_add(weighted.basket.len())
    })
}

/// The greatest item of any basket, or 0.
pub fn greatest_item(baskets: &[Weighted]) -> u32
    ensures { AllBelow (result + 1) (all_items baskets.now) }
{
    let mut greatest = 0u32;
    for weighted in baskets {
        if let Some(last) = weighted.basket.items().last() {
            greatest = greatest.max(*last);
        }
    }
    greatest
}

/// The greatest of some numbers, or 0.
pub fn greatest_of(numbers: &[u32]) -> u32
    ensures { AllBelow (result + 1) numbers.now }
{
    let mut greatest = 0u32;
    for number in numbers {
        greatest = greatest.max(*number);
    }
    greatest
}

/// Counts in a table that has a slot for each number up to the greatest item.
fn count_by_table(
    alloc: Global,
    baskets: &[Weighted],
    greatest: u32,
) -> Result<Vec<(u32, u64)>, AllocError>
    requires light { total_of baskets.now ≤ MOST_WEIGHT }
    requires within { AllBelow (greatest + 1) (all_items baskets.now) }
    ensures { IfOk result (λ counts. counts.items ≡ item_supports baskets.now) }
{
    let mut table = vec![in alloc; Slot::empty(); greatest as usize + 1]?;
    add_baskets(&mut table, baskets);
    listed(alloc, &table)
}

/// Adds the weight of each basket at its items.
pub fn add_baskets(table: &mut [Slot], baskets: &[Weighted])
    requires within { AllBelow (length table.old) (all_items baskets.now) }
    requires fits { (item : ℕ) → unwrap_or (slice_index_or table.old item None) 0 + total_of baskets.now ≤ MOST_WEIGHT }
    ensures table { (before : List Basket) → IsTable before table.old → IsTable (before ++ baskets.now) table.new }
    ensures bounded { (item : ℕ) → unwrap_or (slice_index_or table.new item None) 0 ≤ unwrap_or (slice_index_or table.old item None) 0 + total_of baskets.now }
{
    for weighted in baskets {
        add_to_table(table, weighted.basket.items(), weighted.weight);
    }
}

/// Adds a weight at each of some items, no two of which are equal.
pub fn add_to_table(table: &mut [Slot], items: &[u32], weight: u64)
    requires distinct { IsDistinct nat_eq items.now }
    requires within { AllBelow (length table.old) items.now }
    requires fits { (item : ℕ) → IsTrue (has items.now item)
        → unwrap_or (slice_index_or table.old item None) 0 + weight + 1 < 2 ^ 64 }
    ensures { (item : ℕ) → slice_index_or table.new item None
        ≡ (if has items.now item
        then slot_with weight (slice_index_or table.old item None)
        else slice_index_or table.old item None) }
{
    for item in items {
        table[*item as usize].add(weight);
    }
}

/// Adds the supports of another table.
pub fn add_slots(table: &mut [Slot], more: &[Slot])
    requires within { length more.now ≤ length table.old }
    requires fits { (item : ℕ) → unwrap_or (slice_index_or table.old item None) 0 + unwrap_or (slice_index_or more.now item None) 0 ≤ MOST_WEIGHT }
    ensures { (item : ℕ) → slice_index_or table.new item None ≡ slots_joined (slice_index_or table.old item None) (slice_index_or more.now item None) }
{
    for (item, slot) in more.iter().enumerate() {
        if let Some(support) = slot.support() {
            table[item].add(support);
        }
    }
}

/// Puts each slot that has a name at the index of its name.
pub fn put_slots(table: &mut [Slot], slots: &[Slot], names: &[u32])
    requires { AllBelow (length table.old) names.now }
    ensures named { IsDistinct nat_eq names.now → (item : ℕ) → item < min (length slots.now) (length names.now)
        → slice_index_or table.new (slice_index_or names.now item 0) None ≡ slice_index_or slots.now item None }
    ensures others { (name : ℕ) → has (take (min (length slots.now) (length names.now)) names.now) name ≡ false → slice_index_or table.new name None ≡ slice_index_or table.old name None }
    ensures bounded { (most : ℕ) → ((item : ℕ) → unwrap_or (slice_index_or slots.now item None) 0 ≤ most) → ((item : ℕ) → unwrap_or (slice_index_or table.old item None) 0 ≤ most)
        → (item : ℕ) → unwrap_or (slice_index_or table.new item None) 0 ≤ most }
{
    for item in 0..slots.len().min(names.len()) {
        table[names[item] as usize] = slots[item];
    }
}

/// The numbers of the slots that are not empty, each with its support.
#[tactic(auto, using(std::proofs::lemmas::Grind::common_steps, crate::proofs::CountLemmas::entries_more, std::proofs::lemmas::List::get_or_default, crate::proofs::CountLemmas::entry_at))]
pub fn listed(alloc: Global, table: &[Slot]) -> Result<Vec<(u32, u64)>, AllocError>
    requires { length table.now ≤ 2 ^ 32 }
    ensures { IfOk result (λ entries. entries.items ≡ entries_of table.now) }
{
    let seen = table.iter().filter(|slot| slot.support().is_some()).count();
    let mut entries = Vec::with_capacity(alloc, seen)?;
    for (item, slot) in table.iter().enumerate() {
        if let Some(support) = slot.support() {
            entries.push((item as u32, support))?;
        }
    }
    Ok(entries)
}

/// Counts in a map, for baskets for which a table would have far more slots than items.
fn count_by_map(alloc: Global, baskets: &[Weighted]) -> Result<Vec<(u32, u64)>, AllocError>
    requires { total_of baskets.now ≤ MOST_WEIGHT }
    ensures { IfOk result (λ counts. counts.items ≡ item_supports baskets.now) }
{
    let mut supports = BTreeMap::new(alloc);
    for weighted in baskets {
        add_to_map(&mut supports, weighted.basket.items(), weighted.weight)?;
    }
    supports.into_iter().collect(alloc)
}

/// Adds a weight at each of some items, no two of which are equal.
#[tactic(auto, using(std::proofs::lemmas::Grind::common_steps, crate::proofs::theory::Rising::not_before, crate::proofs::theory::Rising::has_more))]
fn add_to_map(
    supports: &mut BTreeMap<u32, u64>,
    items: &[u32],
    weight: u64,
) -> Result<(), AllocError>
    requires distinct { IsDistinct nat_eq items.now }
    requires fits { (item : ℕ) → unwrap_or (get nat_cmp supports.old item) 0 + weight < 2 ^ 64 }
    ensures { OnOk result ((item : ℕ) → get nat_cmp supports.new item
        ≡ (if has items.now item
        then slot_with weight (get nat_cmp supports.old item)
        else get nat_cmp supports.old item)) }
{
    for item in items {
        *supports.entry(*item)?.or_insert(0) += weight;
    }
    Ok(())
}
