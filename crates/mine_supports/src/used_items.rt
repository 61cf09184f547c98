//! The items that sets have, each with a number.
ghost use Rattle.std.specs.Prelude.{◌≡◌, ◌<◌, ℕ, List, false, IfOk, IsTrue, MatchOption, OnOk, filter, length, slice_index};
ghost use Rattle.basket_sets.specs.Itemset.{IsRising, has};
ghost use Rattle.mine_supports.specs.UsedItems.{AreMarked, AreNumbers, AreUsed};

use basket_sets::Itemset;
use std::alloc::{AllocError, Global};
use std::marker::Model;

/// There is a hint for each item below this at most.
const MOST_HINTS: usize = 65_536;

/// This many items may wait before repeated ones are left out.
const FEW_ITEMS: usize = 4_096;

/// The items that some sets have. An item's number is its index among them.
pub struct UsedItems {
    items: Itemset,
    /// For each item how many used ones are below it, as far as hints go. Hints are compared with what
    /// stands there, so that no contract tells what they say.
    hints: Vec<u32>,
}

impl Drop for UsedItems {
    fn drop(self) {
        let UsedItems { items: _, hints: _ } = self;
    }
}

impl Model for UsedItems {
    ghost use Rattle.std.specs.Prelude.{ℕ, List};

    ghost Value = { List ℕ };

    ghost view = { λ used. used.items };
}

impl UsedItems {
    /// The items of some sets and of some others.
    #[tactic(auto, using(crate::proofs::theory::UsedItems::has_rising))]
    pub fn of(alloc: Global, sets: &[Itemset], others: &[Itemset]) -> Result<Self, AllocError>
        ensures sets { IfOk result (AreUsed sets.now) }
        ensures others { IfOk result (AreUsed others.now) }
    {
        let mut numbers = Vec::new(alloc);
        add_items(alloc, sets, &mut numbers)?;
        add_items(alloc, others, &mut numbers)?;
        let items = Itemset::from_items(alloc, &numbers)?;
        let hints = hints_for(alloc, items.items())?;
        Ok(UsedItems { items, hints })
    }

    /// The items, rising.
    pub fn items(&self) -> &[u32]
        ensures items { result.now ≡ self.now }
        ensures rising { IsRising self.now }
    {
        self.items.items()
    }

    /// How long a table is that goes as far as the items and the hints.
    pub fn table_len(&self) -> usize {
        self.hints.len()
    }

    /// Puts the numbers of those of some items that are used into a list. The memory of the list is used again.
    pub fn put_numbers(&self, items: &[u32], numbers: &mut Vec<usize>) -> Result<(), AllocError>
        ensures { OnOk result (AreNumbers self.now items.now numbers.new.items) }
    {
        numbers.clear();
        for item in items {
            if let Some(number) = self.number(*item) {
                numbers.push(number)?;
            }
        }
        Ok(())
    }

    /// How many of some items are used.
    pub fn count(&self, items: &[u32]) -> usize
        ensures { result ≡ length (filter (has self.now) items.now) }
    {
        let mut count = 0;
        for item in items {
            if self.number(*item).is_some() {
                count += 1;
            }
        }
        count
    }

    /// The number of an item, if it is used.
    #[inline]
    #[tactic(auto, using(basket_sets::proofs::theory::Rising::found_at))]
    pub fn number(&self, item: u32) -> Option<usize>
        ensures { MatchOption result (has self.now item ≡ false) (λ number. (number < length self.now) × (slice_index self.now number ≡ item)) }
    {
        let items = self.items.items();
        let hint = match self.hints.get(item as usize) {
            Some(hint) => *hint as usize,
            None => items.len(),
        };
        if hint < items.len() && items[hint] == item {
            return Some(hint);
        }
        if is_missing(items, item, hint) {
            return None;
        }
        match items.binary_search(&item) {
            Ok(number) => Some(number),
            Err(_) => None,
        }
    }
}

/// Whether what stands before an index and at it shows that an item is missing.
#[inline]
#[tactic(auto, using(crate::proofs::theory::UsedItems::missing_at))]
fn is_missing(items: &[u32], item: u32, index: usize) -> bool
    requires { IsRising items.now }
    ensures { IsTrue result → has items.now item ≡ false }
{
    index <= items.len()
        && (index == 0 || items[index - 1] < item)
        && (index == items.len() || item < items[index])
}

/// Adds the items of the sets.
fn add_items(alloc: Global, sets: &[Itemset], items: &mut Vec<u32>) -> Result<(), AllocError>
    ensures sets { OnOk result (AreUsed sets.now items.new.items) }
    ensures more { OnOk result ((item : ℕ) → IsTrue (has items.old.items item) → IsTrue (has items.new.items item)) }
{
    let mut most = FEW_ITEMS;
    let mut are_added = no_marks(alloc)?;
    for set in sets {
        add_new(set.items(), &mut are_added, items)?;
        most = keep_distinct(alloc, items, most)?;
    }
    Ok(())
}

/// A mark for each item that can have a hint, which isn't set.
fn no_marks(alloc: Global) -> Result<Vec<bool>, AllocError>
    ensures { IfOk result (λ marks. (items : List ℕ) → AreMarked marks.items items) }
{
    Ok(vec![in alloc; false; MOST_HINTS]?)
}

/// Adds those of some items that aren't marked as added, and marks them as far as there are marks.
fn add_new(set: &[u32], are_added: &mut [bool], items: &mut Vec<u32>) -> Result<(), AllocError>
    requires { AreMarked are_added.old items.old.items }
    ensures marked { OnOk result (AreMarked are_added.new items.new.items) }
    ensures set { OnOk result ((item : ℕ) → IsTrue (has set.now item) → IsTrue (has items.new.items item)) }
    ensures more { OnOk result ((item : ℕ) → IsTrue (has items.old.items item) → IsTrue (has items.new.items item)) }
{
    for item in set {
        let index = *item as usize;
        if index >= are_added.len() {
            items.push(*item)?;
        } else if !are_added[index] {
            items.push(*item)?;
            are_added[index] = true;
        }
    }
    Ok(())
}

/// Leaves repeated items out if there are more items than this. Returns how many there may be before the next time.
#[tactic(auto, using(crate::proofs::theory::UsedItems::has_rising))]
fn keep_distinct(alloc: Global, items: &mut Vec<u32>, most: usize) -> Result<usize, AllocError>
    ensures { OnOk result ((item : ℕ) → has items.new.items item ≡ has items.old.items item) }
{
    if items.len() <= most {
        return Ok(most);
    }
    let distinct = Itemset::from_items(alloc, items)?;
    items.clear();
    items.extend_from_slice(distinct.items())?;
    Ok(items.len().saturating_mul(2).saturating_add(FEW_ITEMS))
}

/// For each item up to the greatest how many are below it, as far as hints go.
fn hints_for(alloc: Global, items: &[u32]) -> Result<Vec<u32>, AllocError> {
    let mut hints = Vec::new(alloc);
    let mut below = 0u32;
    for item in items {
        let len = (*item as usize + 1).min(MOST_HINTS);
        hints.resize(len, below)?;
        below = below.saturating_add(1);
    }
    Ok(hints)
}
