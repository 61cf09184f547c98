ghost use Rattle.std.specs.Prelude.{◌≡◌, ◌≤◌, ◌<◌, [], ◌↔◌, length, map, slice_index_or, IsTrue, IsOk, IfOk, Some, nat_eq};
ghost use Rattle.std.specs.Cmp.{partial_equiv_from_equiv};
ghost use Rattle.std.specs.Cmp.Lexicographic.{pointwise, nat_list_eq_equiv};
ghost use Rattle.std.specs.Hash as fed;
ghost use Rattle.std.specs.List.{IsDistinct, filter_map};
ghost use Rattle.std.specs.Ordering.{as_partial_cmp};
ghost use Rattle.std.proofs.Common.{refl};
ghost use Rattle.basket_sets.specs.Order.{report_order, report_order_total, report_order_ties, report_order_partial, items_fed_alike};
ghost use Rattle.basket_sets.specs.Itemset.{AllBelow, IsRising, has, contains, renamed_set, rising, spaced, with_item};
ghost use Rattle.basket_sets.specs.declared.itemset.TheConstants.{INLINE_ITEMS};

use crate::renumbering::{Renumbering, renumber};
use crate::short::put_in_order;
use smallvec::SmallVec;
use std::alloc::{AllocError, Global};
use std::cmp::Ordering;
use std::fmt;
use std::hash::{Hash, Hasher};
use std::marker::Model;

/// How many items a set keeps without an allocation of its own.
pub const INLINE_ITEMS: usize = 12;

/// Whether each number is below the next, as they are in most files.
pub fn is_rising(numbers: &[u32]) -> bool
    ensures { IsTrue result ↔ IsRising numbers.now }
{
    numbers.is_sorted_by(|number, next| number < next)
}

/// Whether no two numbers are equal. Each is compared with all before it.
#[tactic(auto, using(crate::proofs::theory::Rising::distinct_from_before))]
pub fn are_distinct(numbers: &[u32]) -> bool
    ensures { IsTrue result → IsDistinct nat_eq numbers.now }
{
    for (index, number) in numbers.iter().enumerate() {
        if numbers[..index].contains(number) {
            return false;
        }
    }
    true
}

/// Puts the numbers in rising order, each once.
fn put_rising(items: &mut SmallVec<u32, { INLINE_ITEMS }>)
    ensures { items.new.items ≡ rising items.old.items }
{
    if is_rising(items.as_slice()) {
        return;
    }
    if put_in_order(items.as_mut_slice()) {
        return;
    }
    items.as_mut_slice().sort_unstable();
    items.dedup();
}

/// Replaces each number by its name, which stands at the number's index.
pub fn rename(numbers: &mut [u32], names: &[u32])
    requires { AllBelow (length names.now) numbers.old }
    ensures { numbers.new ≡ map (λ number. slice_index_or names.now number 0) numbers.old }
{
    for index in 0..numbers.len() {
        numbers[index] = names[numbers[index] as usize];
    }
}

/// A set of items, as a strictly rising list of their numbers. It may be empty.
#[derive(Debug, Drop)]
pub struct Itemset {
    items: SmallVec<u32, { INLINE_ITEMS }>,
}

impl Model for Itemset {
    ghost use Rattle.std.specs.Prelude.{ℕ, List};
    ghost use Rattle.basket_sets.specs.Itemset.{AllBelow, IsRising};

    ghost Value = { List ℕ };

    ghost view = { λ set. set.items.items };

    ghost invariant = { λ set. IsRising set.items.items };
}

impl Itemset {
    /// The set of the numbers, which may come in any order and repeat.
    pub fn from_items(alloc: Global, numbers: &[u32]) -> Result<Self, AllocError>
        ensures ok { IfOk result (λ set. set ≡ rising numbers.now) }
        ensures short { length numbers.now ≤ INLINE_ITEMS → IsOk result }
    {
        let mut items = SmallVec::from_slice(alloc, numbers)?;
        put_rising(&mut items);
        Ok(Itemset { items })
    }

    /// Replaces the set by that of the names of its items. An item without a name is left out.
    pub fn renumber<N: Renumbering>(&mut self, names: &N)
        ensures { self.new ≡ rising (filter_map (N.name_of names.now) self.old) }
    {
        let len = renumber(self.items.as_mut_slice(), names);
        self.items.truncate(len);
        put_rising(&mut self.items);
    }

    /// Replaces the set by that of the names of its items. The list has the name of an item at the
    /// index of that item.
    pub fn rename(&mut self, names: &[u32])
        requires { AllBelow (length names.now) self.old }
        ensures { self.new ≡ renamed_set names.now self.old }
    {
        rename(self.items.as_mut_slice(), names);
        put_rising(&mut self.items);
    }

    /// The set of the names of the items. The list has the name of an item at the index of that
    /// item. It takes the room of the items.
    pub fn renamed(self, names: &[u32]) -> Self
        requires { AllBelow (length names.now) self }
        ensures { result ≡ rising (map (λ item. slice_index_or names.now item 0) self) }
    {
        let mut set = self;
        set.rename(names);
        set
    }

    /// The set with one item more, or the same if the item is in it.
    pub fn with(&self, alloc: Global, item: u32) -> Result<Self, AllocError>
        ensures ok { IfOk result (λ more. more ≡ with_item item self.now) }
        ensures short { length self.now < INLINE_ITEMS → IsOk result }
    {
        let mut items = SmallVec::from_slice(alloc, self.items.as_slice())?;
        if let Err(index) = self.items().binary_search(&item) {
            items.insert(index, item)?;
        }
        Ok(Itemset { items })
    }

    /// The items, strictly rising.
    pub fn items(&self) -> &[u32]
        ensures items { result.now ≡ self.now }
        ensures rising { IsRising self.now }
    {
        self.items.as_slice()
    }

    pub fn len(&self) -> usize
        ensures { result ≡ length self.now }
    {
        self.items.len()
    }

    pub fn is_empty(&self) -> bool
        ensures { IsTrue result ↔ (self.now ≡ []) }
    {
        self.items.is_empty()
    }

    /// Whether the item is in the set.
    pub fn contains(&self, item: u32) -> bool
        ensures { result ≡ has self.now item }
    {
        self.items().binary_search(&item).is_ok()
    }

    /// Whether every item of the other set is in this one.
    pub fn holds(&self, other: &Itemset) -> bool
        ensures { result ≡ contains self.now other.now }
    {
        other.items().iter().all(|item| self.contains(*item))
    }

    pub fn copied(&self, alloc: Global) -> Result<Self, AllocError>
        ensures same { IfOk result (λ copy. copy ≡ self.now) }
        ensures short { length self.now ≤ INLINE_ITEMS → IsOk result }
    {
        Ok(Itemset {
            items: SmallVec::from_slice(alloc, self.items.as_slice())?,
        })
    }
}

impl PartialEq for Itemset {
    ghost eq = { pointwise nat_eq };

    ghost laws = { partial_equiv_from_equiv nat_list_eq_equiv };

    fn eq(&self, other: &Self) -> bool {
        self.items() == other.items()
    }
}

impl Eq for Itemset {
    ghost laws = { nat_list_eq_equiv };
}

impl PartialOrd for Itemset {
    ghost partial_cmp = { as_partial_cmp report_order };

    ghost laws = { report_order_partial };

    fn partial_cmp(&self, other: &Self) -> Option<Ordering> {
        Some(self.cmp(other))
    }
}

/// Report order: smaller sets first, sets of one size lexicographically by item number.
impl Ord for Itemset {
    ghost cmp = { report_order };

    ghost total = { report_order_total };

    ghost matches_partial_cmp = { λ _ _. refl };

    ghost matches_eq = { report_order_ties };

    fn cmp(&self, other: &Self) -> Ordering {
        self.len()
            .cmp(&other.len())
            .then_with(|| self.items().cmp(&other.items()))
    }
}

impl Hash for Itemset {
    ghost hash_input = { fed.slice fed.u32 };

    ghost respects_eq = { items_fed_alike };

    fn hash<H: Hasher>(&self, state: &mut H) {
        self.items().hash(state);
    }
}

/// The items with one space between.
impl fmt::Display for Itemset {
    ghost output = { λ set. Some (spaced set) };

    fn fmt<W: fmt::Write>(&self, f: &mut fmt::Formatter<W>) -> fmt::Result {
        let Some((first, others)) = self.items().split_first() else {
            return Ok(());
        };
        write!(f, "{first}")?;
        for item in others {
            write!(f, " {item}")?;
        }
        Ok(())
    }
}
