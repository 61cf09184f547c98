//! Sets as prefixes and the items that extend them.
ghost use Rattle.std.specs.Prelude.{◌≡◌, ◌≤◌, ◌++◌, ◌∷◌, ◌↔◌, [], All, IfOk, IsTrue, filter, length, slice_range};
ghost use Rattle.std.specs.List.{flat_map};
ghost use Rattle.basket_sets.specs.Itemset.{IsRising};
ghost use Rattle.mine_supports.specs.Extensions.{AreGrouped, has_items, is_some, lists_of, prefixes_of, sets_of};
ghost use Rattle.mine_supports.specs.Needed.{AreAtLeast};
ghost use Rattle.mine_supports.specs.Sizes.{AreOfOneSize, IsRegular};

use crate::prefix_range::PrefixRange;
use crate::rising::{least_of, rises};
use basket_sets::Itemset;
use std::alloc::{AllocError, Global};
use std::marker::Model;

/// Sets, each as all of its items except the last, which are its prefix, and the last. Sets in a row that share their
/// prefix have it once.
pub struct Extensions {
    prefixes: Vec<Itemset>,
    /// For each prefix the items that extend it.
    lists: Vec<Itemset>,
    /// The number of sets.
    len: usize,
}

impl Drop for Extensions {
    fn drop(self) {
        let Extensions {
            prefixes: _,
            lists: _,
            len: _,
        } = self;
    }
}

impl Model for Extensions {
    ghost use Rattle.std.specs.Prelude.{◌≡◌, List, length};
    ghost use Rattle.mine_supports.specs.Extensions.{Group, groups_of, sets_of};

    ghost Value = { List Group };

    ghost view = { λ extensions. groups_of extensions.prefixes.items extensions.lists.items };

    ghost invariant = { λ extensions. (length extensions.lists.items ≡ length extensions.prefixes.items)
        × (extensions.len ≡ length (sets_of (groups_of extensions.prefixes.items extensions.lists.items))) };
}

impl Extensions {
    /// No sets.
    pub fn new(alloc: Global) -> Self
        ensures { result ≡ [] }
    {
        Extensions {
            prefixes: Vec::new(alloc),
            lists: Vec::new(alloc),
            len: 0,
        }
    }

    /// The sets that have items. Sets with one prefix and rising last items are best in a row, as in report order.
    #[tactic(auto, using(std::proofs::lemmas::Grind::common_steps, crate::proofs::theory::Grouped::all_grouped))]
    pub fn of_sets(alloc: Global, sets: &[Itemset]) -> Result<Self, AllocError>
        ensures sets { IfOk result (λ extensions. sets_of extensions ≡ filter is_some sets.now) }
        ensures rising { IfOk result (λ extensions. All IsRising (sets_of extensions)) }
        ensures all { AreOfOneSize sets.now → IfOk result (λ extensions. sets_of extensions ≡ sets.now) }
        ensures grouped { IsRegular sets.now → IfOk result AreGrouped }
    {
        let mut found = Extensions::new(alloc);
        let mut prefix: &[u32] = &[];
        let mut items = Vec::new(alloc);
        for set in sets {
            if let Some((last, first)) = set.items().split_last() {
                if first != prefix || !rises(&items, *last) {
                    found = found.with_items(alloc, prefix, &items)?;
                    prefix = first;
                    items.clear();
                }
                items.push(*last)?;
            }
        }
        found.with_items(alloc, prefix, &items)
    }

    /// The sets, and then those of one more prefix, which is left out if nothing extends it.
    #[tactic(auto, using(crate::proofs::theory::Extensions::groups_append, crate::proofs::theory::Extensions::long_push, crate::proofs::theory::Extensions::rising_again))]
    pub fn with_items(
        self,
        alloc: Global,
        prefix: &[u32],
        items: &[u32],
    ) -> Result<Self, AllocError>
        requires prefix { IsRising prefix.now }
        requires items { IsRising items.now }
        ensures { IfOk result (λ more. more ≡ self ++ filter has_items (record { prefix = prefix.now; items = items.now } ∷ [])) }
    {
        if items.is_empty() {
            return Ok(self);
        }
        let Extensions {
            mut prefixes,
            mut lists,
            len,
        } = self;
        let Some(len) = len.checked_add(items.len()) else {
            return Err(AllocError);
        };
        prefixes.push(Itemset::from_items(alloc, prefix)?)?;
        lists.push(Itemset::from_items(alloc, items)?)?;
        Ok(Extensions {
            prefixes,
            lists,
            len,
        })
    }

    /// The sets of all parts, one part after another.
    pub fn of_parts(alloc: Global, parts: Vec<Extensions>) -> Result<Self, AllocError>
        ensures { IfOk result (λ all. all ≡ flat_map (λ part. part) parts.items) }
    {
        let mut all = Extensions::new(alloc);
        all.reserve(count_prefixes(&parts))?;
        for part in parts {
            all = all.followed_by(part)?;
        }
        Ok(all)
    }

    /// Makes room for this many more prefixes.
    fn reserve(&mut self, more: usize) -> Result<(), AllocError>
        ensures { self.new ≡ self.old }
    {
        self.prefixes.reserve_exact(more)?;
        self.lists.reserve_exact(more)?;
        Ok(())
    }

    /// The sets, and then others.
    #[tactic(auto, using(crate::proofs::theory::Extensions::groups_append, crate::proofs::theory::Extensions::long_append))]
    fn followed_by(self, others: Extensions) -> Result<Self, AllocError>
        ensures { IfOk result (λ all. all ≡ self ++ others) }
    {
        let Extensions {
            mut prefixes,
            mut lists,
            len,
        } = self;
        let Extensions {
            prefixes: mut more_prefixes,
            lists: mut more_lists,
            len: more,
        } = others;
        let Some(len) = len.checked_add(more) else {
            return Err(AllocError);
        };
        prefixes.append(&mut more_prefixes)?;
        lists.append(&mut more_lists)?;
        Ok(Extensions {
            prefixes,
            lists,
            len,
        })
    }

    /// The number of sets.
    pub fn len(&self) -> usize
        ensures { result ≡ length (sets_of self.now) }
    {
        self.len
    }

    pub fn is_empty(&self) -> bool
        ensures { IsTrue result ↔ (sets_of self.now ≡ []) }
    {
        self.len == 0
    }

    /// A number of items that each of the sets has at least.
    pub fn least_items(&self) -> usize
        ensures { AreAtLeast result (sets_of self.now) }
    {
        let mut least = usize::MAX;
        for (number, items) in self.lists.iter().enumerate() {
            least = least.min(least_of(self.prefixes[number].items(), items.items()));
        }
        least
    }

    /// The prefixes.
    #[tactic(auto, using(crate::proofs::theory::Extensions::prefixes_back))]
    pub fn prefixes(&self) -> &[Itemset]
        ensures { result.now ≡ prefixes_of self.now }
    {
        &self.prefixes
    }

    /// For each prefix the items that extend it.
    #[tactic(auto, using(crate::proofs::theory::Extensions::lists_back))]
    pub fn lists(&self) -> &[Itemset]
        ensures { result.now ≡ lists_of self.now }
    {
        &self.lists
    }

    /// How many sets some of the prefixes have.
    pub fn count_in(&self, range: PrefixRange) -> usize
        requires { range.end ≤ length self.now }
        ensures { result ≡ length (sets_of (slice_range self.now range.start range.end)) }
    {
        // The count is no greater than that of all sets, which fits.
        let _all = self.len;
        let mut count = 0;
        for index in range.start..range.end {
            count += self.lists[index].len();
        }
        count
    }

    /// All prefixes.
    #[tactic(auto, using(crate::proofs::theory::Extensions::groups_long))]
    pub fn range(&self) -> PrefixRange
        ensures { (result.start ≡ 0) × (result.end ≡ length self.now) }
    {
        PrefixRange::new(0, self.prefixes().len())
    }
}

/// How many prefixes the parts have together, or `usize::MAX` if they have more.
fn count_prefixes(parts: &[Extensions]) -> usize {
    let mut count: usize = 0;
    for part in parts {
        count = count.saturating_add(part.prefixes.len());
    }
    count
}
