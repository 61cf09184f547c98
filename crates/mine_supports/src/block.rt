//! A block of baskets, of which those that sets can be in have tids.
ghost use Rattle.std.specs.Prelude.{◌≡◌, ◌≤◌, [], ℕ, List, IfOk, IsTrue, length, map, take};
ghost use Rattle.basket_sets.specs.Database.{MOST_WEIGHT};
ghost use Rattle.basket_sets.specs.Itemset.{has};
ghost use Rattle.basket_sets.specs.Support.{total_of};
ghost use Rattle.mine_supports.specs.Needed.{needed};
ghost use Rattle.mine_supports.specs.TidWord.{AreTidsOf, IsRowOf};
ghost use Rattle.mine_supports.specs.Prefixes.{ArePrefixes};
ghost use Rattle.mine_supports.specs.Rows.{AreRows};

use crate::prefixes::Prefixes;
use crate::rows::Rows;
use crate::tid_words::{TidWord, WORD, add_tid};
use crate::used_items::UsedItems;
use basket_sets::Weighted;
use std::alloc::{AllocError, Global};

/// Baskets, of which those with enough used items have a tid, and the row of each item that is used.
pub struct Block<'a> {
    pub alloc: Global,
    pub baskets: &'a [Weighted],
    pub used: &'a UsedItems,
    pub least: usize,
    rows: Rows,
    tids: Vec<TidWord>,
    /// The baskets by tid, if they are listed.
    pub by_tid: Vec<&'a Weighted>,
    ghost by_tids: { 1 ≤ length by_tid.items → map (λ basket. basket.now) by_tid.items ≡ needed used.now least baskets.now },
    ghost rows_of: { AreRows used.now (needed used.now least baskets.now) rows },
    ghost tids_of: { AreTidsOf (needed used.now least baskets.now) [] tids.items },
    ghost light: { total_of (needed used.now least baskets.now) ≤ MOST_WEIGHT },
}

impl Drop for Block<'_> {
    fn drop(self) {
        let Block {
            alloc: _,
            baskets: _,
            used: _,
            least: _,
            rows: _,
            tids: _,
            by_tid: _,
        } = self;
    }
}

impl<'a> Block<'a> {
    /// The block of the first of some baskets: it has this many tids at most. A basket with fewer used items than
    /// `least` has none, since it contains no set of so many. The baskets are listed by tid if that is asked for.
    pub fn of(
        alloc: Global,
        used: &'a UsedItems,
        least: usize,
        baskets: &'a [Weighted],
        most: usize,
        is_listed: bool,
    ) -> Result<Self, AllocError>
        requires most { 1 ≤ most }
        requires light { total_of baskets.now ≤ MOST_WEIGHT }
        ensures baskets { IfOk result (λ block. block.baskets.now ≡ take (length block.baskets.now) baskets.now) }
        ensures some { IfOk result (λ block. 1 ≤ length baskets.now → 1 ≤ length block.baskets.now) }
        ensures used { IfOk result (λ block. (block.used.now ≡ used.now) × (block.least ≡ least)) }
    {
        let mut rows = Rows::with_room(alloc, used, most.min(baskets.len()))?;
        let (mut tids, mut numbers) = (Vec::new(alloc), Vec::new(alloc));
        let (mut read, mut len, mut start) = (0, 0, 0);
        while read < baskets.len() && len < most {
            let basket = &baskets[read];
            used.put_numbers(basket.basket.items(), &mut numbers)?;
            if numbers.len() >= least {
                if len % WORD == 0 {
                    start = tids.len();
                }
                rows.push(len, &numbers);
                add_tid(&mut tids, start, len, basket.weight)?;
                len += 1;
            }
            read += 1;
        }
        let baskets = &baskets[..read];
        let by_tid = match is_listed {
            true => listed(alloc, used, least, baskets)?,
            false => Vec::new(alloc),
        };
        Ok(Block {
            alloc,
            baskets,
            used,
            least,
            rows,
            tids,
            by_tid,
        })
    }

    /// The prefix without items, from which those of sets are found.
    pub fn prefixes(&self) -> Result<Prefixes, AllocError>
        ensures { IfOk result (λ prefixes. (items : List ℕ) → ArePrefixes (needed self.now.used.now self.now.least self.now.baskets.now) items prefixes.lists.items) }
    {
        Prefixes::of(self.alloc, self.tids.to_vec(self.alloc)?)
    }

    /// The row of an item.
    #[inline]
    pub fn row(&self, item: u32) -> &[u64]
        requires { IsTrue (has self.now.used.now item) }
        ensures { IsRowOf (needed self.now.used.now self.now.least self.now.baskets.now) item result.now }
    {
        let Some(number) = self.used.number(item) else {
            unreachable!()
        };
        self.rows.row(number)
    }
}

/// Those of some baskets that have this many used items at least.
fn listed<'a>(
    alloc: Global,
    used: &UsedItems,
    least: usize,
    baskets: &'a [Weighted],
) -> Result<Vec<&'a Weighted>, AllocError>
    ensures { IfOk result (λ listed. map (λ basket. basket.now) listed.items ≡ needed used.now least baskets.now) }
{
    let mut listed = Vec::new(alloc);
    for basket in baskets {
        if used.count(basket.basket.items()) >= least {
            listed.push(basket)?;
        }
    }
    Ok(listed)
}
