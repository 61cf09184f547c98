//! The covers of ranks: for each rank the indexes of the baskets that have it, their tids.
ghost use Rattle.std.specs.Prelude.{◌≡◌, [], IfOk, OnOk, length, replicate};
ghost use Rattle.basket_sets.specs.Counts.{AllBelow};
ghost use Rattle.basket_sets.specs.Itemset.{IsRising};
ghost use Rattle.mine_baskets.specs.Baskets.{rank_baskets};
ghost use Rattle.mine_baskets.specs.Covers.{AreCovers, HasTid, covers_in};

use crate::baskets::Baskets;
use std::alloc::{AllocError, Global};

/// How often each rank below a number occurs in a list: how much room its cover needs.
fn rank_counts(alloc: Global, count: usize, ranks: &[u32]) -> Result<Vec<usize>, AllocError>
    ensures { IfOk result (λ counts. length counts.items ≡ count) }
{
    let mut counts = vec![in alloc; 0usize; count]?;
    for rank in ranks {
        if let Some(times) = counts.get_mut(*rank as usize) {
            *times = times.saturating_add(1);
        }
    }
    Ok(counts)
}

/// An empty cover for each number, with room for this many tids.
fn no_covers(alloc: Global, counts: &[usize]) -> Result<Vec<Vec<u32>>, AllocError>
    ensures { IfOk result (λ covers. covers_in covers.items ≡ replicate (length counts.now) []) }
{
    let mut covers = Vec::with_capacity(alloc, counts.len())?;
    for times in counts {
        let cover = Vec::with_capacity(alloc, *times)?;
        covers.push(cover)?;
    }
    Ok(covers)
}

/// Adds a tid to the covers of the ranks of its basket.
fn add_tid(covers: &mut [Vec<u32>], tid: u32, basket: &[u32]) -> Result<(), AllocError>
    requires rises { IsRising basket.now }
    requires below { AllBelow (length covers.old) basket.now }
    ensures { OnOk result (HasTid tid basket.now (covers_in covers.old) (covers_in covers.new)) }
{
    for rank in basket {
        covers[*rank as usize].push(tid)?;
    }
    Ok(())
}

impl Baskets<'_> {
    /// The cover of each rank, in one pass over the baskets. More than 4,294,967,295 baskets count as
    /// out of memory.
    pub fn covers(self, alloc: Global) -> Result<Vec<Vec<u32>>, AllocError>
        ensures { IfOk result (λ covers. AreCovers (rank_baskets self.entry) covers.items) }
    {
        if self.len() > u32::MAX as usize {
            return Err(AllocError);
        }
        let counts = rank_counts(alloc, self.count as usize, self.ranks)?;
        let mut covers = no_covers(alloc, &counts)?;
        for tid in 0..self.len() {
            let (basket, _weight) = self.at(tid);
            add_tid(&mut covers, tid as u32, basket)?;
        }
        Ok(covers)
    }
}
