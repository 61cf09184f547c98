//! Ranks that are listed while their sums are added up.
ghost use Rattle.std.specs.Prelude.{◌≡◌, ◌≤◌, ◌<◌, ◌+◌, ℕ, [], OnOk, length, slice_index, take};
ghost use Rattle.basket_sets.specs.Counts.{AllBelow};
ghost use Rattle.basket_sets.specs.Database.{MOST_WEIGHT};
ghost use Rattle.basket_sets.specs.Itemset.{IsRising};
ghost use Rattle.mine_pairs.specs.Sums.{AreSums, WithBasket};

use crate::room::make_room;
use std::alloc::{AllocError, Global};
use std::marker::Model;

/// A list of ranks, with room after them that stays when it is cleared, so that a rank is written
/// with no test of the room.
#[derive(Drop)]
pub struct RankList {
    /// The ranks, and whatever was written into the room after them.
    ranks: Vec<u32>,
    count: usize,
}

impl Model for RankList {
    ghost use Rattle.std.specs.Prelude.{ℕ, List, ◌≤◌, length, take};

    ghost Value = { List ℕ };

    ghost view = { λ f. take f.count f.ranks.items };

    ghost invariant = { λ f. f.count ≤ length f.ranks.items };
}

impl RankList {
    /// Nothing is allocated.
    pub fn new(alloc: Global) -> Self
        ensures { result ≡ [] }
    {
        RankList {
            ranks: Vec::new(alloc),
            count: 0,
        }
    }

    /// The ranks, in the order in which they were listed.
    pub fn items(&self) -> &[u32]
        ensures { result.now ≡ self.now }
    {
        &self.ranks[..self.count]
    }

    /// Takes all ranks out.
    pub fn clear(&mut self)
        ensures { self.new ≡ [] }
    {
        self.count = 0;
    }

    /// Adds the weight of a basket to the sum of each of its ranks, and lists the ranks whose sums were 0.
    /// A rank near the basket was read before, which has a sum: it never asks for room.
    pub fn add_basket(
        &mut self,
        sums: &mut [u64],
        basket: &[u32],
        weight: u64,
        end_rank: u32,
    ) -> Result<(), AllocError>
        requires sums { AreSums (length sums.old) sums.old self.old }
        requires rises { IsRising basket.now }
        requires below { AllBelow (length sums.old) basket.now }
        requires light { (rank : ℕ) → rank < length sums.old → slice_index sums.old rank + weight ≤ MOST_WEIGHT }
        ensures sums { AreSums (length sums.old) sums.new self.new }
        ensures added { OnOk result (WithBasket basket.now weight sums.old sums.new) }
    {
        let no_sum = usize::from(end_rank as usize >= sums.len());
        make_room(&mut self.ranks, self.count, basket.len().max(no_sum))?;
        self.count = add_and_list(sums, &mut self.ranks, self.count, basket, weight);
        Ok(())
    }
}

/// Adds a weight to the sum of each rank of a basket, and puts the ranks whose sums were 0 after
/// the first ones of a list. Returns how many these are then. Each rank is written, and the next
/// one over it if its sum was not 0: which were can't be predicted, so a branch would cost more.
fn add_and_list(
    sums: &mut [u64],
    ranks: &mut [u32],
    count: usize,
    basket: &[u32],
    weight: u64,
) -> usize
    requires sums { AreSums (length sums.old) sums.old (take count ranks.old) }
    requires room { count + length basket.now ≤ length ranks.old }
    requires rises { IsRising basket.now }
    requires below { AllBelow (length sums.old) basket.now }
    requires light { (rank : ℕ) → rank < length sums.old → slice_index sums.old rank + weight ≤ MOST_WEIGHT }
    ensures sums { AreSums (length sums.old) sums.new (take result ranks.new) }
    ensures within { result ≤ length ranks.old }
    ensures added { WithBasket basket.now weight sums.old sums.new }
{
    let mut end = count;
    for rank in basket {
        let sum = &mut sums[*rank as usize];
        ranks[end] = *rank;
        end += usize::from(*sum == 0);
        *sum += weight;
    }
    end
}
