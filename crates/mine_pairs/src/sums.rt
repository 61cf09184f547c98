//! Supports of pairs of ranks.
ghost use Rattle.std.specs.Prelude.{◌≡◌, ◌≤◌, ◌<◌, ℕ, [], IfOk, OnOk, filter, length, map, replicate, slice_index};
ghost use Rattle.std.specs.List.{range_with_len};
ghost use Rattle.basket_sets.specs.Counts.{AllBelow};
ghost use Rattle.basket_sets.specs.Itemset.{rising};
ghost use Rattle.mine_baskets.specs.Baskets.{baskets_in};
ghost use Rattle.mine_pairs.specs.Sums.{AreSums, is_met, ranks_met, weight_with};

use crate::rank_list::RankList;
use basket_sets::Itemset;
use mine_baskets::{BASKETS_AHEAD, Baskets};
use std::alloc::{AllocError, Global};
use std::marker::Model;

/// A sum for each rank, used again from rank to rank, and by databases of fewer ranks.
pub struct Sums {
    /// A sum of 0 for each rank.
    sums: Vec<u64>,
    found: RankList,
}

impl Drop for Sums {
    fn drop(self) {
        let Sums { sums: _, found: _ } = self;
    }
}

impl Model for Sums {
    ghost use Rattle.std.specs.Prelude.{ℕ, [], ◌≡◌, length, replicate};

    ghost Value = { ℕ };

    ghost view = { λ s. length s.sums.items };

    ghost invariant = { λ s. (s.sums.items ≡ replicate (length s.sums.items) 0) × (s.found ≡ []) };
}

impl Sums {
    /// The sums for this many ranks.
    pub fn new(alloc: Global, count: u32) -> Result<Self, AllocError>
        ensures { IfOk result (λ sums. sums ≡ count) }
    {
        Ok(Sums {
            sums: vec![in alloc; 0; count as usize]?,
            found: RankList::new(alloc),
        })
    }

    /// The ranks that occur in baskets of at least this much weight, rising, each with that weight.
    pub fn of_baskets(
        &mut self,
        alloc: Global,
        baskets: Baskets<'_>,
        least: u64,
    ) -> Result<Vec<(u32, u64)>, AllocError>
        requires { baskets.count ≤ self.old }
        ensures met { IfOk result (λ met. met.items ≡ ranks_met self.old least (baskets_in baskets.entry)) }
        ensures sums { self.new ≡ self.old }
    {
        let summed = add_up(&mut self.sums, &mut self.found, baskets);
        let met = match summed {
            Ok(()) => met(alloc, &self.sums, self.found.items(), least),
            Err(error) => Err(error),
        };
        clear(&mut self.sums, &mut self.found);
        met
    }
}

/// Adds the weights of baskets to the sums of their ranks.
#[tactic(auto, using(std::proofs::lemmas::Grind::common_steps, crate::proofs::theory::Sums::weigh, crate::proofs::theory::Sums::sum_more))]
fn add_up(sums: &mut [u64], found: &mut RankList, baskets: Baskets<'_>) -> Result<(), AllocError>
    requires zero { sums.old ≡ replicate (length sums.old) 0 }
    requires none { found.old ≡ [] }
    requires few { baskets.count ≤ length sums.old }
    ensures sums { AreSums (length sums.old) sums.new found.new }
    ensures added { OnOk result ((rank : ℕ) → rank < length sums.old → slice_index sums.new rank ≡ weight_with rank (baskets_in baskets.entry)) }
{
    let mut end_ranks = [0u32; BASKETS_AHEAD];
    for index in 0..baskets.len() {
        if index % BASKETS_AHEAD == 0 {
            end_ranks = baskets.read_ahead(index);
        }
        let (basket, weight) = baskets.at(index);
        found.add_basket(sums, basket, weight, end_ranks[index % BASKETS_AHEAD])?;
    }
    Ok(())
}

/// The ranks whose sums are at least this much, with their sums.
pub fn met_in_order(alloc: Global, sums: &[u64], least: u64) -> Result<Vec<(u32, u64)>, AllocError>
    requires { length sums.now ≤ 4294967295 }
    ensures { IfOk result (λ pairs. pairs.items ≡ map (λ rank. (rank, slice_index sums.now rank)) (filter (λ rank. is_met least (slice_index sums.now rank)) (range_with_len 0 (length sums.now)))) }
{
    // Counted first, so that the list has just its room.
    let met = sums.iter().filter(|sum| **sum >= least.max(1)).count();
    let mut pairs = Vec::with_capacity(alloc, met)?;
    for (rank, sum) in sums.iter().enumerate() {
        if *sum >= 1 && *sum >= least {
            pairs.push((rank as u32, *sum))?;
        }
    }
    Ok(pairs)
}

/// Sets the sums of the listed ranks to 0; all others are 0 already.
fn clear(sums: &mut [u64], found: &mut RankList)
    requires { AreSums (length sums.old) sums.old found.old }
    ensures sums { sums.new ≡ replicate (length sums.old) 0 }
    ensures found { found.new ≡ [] }
{
    for rank in found.items() {
        sums[*rank as usize] = 0;
    }
    found.clear();
}

/// The listed ranks whose sums are at least this much, rising, with their sums.
fn met(
    alloc: Global,
    sums: &[u64],
    found: &[u32],
    least: u64,
) -> Result<Vec<(u32, u64)>, AllocError>
    requires { AreSums (length sums.now) sums.now found.now }
    ensures { IfOk result (λ pairs. pairs.items ≡ map (λ rank. (rank, slice_index sums.now rank)) (rising (filter (λ rank. is_met least (slice_index sums.now rank)) found.now))) }
{
    let mut kept = Vec::new(alloc);
    for rank in found {
        let sum = sums[*rank as usize];
        if sum >= 1 && sum >= least {
            kept.push(*rank)?;
        }
    }
    with_sums(alloc, sums, Itemset::from_items(alloc, &kept)?.items())
}

/// The ranks with their sums.
fn with_sums(alloc: Global, sums: &[u64], ranks: &[u32]) -> Result<Vec<(u32, u64)>, AllocError>
    requires { AllBelow (length sums.now) ranks.now }
    ensures { IfOk result (λ pairs. pairs.items ≡ map (λ rank. (rank, slice_index sums.now rank)) ranks.now) }
{
    let mut pairs = Vec::with_capacity(alloc, ranks.len())?;
    for rank in ranks {
        pairs.push((*rank, sums[*rank as usize]))?;
    }
    Ok(pairs)
}
