//! The first level of Apriori, and the second, which is made of pairs.
ghost use Rattle.std.specs.Prelude.{◌≡◌, ℕ, Err, IfOk, OnOk};
ghost use Rattle.mine_limit.specs.declared.fault.MineFault.TheVariants.{TooMany};
ghost use Rattle.basket_ranks.specs.Codes.{IsCoding};
ghost use Rattle.mine_supports.specs.Extensions.{AreGrouped, sets_of};
ghost use Rattle.mine_apriori.specs.Levels.{AreFound, AreTooMany, level_of};
ghost use Rattle.mine_pairs.specs.Pairs.{ArePairs, lists_of};

use crate::joiner::{Alone, Joiner};
use crate::levels::{KnownLevels, Levels};
use crate::pairs::{pair_sets, sorted_pairs};
use basket_core::{Coded, CountedSets, count_items};
use mine_limit::MineFault;
use mine_pairs::pair_count;
use mine_supports::Extensions;
use std::alloc::{AllocError, Global};
use std::marker::Model;

/// The frequent sets of one rank, as items with their supports and as ranks.
#[tactic(auto, using(basket_sets::proofs::theory::Rising::nil_rises))]
pub fn frequent_ranks(alloc: Global, coded: &Coded) -> Result<(CountedSets, Extensions), AllocError>
    ensures found { IfOk result (λ first. AreFound coded.now 1 first.0) }
    ensures level { IfOk result (λ first. sets_of first.1 ≡ level_of coded.now 1) }
    ensures grouped { IfOk result (λ first. AreGrouped first.1) }
    ensures coding { OnOk result (IsCoding coded.now) }
{
    let mut ranks = Vec::new(alloc);
    let mut counts = Vec::new(alloc);
    for (rank, count) in &count_items(alloc, coded.baskets())? {
        ranks.push(*rank)?;
        counts.push(*count)?;
    }
    let sets = Extensions::new(alloc).with_items(alloc, &[], &ranks)?;
    let mut found = CountedSets::new(alloc, coded.items(), coded.total())?;
    let level = Alone.add_frequent(alloc, coded, &sets, &counts, &mut found)?;
    Ok((found, level))
}

/// The frequent items, from which a search goes on once the frequent pairs are known.
#[derive(Drop)]
pub struct FirstLevel<'a> {
    coded: &'a Coded,
    limit: u32,
    found: CountedSets,
}

impl<'a> Model for FirstLevel<'a> {
    ghost use Rattle.std.specs.Prelude.{◌≤◌, length};
    ghost use Rattle.basket_ranks.specs.Codes.{IsCoding};
    ghost use Rattle.mine_supports.specs.Extensions.{AreGrouped, sets_of};
    ghost use Rattle.mine_apriori.specs.Levels.{AreFound, Search};

    ghost Value = { Search };

    ghost view = { λ first. record { coding = first.coded.now; limit = first.limit; size = 1 } };

    ghost invariant = { λ first. IsCoding first.coded.now × AreFound first.coded.now 1 first.found × (length first.found ≤ first.limit) };
}

impl<'a> FirstLevel<'a> {
    /// The frequent items, if they are no more than the limit.
    pub fn of(alloc: Global, coded: &'a Coded, limit: u32) -> Result<Self, MineFault>
        ensures ok { IfOk result (λ first. first ≡ record { coding = coded.now; limit = limit; size = 1 }) }
        ensures too_many { (most : ℕ) → result ≡ Err (TooMany most) → (most ≡ limit) × AreTooMany coded.now limit }
    {
        let (found, _level) = frequent_ranks(alloc, coded)?;
        if found.len() > limit as usize {
            return Err(MineFault::TooMany { limit });
        }
        Ok(FirstLevel {
            coded,
            limit,
            found,
        })
    }

    /// The search that has found the frequent items and pairs. For each rank the pairs are the
    /// ranks below it that are frequent together with it, each with the support of the pair.
    pub fn with_pairs<J: Joiner>(
        self,
        alloc: Global,
        pairs: &[Vec<(u32, u64)>],
        joiner: &J,
    ) -> Result<Levels<'a>, MineFault>
        requires ready { J.is_ready joiner.now }
        requires pairs { ArePairs self.coding (lists_of pairs.now) }
        ensures ok { IfOk result (λ levels. levels ≡ record { coding = self.entry.coding; limit = self.entry.limit; size = 2 }) }
        ensures too_many { (most : ℕ) → result ≡ Err (TooMany most) → (most ≡ self.entry.limit) × AreTooMany self.entry.coding self.entry.limit }
    {
        let FirstLevel {
            coded,
            limit,
            mut found,
        } = self;
        let counted = pair_count(found.len() as u32) as u64;
        let pairs = sorted_pairs(alloc, coded, pairs)?;
        let (sets, counts) = pair_sets(alloc, &pairs)?;
        let level = joiner.add_frequent(alloc, coded, &sets, &counts, &mut found)?;
        let known = KnownLevels {
            coded,
            size: 2,
            found,
            counted,
        };
        known.ask(alloc, limit, &level, joiner)
    }
}
