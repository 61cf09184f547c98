//! Apriori, level by level.
ghost use Rattle.std.specs.Prelude.{◌≡◌, ◌≢◌, ◌<◌, ◌≤◌, ◌+◌, [], ℕ, Err, IfOk, IfErr, length};
ghost use Rattle.mine_limit.specs.declared.fault.MineFault.TheVariants.{Memory, TooMany};
ghost use Rattle.basket_ranks.specs.Codes.{IsCoding, baskets_of};
ghost use Rattle.basket_core.specs.Listing.{listing_of};
ghost use Rattle.basket_sets.specs.Support.{items_of};
ghost use Rattle.mine_supports.specs.Extensions.{AreGrouped, sets_of};
ghost use Rattle.mine_supports.specs.Sizes.{IsRegular};
ghost use Rattle.mine_apriori.specs.Levels.{AreFound, AreTooMany, asked_of, level_of, wanted};
ghost use Rattle.mine_apriori.specs.Work.{candidate_count, candidates_of_size, candidates_up_to};

use crate::first_level::{FirstLevel, frequent_ranks};
use crate::joiner::{Alone, Joiner};
use basket_core::{Coded, CountedSets, Frequent};
use mine_limit::MineFault;
use mine_pairs::frequent_pairs;
use mine_supports::{Extensions, count_extensions};
use std::alloc::Global;
use std::marker::Model;
use std::thread::Threads;

/// A search for the frequent sets, level by level (Agrawal and Srikant 1994): a level is those of
/// one size. All frequent sets up to some size are found, and it asks for the supports of the
/// candidates of one more item.
#[derive(Drop)]
pub struct Levels<'a> {
    coded: &'a Coded,
    limit: u32,
    size: usize,
    found: CountedSets,
    asked: Extensions,
    counted: u64,
}

impl<'a> Model for Levels<'a> {
    ghost use Rattle.basket_ranks.specs.Codes.{IsCoding};
    ghost use Rattle.mine_apriori.specs.Levels.{Search, Knows};

    ghost Value = { Search };

    ghost view = { λ levels. record { coding = levels.coded.now; limit = levels.limit; size = levels.size } };

    ghost invariant = { λ levels. IsCoding levels.coded.now
        × Knows (record { coding = levels.coded.now; limit = levels.limit; size = levels.size }) levels.found levels.asked levels.counted };
}

impl<'a> Levels<'a> {
    /// The search that has found the frequent items. It ends in a fault once it has found more sets
    /// than the limit.
    #[tactic(auto, using(crate::proofs::WorkLemmas::none_of_one))]
    pub fn start(alloc: Global, coded: &'a Coded, limit: u32) -> Result<Self, MineFault>
        ensures ok { IfOk result (λ levels. levels ≡ record { coding = coded.now; limit = limit; size = 1 }) }
        ensures too_many { (most : ℕ) → result ≡ Err (TooMany most) → (most ≡ limit) × AreTooMany coded.now limit }
    {
        let (found, level) = frequent_ranks(alloc, coded)?;
        let known = KnownLevels {
            coded,
            size: 1,
            found,
            counted: 0,
        };
        known.ask(alloc, limit, &level, &Alone)
    }

    /// The search at its end, which asks for nothing more.
    #[tactic(auto, using(crate::proofs::LevelsLemmas::asks_more))]
    pub fn searched(alloc: Global, coded: &'a Coded, limit: u32) -> Result<Self, MineFault>
        ensures search { IfOk result (λ levels. (levels.coding ≡ coded.now) × (levels.limit ≡ limit)) }
        ensures done { IfOk result (λ levels. asked_of levels.coding levels.size ≡ []) }
        ensures too_many { (most : ℕ) → result ≡ Err (TooMany most) → (most ≡ limit) × AreTooMany coded.now limit }
    {
        let first = FirstLevel::of(alloc, coded, limit)?;
        let mut levels = first.with_pairs(alloc, &frequent_pairs(alloc, coded)?, &Alone)?;
        while !levels.asked().is_empty() {
            let counts = count_extensions(alloc, coded.baskets(), levels.asked())?;
            levels = levels.answer(alloc, &counts, &Alone)?;
        }
        Ok(levels)
    }

    /// The candidates whose supports are asked for, as ranks. If there are none, all frequent sets
    /// are found.
    #[tactic(auto, using(crate::proofs::LevelsLemmas::asks_more, crate::proofs::WorkLemmas::asked_are))]
    pub fn asked(&self) -> &Extensions
        ensures asked { sets_of result.now ≡ asked_of self.now.coding self.now.size }
        ensures candidates { sets_of result.now ≡ candidates_of_size self.now.coding.baskets self.now.coding.minimum (self.now.size + 1) }
        ensures regular { IsRegular (sets_of result.now) }
        ensures more { asked_of self.now.coding self.now.size ≢ [] → self.now.size < length (items_of self.now.coding.baskets) }
    {
        &self.asked
    }

    /// How many sets were asked for so far, including those that are asked for now.
    #[tactic(auto, using(crate::proofs::WorkLemmas::candidates_end, crate::proofs::ItemLemmas::as_many_candidates))]
    pub fn counted(&self) -> u64
        ensures so_far { result ≡ length (candidates_up_to self.now.coding.baskets self.now.coding.minimum (self.now.size + 1)) }
        ensures all { asked_of self.now.coding self.now.size ≡ [] → result ≡ candidate_count (baskets_of self.now.coding) self.now.coding.minimum }
    {
        self.counted
    }

    /// The search that goes on with the supports of what is asked for, in order.
    #[tactic(auto, using(crate::proofs::LevelsLemmas::asked_rise, crate::proofs::LevelsLemmas::asked_few))]
    pub fn answer<J: Joiner>(
        self,
        alloc: Global,
        counts: &[u64],
        joiner: &J,
    ) -> Result<Self, MineFault>
        requires ready { J.is_ready joiner.now }
        requires counts { counts.now ≡ wanted self }
        ensures next { asked_of self.entry.coding self.entry.size ≢ [] → IfOk result (λ levels. levels ≡ record { coding = self.entry.coding; limit = self.entry.limit; size = self.entry.size + 1 }) }
        ensures done { asked_of self.entry.coding self.entry.size ≡ [] → IfOk result (λ levels. levels ≡ self.entry) }
        ensures too_many { (most : ℕ) → result ≡ Err (TooMany most) → (most ≡ self.entry.limit) × AreTooMany self.entry.coding self.entry.limit }
    {
        if self.asked.is_empty() {
            return Ok(self);
        }
        let Levels {
            coded,
            limit,
            size,
            mut found,
            asked,
            counted,
        } = self;
        let level = joiner.add_frequent(alloc, coded, &asked, counts, &mut found)?;
        let known = KnownLevels {
            coded,
            size: size + 1,
            found,
            counted,
        };
        known.ask(alloc, limit, &level, joiner)
    }

    /// The list of all frequent sets. There are at most as many as the limit.
    pub fn finish(self, alloc: Global) -> Result<Frequent, MineFault>
        requires { asked_of self.coding self.size ≡ [] }
        ensures ok { IfOk result (λ frequent. frequent ≡ listing_of self.entry.coding) }
        ensures within { IfOk result (λ frequent. length frequent.sets ≤ self.entry.limit) }
        ensures err { IfErr result (λ fault. fault ≡ Memory) }
    {
        let Levels { coded, found, .. } = self;
        let classes = vec![in alloc; found]?;
        Ok(Frequent::of_classes(alloc, coded.coded_items(), classes)?)
    }

    /// The same list, sorted by at most this many threads.
    pub fn finish_shared<R: Threads + Sync>(
        self,
        rt: &R,
        alloc: Global,
        threads: u32,
    ) -> Result<Frequent, MineFault>
        requires { asked_of self.coding self.size ≡ [] }
        ensures ok { IfOk result (λ frequent. frequent ≡ listing_of self.entry.coding) }
        ensures within { IfOk result (λ frequent. length frequent.sets ≤ self.entry.limit) }
        ensures err { IfErr result (λ fault. fault ≡ Memory) }
    {
        let Levels { coded, found, .. } = self;
        let classes = vec![in alloc; found]?;
        Ok(Frequent::of_classes_shared(rt, alloc, coded.coded_items(), classes, threads)?)
    }
}

/// What a search knows once all frequent sets up to a size are found.
#[derive(Drop)]
pub(crate) struct KnownLevels<'a> {
    pub coded: &'a Coded,
    pub size: usize,
    pub found: CountedSets,
    /// How many sets of at most the size were asked for.
    pub counted: u64,
}

impl<'a> KnownLevels<'a> {
    /// The search that goes on from there, from the frequent sets of the size.
    #[tactic(auto, using(crate::proofs::LevelsLemmas::level_in_order, crate::proofs::LevelsLemmas::level_rises))]
    pub(crate) fn ask<J: Joiner>(
        self,
        alloc: Global,
        limit: u32,
        level: &Extensions,
        joiner: &J,
    ) -> Result<Levels<'a>, MineFault>
        requires ready { J.is_ready joiner.now }
        requires coding { IsCoding self.coded.now }
        requires some { 1 ≤ self.size }
        requires found { AreFound self.coded.now self.size self.found }
        requires level { sets_of level.now ≡ level_of self.coded.now self.size }
        requires grouped { AreGrouped level.now }
        requires counted { self.counted ≡ length (candidates_up_to self.coded.now.baskets self.coded.now.minimum self.size) }
        ensures ok { IfOk result (λ levels. levels ≡ record { coding = self.entry.coded.now; limit = limit; size = self.entry.size }) }
        ensures too_many { (most : ℕ) → result ≡ Err (TooMany most) → (most ≡ limit) × AreTooMany self.entry.coded.now limit }
    {
        let KnownLevels {
            coded,
            size,
            found,
            counted,
        } = self;
        if found.len() > limit as usize {
            return Err(MineFault::TooMany { limit });
        }
        let asked = joiner.candidates(alloc, level)?;
        let Some(counted) = counted.checked_add(asked.len() as u64) else {
            return Err(MineFault::Memory);
        };
        Ok(Levels {
            coded,
            limit,
            size,
            found,
            asked,
            counted,
        })
    }
}

/// The list of the frequent sets, if it is no longer than the limit, and the number of candidates
/// (Agrawal and Srikant 1994). No list of all pairs is made.
pub fn apriori(alloc: Global, coded: &Coded, limit: u32) -> Result<(Frequent, u64), MineFault>
    ensures ok { IfOk result (λ mined. mined.0 ≡ listing_of coded.now) }
    ensures candidates { IfOk result (λ mined. mined.1 ≡ candidate_count (baskets_of coded.now) coded.now.minimum) }
    ensures within { IfOk result (λ mined. length mined.0.sets ≤ limit) }
    ensures too_many { (most : ℕ) → result ≡ Err (TooMany most) → (most ≡ limit) × AreTooMany coded.now limit }
{
    let levels = Levels::searched(alloc, coded, limit)?;
    let candidates = levels.counted();
    Ok((levels.finish(alloc)?, candidates))
}
