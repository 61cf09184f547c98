//! What finds the frequent sets of a level and joins them.
ghost use Rattle.std.specs.Prelude.{◌≡◌, ◌++◌, ⊤, All, IfOk, OnOk, filter, map};
ghost use Rattle.basket_ranks.specs.Codes.{IsCoding};
ghost use Rattle.basket_sets.specs.Frequent.{is_frequent};
ghost use Rattle.basket_sets.specs.Itemset.{IsRising};
ghost use Rattle.basket_sets.specs.Order.{IsInReportOrder};
ghost use Rattle.basket_sets.specs.Support.{support_of};
ghost use Rattle.mine_apriori.specs.Candidates.{candidates_of};
ghost use Rattle.mine_apriori.specs.Levels.{decoded_sets};
ghost use Rattle.mine_supports.specs.Extensions.{AreGrouped, kept, sets_of};

use crate::frequent::add_frequent;
use crate::join::candidates;
use basket_core::{Coded, CountedSets};
use mine_supports::Extensions;
use std::alloc::{AllocError, Global};

/// What finds the frequent sets of a level and joins them.
pub trait Joiner {
    // Whether threads may share it, where it has threads.
    ghost is_ready: { Self → Type 0 };

    /// Adds those of the sets that are frequent to those found, as items and with their supports.
    /// Returns them as ranks.
    fn add_frequent(
        &self,
        alloc: Global,
        coded: &Coded,
        sets: &Extensions,
        counts: &[u64],
        found: &mut CountedSets,
    ) -> Result<Extensions, AllocError>
        requires ready { is_ready self.now }
        requires coding { IsCoding coded.now }
        requires rising { All IsRising (sets_of sets.now) }
        requires counts { counts.now ≡ map (support_of coded.now.baskets) (sets_of sets.now) }
        ensures level { IfOk result (λ level. level ≡ kept (is_frequent coded.now.baskets coded.now.minimum) sets.now) }
        ensures found { OnOk result (found.new ≡ found.old ++ decoded_sets coded.now (filter (is_frequent coded.now.baskets coded.now.minimum) (sets_of sets.now))) };

    /// The candidates that are joined from a level.
    fn candidates(&self, alloc: Global, level: &Extensions) -> Result<Extensions, AllocError>
        requires ready { is_ready self.now }
        requires grouped { AreGrouped level.now }
        requires in_order { IsInReportOrder (sets_of level.now) }
        requires rising { All IsRising (sets_of level.now) }
        ensures candidates { IfOk result (λ found. sets_of found ≡ candidates_of (sets_of level.now)) }
        ensures grouped { IfOk result AreGrouped };
}

/// The calling thread.
#[derive(Clone, Copy)]
pub struct Alone;

impl Joiner for Alone {
    ghost is_ready = { λ _. ⊤ };

    fn add_frequent(
        &self,
        alloc: Global,
        coded: &Coded,
        sets: &Extensions,
        counts: &[u64],
        found: &mut CountedSets,
    ) -> Result<Extensions, AllocError> {
        add_frequent(alloc, coded, sets, sets.range(), counts, found)
    }

    fn candidates(&self, alloc: Global, level: &Extensions) -> Result<Extensions, AllocError> {
        candidates(alloc, level)
    }
}
