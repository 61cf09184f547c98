//! Coded baskets as a class call sees them.
ghost use Rattle.std.specs.Prelude.{◌≡◌, IfOk, length};
ghost use Rattle.basket_ranks.specs.Codes.{IsCoding};
ghost use Rattle.basket_sets.specs.Minimum.{IsLeastSupport};
ghost use Rattle.basket_sets.specs.Support.{total_of};
ghost use Rattle.mine_baskets.specs.ListBaskets.{HaveSameWeights};

use basket_core::{Coded, CodedItems, CountedSets};
use mine_baskets::ListBaskets;
use mine_pairs::Runs;
use std::alloc::{AllocError, Global};
use std::marker::Model;

/// Coded baskets with the runs of each rank, and the least support that meets their minimum.
pub struct Vertical<'a> {
    coded: &'a CodedItems,
    least: u64,
    runs: Runs,
    /// The empty list of itemsets, which knows the items.
    empty: CountedSets,
}

impl Drop for Vertical<'_> {
    fn drop(self) {
        let Vertical {
            coded: _,
            least: _,
            runs: _,
            empty: _,
        } = self;
    }
}

impl<'a> Model for Vertical<'a> {
    ghost use Rattle.basket_ranks.specs.Codes.{Coding};
    ghost use Rattle.mine_vertical.specs.Vertical.{IsVertical};

    ghost Value = { Coding };

    ghost view = { λ v. v.coded.now };

    ghost invariant = { λ v. IsVertical v.coded.now v.least v.runs };
}

impl<'a> Vertical<'a> {
    /// The coded baskets, which stay where they are.
    pub fn of(alloc: Global, coded: &'a Coded) -> Result<Self, AllocError>
        ensures { IfOk result (λ vertical. vertical ≡ coded.now) }
    {
        let lists = ListBaskets::of_coded(alloc, coded)?;
        Vertical::of_runs(alloc, coded.coded_items(), Runs::of(alloc, lists)?)
    }

    /// The coded baskets, by runs of them that were made before.
    pub fn of_runs(alloc: Global, coded: &'a CodedItems, runs: Runs) -> Result<Self, AllocError>
        requires ranks { runs.ranks ≡ length coded.now.items }
        requires weights { HaveSameWeights coded.now.baskets runs.baskets }
        ensures { IfOk result (λ vertical. vertical ≡ coded.now) }
    {
        let empty = CountedSets::new(alloc, coded.items(), coded.total())?;
        Ok(Vertical {
            coded,
            least: coded.least_support(),
            runs,
            empty,
        })
    }
}

impl Vertical<'_> {
    /// The items of the coded baskets.
    pub fn coded(&self) -> &CodedItems
        ensures coded { result.now ≡ self.now }
        ensures coding { IsCoding self.now }
    {
        self.coded
    }

    /// The least support that meets the minimum.
    pub fn least(&self) -> u64
        ensures { IsLeastSupport self.now.minimum (total_of self.now.baskets) result }
    {
        self.least
    }

    /// The empty list of itemsets, which knows the items.
    pub(crate) fn empty(&self) -> &CountedSets {
        &self.empty
    }

    /// The runs of each rank.
    pub(crate) fn runs(&self) -> &Runs
        ensures ranks { result.now.ranks ≡ length self.now.items }
        ensures weights { HaveSameWeights self.now.baskets result.now.baskets }
    {
        &self.runs
    }
}
