//! Baskets of ranks, one by one.
ghost use Rattle.std.specs.Prelude.{◌≡◌, ◌<◌, ◌≤◌, [], List, length, slice_index_or};
ghost use Rattle.basket_sets.specs.declared.weighted.Weighted.{Weighted as Basket};
ghost use Rattle.basket_sets.specs.Database.{MOST_WEIGHT, weighted};
ghost use Rattle.basket_sets.specs.Itemset.{IsRising};
ghost use Rattle.basket_sets.specs.Support.{total_of};

use basket_ranks::Coded;
use mine_baskets::ListBaskets;

/// Baskets of ranks, sorted or not, whose pairs are counted.
pub trait RankedBaskets {
    ghost baskets: { Self → List Basket };

    fn basket_count(&self) -> usize
        ensures { result ≡ length (baskets self.now) };

    /// The ranks of the basket at an index, which rise, and its weight.
    fn basket_at(&self, index: usize) -> (&[u32], u64)
        requires { index < length (baskets self.now) }
        ensures basket { weighted result.0.now result.1 ≡ slice_index_or (baskets self.now) index (weighted [] 0) }
        ensures rises { IsRising result.0.now }
        ensures light { total_of (baskets self.now) ≤ MOST_WEIGHT };
}

impl RankedBaskets for Coded {
    ghost baskets = { λ coded. coded.baskets };

    fn basket_count(&self) -> usize {
        self.baskets().len()
    }

    fn basket_at(&self, index: usize) -> (&[u32], u64) {
        let basket = &self.baskets()[index];
        (basket.basket.items(), basket.weight)
    }
}

impl RankedBaskets for ListBaskets {
    ghost baskets = { λ lists. lists.baskets };

    fn basket_count(&self) -> usize {
        self.len()
    }

    fn basket_at(&self, index: usize) -> (&[u32], u64) {
        self.view().at(index)
    }
}
