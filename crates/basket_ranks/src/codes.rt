//! The frequent items by rank.
ghost use Rattle.std.specs.Prelude.{◌≡◌, ◌<◌, ◌≤◌, List, IfOk, length, map, nat_eq, slice_index_or};
ghost use Rattle.std.specs.List.{IsDistinct};
ghost use Rattle.basket_sets.specs.Counts.{AllBelow};
ghost use Rattle.basket_ranks.specs.Codes.{coded_basket, coding_of, rank_of, ranking_of, ranks_of_counts};
ghost use Rattle.basket_sets.specs.Itemset.{IsRising};
ghost use Rattle.basket_sets.specs.Database.{IsDatabase};
ghost use Rattle.basket_sets.specs.declared.weighted.Weighted.{Weighted as Basket};
ghost use Rattle.basket_sets.specs.Support.{total_of};

use crate::coded::Coded;
use crate::ranks::{RankTable, ranked_items};
use basket_sets::{Database, Minimum, Renumbering, Weighted};
use std::alloc::{AllocError, Global};
use std::marker::Model;
use std::thread::{self, Threads};

/// The frequent items by rank: by falling support, those of one support by rising number.
#[derive(Drop)]
pub struct Codes {
    items: Vec<u32>,
    ranks: RankTable,
    minimum: Minimum,
    total: u64,
}

impl Model for Codes {
    ghost use Rattle.std.specs.Prelude.{nat_eq, length, ◌<◌};
    ghost use Rattle.std.specs.List.{IsDistinct};
    ghost use Rattle.basket_ranks.specs.Codes.{Ranking, MOST_RANKS};
    ghost use Rattle.basket_ranks.specs.Ranks.{IsRankTable};

    ghost Value = { Ranking };

    ghost view = { λ codes. record { items = codes.items.items; minimum = codes.minimum; total = codes.total } };

    ghost invariant = { λ codes. IsDistinct nat_eq codes.items.items × (length codes.items.items < MOST_RANKS) × IsRankTable codes.items.items codes.ranks };
}

impl Codes {
    /// The codes for the counts of items in a database of that total weight.
    pub fn of(
        alloc: Global,
        counts: &[(u32, u64)],
        total: u64,
        minimum: Minimum,
    ) -> Result<Self, AllocError>
        requires { IsRising (map (λ entry. entry.0) counts.now) }
        ensures { IfOk result (λ codes. codes ≡ record { items = ranks_of_counts counts.now total minimum; minimum = minimum; total = total }) }
    {
        let items = ranked_items(alloc, counts, total, &minimum)?;
        let ranks = RankTable::of(alloc, &items)?;
        Ok(Codes {
            items,
            ranks,
            minimum,
            total,
        })
    }

    /// The baskets of the database as ranks.
    pub fn code(self, alloc: Global, database: &Database) -> Result<Coded, AllocError>
        requires { self ≡ ranking_of database.now self.minimum }
        ensures { IfOk result (λ coded. coded ≡ coding_of database.now self.minimum) }
    {
        let mut baskets = database.copied(alloc)?.into_baskets();
        put_codes(&self, &mut baskets);
        Ok(self.with_baskets(baskets))
    }

    /// Codes the baskets by this many threads. The ranks take the room of the items.
    pub fn code_shared<R: Threads + Sync>(self, rt: &R, database: Database, threads: u32) -> Coded
        requires threads { 1 ≤ threads }
        requires database { self ≡ ranking_of database self.minimum }
        ensures { result ≡ coding_of database self.minimum }
    {
        let mut baskets = database.into_baskets();
        share_codes(rt, &self, &mut baskets, threads);
        self.with_baskets(baskets)
    }

    /// Replaces a basket's items by their ranks.
    #[tactic(auto, using(crate::proofs::CodeLemmas::coded_is))]
    fn put_ranks(&self, weighted: &mut Weighted)
        ensures { weighted.new ≡ coded_basket self.now.items weighted.old }
    {
        // Nothing is read here: the call brings its contract, which says that no item has two ranks.
        let _items = self.items();
        weighted.basket.renumber(self);
    }

    /// The item of each rank.
    fn items(&self) -> &[u32]
        ensures items { result.now ≡ self.now.items }
        ensures distinct { IsDistinct nat_eq self.now.items }
    {
        &self.items
    }

    /// The coding whose baskets are those of a database as ranks.
    fn with_baskets(self, baskets: Vec<Weighted>) -> Coded
        requires { (database : List Basket) × IsDatabase database × (self ≡ ranking_of database self.minimum) × (baskets.items ≡ map (coded_basket self.items) database) }
        ensures { result ≡ record { items = self.items; minimum = self.minimum; baskets = baskets.items } }
    {
        Coded::new(self.items, self.minimum, self.total, baskets)
    }
}

impl Renumbering for Codes {
    ghost name_of = { λ codes. rank_of codes.items };

    fn name(&self, number: u32) -> Option<u32> {
        self.ranks.rank(number)
    }
}

/// Replaces the items of each basket by their ranks.
fn put_codes(codes: &Codes, baskets: &mut [Weighted])
    ensures { baskets.new ≡ map (coded_basket codes.now.items) baskets.old }
{
    for index in 0..baskets.len() {
        codes.put_ranks(&mut baskets[index]);
    }
}

/// Replaces the items of each basket by their ranks, by this many threads.
fn share_codes<R: Threads + Sync>(rt: &R, codes: &Codes, baskets: &mut [Weighted], threads: u32)
    requires { 1 ≤ threads }
    ensures { baskets.new ≡ map (coded_basket codes.now.items) baskets.old }
{
    thread::for_each_mut(
        rt,
        baskets,
        threads as usize,
        &|_, weighted: &mut Weighted|
            ensures { weighted.exit.now ≡ coded_basket codes.entry.now.items weighted.entry.now }
        { codes.put_ranks(weighted) },
    );
}
