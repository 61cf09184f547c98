ghost use Rattle.std.specs.Prelude.{◌≡◌, ◌≢◌, ◌<◌, ◌≤◌, ◌+◌, ◌↔◌, [], ◌∷◌, ◌++◌, length, map, IsTrue, IfOk, IfErr, OnOk, OnErr};
ghost use Rattle.basket_sets.specs.Database.{IsDatabase, weighted, MOST_BASKETS, MOST_WEIGHT, merged_of, renamed_basket};
ghost use Rattle.basket_sets.specs.Itemset.{AllBelow};
ghost use Rattle.basket_sets.specs.Support.{all_items, support_of, total_of};

use crate::itemset::Itemset;
use crate::merge;
use crate::weighted::Weighted;
use std::alloc::{AllocError, AllocFailed, Global};
use std::marker::Model;

/// A list of nonempty baskets, each with its weight. Equal baskets may stand there several times.
#[derive(Debug, Drop)]
pub struct Database {
    baskets: Vec<Weighted>,
    total: u64,
}

impl Model for Database {
    ghost use Rattle.std.specs.Prelude.{List, ◌≡◌};
    ghost use Rattle.basket_sets.specs.declared.weighted.Weighted.{Weighted as Basket};
    ghost use Rattle.basket_sets.specs.Database.{IsDatabase};
    ghost use Rattle.basket_sets.specs.Support.{total_of};

    ghost Value = { List Basket };

    ghost view = { λ d. d.baskets.items };

    ghost invariant = { λ d. IsDatabase d.baskets.items × (d.total ≡ total_of d.baskets.items) };
}

impl Database {
    /// How many baskets a database has at most.
    pub const MAX_BASKETS: usize = 4_294_967_294;

    /// How much the baskets of a database weigh together at most.
    pub const MAX_WEIGHT: u64 = 1_099_511_627_775;

    /// The database without a basket.
    pub fn new(alloc: Global) -> Self
        ensures { result ≡ [] }
    {
        Database {
            baskets: Vec::new(alloc),
            total: 0,
        }
    }

    /// Adds a basket at the end. If memory runs out the basket comes back.
    pub fn push(&mut self, basket: Itemset, weight: u64) -> Result<(), Itemset>
        requires nonempty { basket ≢ [] }
        requires weighs { 1 ≤ weight }
        requires few { length self.old < MOST_BASKETS }
        requires light { total_of self.old + weight ≤ MOST_WEIGHT }
        ensures ok { OnOk result (self.new ≡ self.old ++ weighted basket weight ∷ []) }
        ensures err { OnErr result (self.new ≡ self.old) }
        ensures given_back { IfErr result (λ b. b ≡ basket) }
    {
        // Nothing is read here: the call brings its contract, which says that the items rise.
        let _items = basket.items();
        match self.baskets.push(Weighted { basket, weight }) {
            Ok(()) => {
                self.total += weight;
                Ok(())
            }
            Err(AllocFailed { value }) => {
                let Weighted { basket, weight: _ } = value;
                Err(basket)
            }
        }
    }

    /// Appends the baskets of another database. If memory runs out, nothing is added.
    pub fn append(&mut self, other: Database) -> Result<(), AllocError>
        requires few { length self.old + length other ≤ MOST_BASKETS }
        requires light { total_of self.old + total_of other ≤ MOST_WEIGHT }
        ensures ok { OnOk result (self.new ≡ self.old ++ other) }
        ensures err { OnErr result (self.new ≡ self.old) }
    {
        let Database { mut baskets, total } = other;
        self.baskets.append(&mut baskets)?;
        self.total += total;
        Ok(())
    }

    /// Replaces each item by its name. The list has the name of an item at the index of that item.
    pub fn rename(&mut self, names: &[u32])
        requires { AllBelow (length names.now) (all_items self.old) }
        ensures { self.new ≡ map (renamed_basket names.now) self.old }
    {
        rename_each(&mut self.baskets, names);
    }

    /// The baskets in the order in which they were added.
    pub fn baskets(&self) -> &[Weighted]
        ensures baskets { result.now ≡ self.now }
        ensures database { IsDatabase self.now }
    {
        &self.baskets
    }

    /// Takes all baskets out, and keeps their room.
    pub fn clear(&mut self)
        ensures { self.new ≡ [] }
    {
        self.baskets.clear();
        self.total = 0;
    }

    /// The baskets in the order in which they were added.
    pub fn into_baskets(self) -> Vec<Weighted>
        ensures baskets { result.items ≡ self }
        ensures database { IsDatabase self }
    {
        let Database { baskets, .. } = self;
        baskets
    }

    /// The number of baskets.
    pub fn len(&self) -> usize
        ensures { result ≡ length self.now }
    {
        self.baskets.len()
    }

    pub fn is_empty(&self) -> bool
        ensures { IsTrue result ↔ (self.now ≡ []) }
    {
        self.baskets.is_empty()
    }

    pub fn copied(&self, alloc: Global) -> Result<Database, AllocError>
        ensures { IfOk result (λ copy. copy ≡ self.now) }
    {
        Ok(Database {
            baskets: copied(alloc, self.baskets())?,
            total: self.total,
        })
    }

    /// Each distinct basket once, where it first comes, with the sum of its weights.
    #[tactic(auto, using(std::proofs::lemmas::Grind::common_steps, crate::proofs::MergeLemmas::merged_is_database, crate::proofs::theory::Merging::merging_keeps_supports))]
    pub fn merged(&self, alloc: Global) -> Result<Database, AllocError>
        ensures { IfOk result (λ merged. merged ≡ merged_of self.now) }
    {
        let baskets = copied(alloc, self.baskets())?;
        Ok(Database {
            baskets: merge::merged(alloc, baskets)?,
            total: self.total,
        })
    }

    /// The weight of all baskets together.
    pub fn total(&self) -> u64
        ensures { result ≡ total_of self.now }
    {
        self.total
    }
}

fn copied(alloc: Global, baskets: &[Weighted]) -> Result<Vec<Weighted>, AllocError>
    ensures { IfOk result (λ copy. copy.items ≡ baskets.now) }
{
    let mut copy = Vec::with_capacity(alloc, baskets.len())?;
    for weighted in baskets {
        copy.push(weighted.copied(alloc)?)?;
    }
    Ok(copy)
}

/// Replaces the items of each basket by their names.
fn rename_each(baskets: &mut [Weighted], names: &[u32])
    requires { AllBelow (length names.now) (all_items baskets.old) }
    ensures { baskets.new ≡ map (renamed_basket names.now) baskets.old }
{
    for index in 0..baskets.len() {
        baskets[index].basket.rename(names);
    }
}

/// The support of a set, by a scan of all baskets (Agrawal and Srikant 1994).
#[tactic(auto, using(std::proofs::lemmas::Grind::common_steps, std::proofs::lemmas::List::Sums::sum_by_more_le, crate::proofs::theory::Support::support_falls))]
pub fn support(database: &Database, set: &Itemset) -> u64
    ensures { result ≡ support_of database.now set.now }
{
    let mut support = 0;
    for weighted in database.baskets() {
        if weighted.basket.holds(set) {
            support += weighted.weight;
        }
    }
    support
}

/// What the baskets weigh together.
pub fn weight_of(baskets: &[Weighted]) -> u64
    requires { total_of baskets.now ≤ MOST_WEIGHT }
    ensures { result ≡ total_of baskets.now }
{
    let mut weight = 0;
    for weighted in baskets {
        weight += weighted.weight;
    }
    weight
}
