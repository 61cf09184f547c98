//! Baskets as lists of ranks.
ghost use Rattle.std.specs.Prelude.{◌≡◌, ◌<◌, IfOk, length, slice_index_or};
ghost use Rattle.basket_sets.specs.Counts.{AllBelow};
ghost use Rattle.basket_sets.specs.Minimum.{IsLeastSupport};
ghost use Rattle.basket_sets.specs.Support.{total_of};
ghost use Rattle.basket_ranks.specs.Codes.{IsCoding, coding_of, decoded, merged_coding};

use crate::codes::Codes;
use basket_sets::{Database, Itemset, Minimum, Weighted, count_items, merged};
use std::alloc::{AllocError, Global};
use std::marker::Model;
use std::snapshot::Snapshot;

/// The items of coded baskets by rank, their minimum and their weight. The baskets themselves may be gone:
/// what is said of them holds all the same.
#[derive(Drop)]
pub struct CodedItems {
    items: Vec<u32>,
    minimum: Minimum,
    total: u64,
    baskets: Snapshot<Vec<Weighted>>,
}

impl Model for CodedItems {
    ghost use Rattle.std.specs.Prelude.{◌≡◌};
    ghost use Rattle.basket_ranks.specs.Codes.{Coding, IsCoding};
    ghost use Rattle.basket_sets.specs.Support.{total_of};

    ghost Value = { Coding };

    ghost view = { λ coded. record { items = coded.items.items; minimum = coded.minimum; baskets = coded.baskets.value.items } };

    ghost invariant = { λ coded. IsCoding (record { items = coded.items.items; minimum = coded.minimum; baskets = coded.baskets.value.items })
        × (coded.total ≡ total_of coded.baskets.value.items) };
}

impl CodedItems {
    /// How many ranks there are.
    pub fn ranks(&self) -> u32
        ensures { result ≡ length self.now.items }
    {
        self.items.len() as u32
    }

    pub fn minimum(&self) -> Minimum
        ensures { result ≡ self.now.minimum }
    {
        self.minimum
    }

    /// The weight of all baskets together.
    pub fn total(&self) -> u64
        ensures { result ≡ total_of self.now.baskets }
    {
        self.total
    }

    /// The least support that meets the minimum.
    pub fn least_support(&self) -> u64
        ensures { IsLeastSupport self.now.minimum (total_of self.now.baskets) result }
    {
        self.minimum.least(self.total)
    }

    /// The item of each rank.
    pub fn items(&self) -> &[u32]
        ensures items { result.now ≡ self.now.items }
        ensures coding { IsCoding self.now }
    {
        &self.items
    }

    /// The item of a rank.
    pub fn item(&self, rank: u32) -> u32
        requires { rank < length self.now.items }
        ensures { result ≡ slice_index_or self.now.items rank 0 }
    {
        self.items[rank as usize]
    }
}

/// The baskets of a database as ranks of their frequent items, one for each basket, which is
/// empty if it has no frequent item.
#[derive(Drop)]
pub struct Coded {
    known: CodedItems,
    baskets: Vec<Weighted>,
}

impl Model for Coded {
    ghost use Rattle.std.specs.Prelude.{◌≡◌};
    ghost use Rattle.basket_ranks.specs.Codes.{Coding};

    ghost Value = { Coding };

    ghost view = { λ coded. coded.known };

    ghost invariant = { λ coded. coded.known.baskets ≡ coded.baskets.items };
}

impl Coded {
    /// The baskets of the database as ranks of the items that are frequent in it.
    pub fn of(alloc: Global, database: &Database, minimum: Minimum) -> Result<Self, AllocError>
        ensures { IfOk result (λ coded. coded ≡ coding_of database.now minimum) }
    {
        let counts = count_items(alloc, database.baskets())?;
        Codes::of(alloc, &counts, database.total(), minimum)?.code(alloc, database)
    }

    /// Baskets of ranks of these items.
    pub(crate) fn new(items: Vec<u32>, minimum: Minimum, total: u64, baskets: Vec<Weighted>) -> Self
        requires coding { IsCoding (record { items = items.items; minimum = minimum; baskets = baskets.items }) }
        requires total { total ≡ total_of baskets.items }
        ensures { result ≡ record { items = items.items; minimum = minimum; baskets = baskets.items } }
    {
        let known = CodedItems {
            items,
            minimum,
            total,
            baskets: Snapshot::of(&baskets),
        };
        Coded { known, baskets }
    }

    /// The coding with each distinct basket of ranks once, where it first comes, with the sum of its
    /// weights. Baskets that differ only in infrequent items become one.
    pub fn merged(self, alloc: Global) -> Result<Self, AllocError>
        ensures { IfOk result (λ coded. coded ≡ merged_coding self) }
    {
        let Coded { known, baskets } = self;
        let baskets = merged(alloc, baskets)?;
        let CodedItems {
            items,
            minimum,
            total,
            baskets: _,
        } = known;
        Ok(Coded::new(items, minimum, total, baskets))
    }

    /// The baskets as ranks, in the order of the database.
    pub fn baskets(&self) -> &[Weighted]
        ensures baskets { result.now ≡ self.now.baskets }
        ensures coding { IsCoding self.now }
    {
        // Nothing is read here: the call brings its contract, which says what a coding is.
        let _ = self.known.items();
        &self.baskets
    }

    /// The items without the baskets, which stay.
    pub fn coded_items(&self) -> &CodedItems
        ensures { result.now ≡ self.now }
    {
        &self.known
    }

    /// The items without the baskets, whose memory is free then.
    pub fn into_items(self) -> CodedItems
        ensures { result ≡ self }
    {
        self.known
    }

    /// How many ranks there are.
    pub fn ranks(&self) -> u32
        ensures { result ≡ length self.now.items }
    {
        self.known.ranks()
    }

    pub fn minimum(&self) -> Minimum
        ensures { result ≡ self.now.minimum }
    {
        self.known.minimum()
    }

    /// The weight of all baskets together.
    pub fn total(&self) -> u64
        ensures { result ≡ total_of self.now.baskets }
    {
        self.known.total()
    }

    /// The item of each rank.
    pub fn items(&self) -> &[u32]
        ensures { result.now ≡ self.now.items }
    {
        self.known.items()
    }

    /// The set of the items of the ranks. It takes the room of the ranks.
    pub fn decode(&self, ranks: Itemset) -> Itemset
        requires { AllBelow (length self.now.items) ranks }
        ensures { result ≡ decoded self.now.items ranks }
    {
        ranks.renamed(self.known.items())
    }
}
