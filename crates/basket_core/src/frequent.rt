ghost use Rattle.std.specs.Prelude.{◌≡◌, IfOk};
ghost use Rattle.std.specs.List.{flat_map};
ghost use Rattle.basket_ranks.specs.Codes.{baskets_of};
ghost use Rattle.basket_core.specs.Listing.{listing_of};
ghost use Rattle.basket_sets.specs.Frequent.{ListsOnce};

use basket_lists::CountedSets;
use basket_ranks::CodedItems;
use std::alloc::{AllocError, Global};
use std::marker::Model;
use std::thread::Threads;

/// The frequent sets of a database and a minimum, in report order.
#[derive(Debug, Drop)]
pub struct Frequent {
    sets: CountedSets,
    total: u64,
}

impl Model for Frequent {
    ghost use Rattle.basket_core.specs.Listing.{Listing};

    ghost Value = { Listing };

    ghost view = { λ frequent. record { sets = frequent.sets; total = frequent.total } };
}

impl Frequent {
    /// The list of the sets of all classes, which together have each frequent set once.
    pub fn of_classes(
        alloc: Global,
        coded: &CodedItems,
        classes: Vec<CountedSets>,
    ) -> Result<Self, AllocError>
        requires { ListsOnce (baskets_of coded.now) coded.now.minimum (flat_map (λ class. class) classes.items) }
        ensures { IfOk result (λ frequent. frequent ≡ listing_of coded.now) }
    {
        let mut sets = gathered(alloc, classes)?;
        sets.sort(alloc)?;
        Ok(Frequent {
            sets,
            total: coded.total(),
        })
    }

    /// The list of the sets of all classes, sorted by at most this many threads.
    pub fn of_classes_shared<R: Threads + Sync>(
        rt: &R,
        alloc: Global,
        coded: &CodedItems,
        classes: Vec<CountedSets>,
        threads: u32,
    ) -> Result<Self, AllocError>
        requires { ListsOnce (baskets_of coded.now) coded.now.minimum (flat_map (λ class. class) classes.items) }
        ensures { IfOk result (λ frequent. frequent ≡ listing_of coded.now) }
    {
        let mut sets = gathered(alloc, classes)?;
        sets.sort_shared(rt, alloc, threads)?;
        Ok(Frequent {
            sets,
            total: coded.total(),
        })
    }

    /// The list of sets that were counted elsewhere, in report order, and the weight of all baskets.
    pub fn of_counted(sets: CountedSets, total: u64) -> Self
        ensures { result ≡ record { sets = sets; total = total } }
    {
        Frequent { sets, total }
    }

    /// The sets with their supports.
    pub fn sets(&self) -> &CountedSets
        ensures { result.now ≡ self.now.sets }
    {
        &self.sets
    }

    /// The sets without the weight.
    pub fn into_sets(self) -> CountedSets
        ensures { result ≡ self.sets }
    {
        let Frequent { sets, .. } = self;
        sets
    }

    /// The weight of all baskets together.
    pub fn total(&self) -> u64
        ensures { result ≡ self.now.total }
    {
        self.total
    }
}

/// The sets of the classes, one class after another. The first class that has sets isn't copied,
/// and the room for the others is made when it is taken.
fn gathered(alloc: Global, classes: Vec<CountedSets>) -> Result<CountedSets, AllocError>
    ensures { IfOk result (λ sets. sets ≡ flat_map (λ class. class) classes.items) }
{
    let count = count_sets(&classes);
    let mut sets = CountedSets::empty(alloc)?;
    for class in classes {
        if !sets.is_empty() {
            sets.append(alloc, class)?;
        } else if !class.is_empty() {
            sets = class;
            sets.reserve(count.saturating_sub(sets.len()))?;
        }
    }
    Ok(sets)
}

/// How many sets the classes have together, or `usize::MAX` if they have more.
fn count_sets(classes: &[CountedSets]) -> usize {
    let mut count: usize = 0;
    for class in classes {
        count = count.saturating_add(class.len());
    }
    count
}
