//! The frequent sets by their definition.
ghost use Rattle.std.specs.Prelude.{◌≡◌, IfOk, map};
ghost use Rattle.basket_sets.specs.Frequent.{frequent_of};
ghost use Rattle.basket_sets.specs.Support.{items_of};

use crate::subset::subsets;
use basket_core::{Counted, Database, Itemset, Minimum, count_items, support};
use std::alloc::{AllocError, Global};

/// The frequent sets by the plain definition, for small inputs: every subset of the items is
/// looked for in every basket.
pub fn plain_sets(
    alloc: Global,
    database: &Database,
    minimum: Minimum,
) -> Result<Vec<Counted>, AllocError>
    ensures { IfOk result (λ sets. sets.items ≡ frequent_of database.now minimum) }
{
    let total = database.total();
    let mut frequent = Vec::new(alloc);
    for set in subsets(alloc, &items(alloc, database)?)? {
        let count = support(database, &set);
        if minimum.met(count, total) {
            frequent.push(Counted { set, count })?;
        }
    }
    Ok(frequent)
}

/// The items of the baskets.
fn items(alloc: Global, database: &Database) -> Result<Itemset, AllocError>
    ensures { IfOk result (λ items. items ≡ items_of database.now) }
{
    let counts = count_items(alloc, database.baskets())?;
    Itemset::from_items(alloc, &without_supports(alloc, &counts)?)
}

/// The items without their supports.
fn without_supports(alloc: Global, counts: &[(u32, u64)]) -> Result<Vec<u32>, AllocError>
    ensures { IfOk result (λ items. items.items ≡ map (λ entry. entry.0) counts.now) }
{
    counts.iter().map(|(item, _)| *item).collect(alloc)
}
