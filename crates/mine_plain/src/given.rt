//! Baskets that tests are given.
use basket_core::{Database, Itemset};
use std::alloc::{AllocError, Global};
use std::test::Fail;

/// The items of a set, and its count or weight.
pub type Row = (&'static [u32], u64);

/// Nine baskets of five items.
pub const NINE_BASKETS: &[Row] = &[
    (&[1, 2, 5], 1),
    (&[2, 4], 1),
    (&[2, 3], 1),
    (&[1, 2, 4], 1),
    (&[1, 3], 1),
    (&[2, 3], 1),
    (&[1, 3], 1),
    (&[1, 2, 3, 5], 1),
    (&[1, 2, 3], 1),
];

/// A database of the baskets, each with its weight.
pub fn database(alloc: Global, baskets: &[(&[u32], u64)]) -> Result<Database, Fail> {
    let mut database = Database::new(alloc);
    for (numbers, weight) in baskets {
        let basket = Itemset::from_items(alloc, numbers)?;
        let room = database.len() < Database::MAX_BASKETS
            && *weight <= Database::MAX_WEIGHT - database.total();
        if basket.is_empty() || *weight == 0 || !room {
            return Err(Fail::new(format_args!("{numbers:?} of weight {weight} is no basket")));
        }
        database.push(basket, *weight).map_err(|_| AllocError)?;
    }
    Ok(database)
}
