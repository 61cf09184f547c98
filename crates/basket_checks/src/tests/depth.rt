use super::{NINE_BASKETS, database};
use basket_core::{Coded, Minimum, deep};
use std::alloc::{AllocError, Global};
use std::test::Fail;

/// Whether a set of one item is told of, one of two, of three and of four.
fn depths(alloc: Global, coded: &Coded) -> Result<[bool; 4], AllocError> {
    Ok([
        deep(alloc, coded, 1)?,
        deep(alloc, coded, 2)?,
        deep(alloc, coded, 3)?,
        deep(alloc, coded, 4)?,
    ])
}

/// The depths of the nine baskets at a count of 2.
fn nine_depths(alloc: Global) -> Result<[bool; 4], Fail> {
    let database = database(alloc, NINE_BASKETS)?;
    let coded = Coded::of(alloc, &database, Minimum::Count(2))?;
    Ok(depths(alloc, &coded)?)
}

/// The items 2, 1 and 3 are the first ranks. At a count of 2 all three are together in two baskets, and no four are in so many.
#[test]
fn three_items_are_a_set_of_three_at_most(rt: HostRuntime) -> Result<(), Fail> {
    assert_eq!(rt; nine_depths(rt.alloc())?, [true, true, true, false]);
    Ok(())
}
