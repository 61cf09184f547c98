//! Supports of any sets.
use super::{NINE_BASKETS, Row, assert_numbers, database, sets_of};
use basket_core::shard;
use mine_supports::count_shard;
use std::alloc::Global;
use std::test::Fail;

/// The supports of the sets in the baskets.
fn supports(alloc: Global, baskets: &[Row], lists: &[&[u32]]) -> Result<Vec<u64>, Fail> {
    let database = database(alloc, baskets)?;
    let sets = sets_of(alloc, lists)?;
    Ok(count_shard(alloc, database.baskets(), &sets)?)
}

#[test]
fn sets_of_many_sizes_are_counted_as_they_come(rt: HostRuntime) -> Result<(), Fail> {
    let sets: [&[u32]; 6] = [&[1, 2, 3], &[2], &[], &[2], &[6], &[1, 2]];
    assert_numbers(
        &rt,
        &supports(rt.alloc(), NINE_BASKETS, &sets)?,
        &[2, 7, 9, 7, 0, 4],
    );
    assert_numbers(&rt, &supports(rt.alloc(), NINE_BASKETS, &[&[]])?, &[9]);
    Ok(())
}

#[test]
fn counts_of_shards_add_up(rt: HostRuntime) -> Result<(), Fail> {
    assert_eq!(rt; [shard(0, 2, 9), shard(1, 2, 9)], [(0, 4), (4, 9)]);
    let (front, back) = NINE_BASKETS.split_at(NINE_BASKETS.len().min(4));
    let sets: [&[u32]; 5] = [&[1], &[2], &[1, 2], &[3], &[4]];
    assert_numbers(&rt, &supports(rt.alloc(), front, &sets)?, &[2, 4, 2, 1, 2]);
    assert_numbers(&rt, &supports(rt.alloc(), back, &sets)?, &[4, 3, 2, 5, 0]);
    Ok(())
}
