use super::assert_numbers;
use mine_rows::{BitRow, DiffList, Row as CoverRow, TidList, Weights};
use std::alloc::{AllocError, Global};
use std::test::Fail;

/// The supports of the sets 1 2, 1 3 and 1 2 3 in the nine baskets, by rows that are joined. The
/// covers are the tids of the baskets that have 1, 2 and 3, read off by hand.
fn joined_supports<R: CoverRow>(alloc: Global) -> Result<[u64; 3], AllocError> {
    let weights = Weights::of(alloc, &[1, 1, 1, 1, 1, 1, 1, 1, 1])?;
    let one = R::first(alloc, &[0, 3, 4, 6, 7, 8], &weights)?;
    let two = R::first(alloc, &[0, 1, 2, 3, 5, 7, 8], &weights)?;
    let three = R::first(alloc, &[2, 4, 5, 6, 7, 8], &weights)?;
    let one_two = R::joined(alloc, &one, &two, &weights)?;
    let one_three = R::joined(alloc, &one, &three, &weights)?;
    let all = R::joined(alloc, &one_two, &one_three, &weights)?;
    Ok([one_two.count(), one_three.count(), all.count()])
}

#[test]
fn joined_rows_count_the_sets_of_the_nine_baskets(rt: HostRuntime) -> Result<(), Fail> {
    assert_numbers(&rt, &joined_supports::<TidList>(rt.alloc())?, &[4, 4, 2]);
    assert_numbers(&rt, &joined_supports::<DiffList>(rt.alloc())?, &[4, 4, 2]);
    assert_numbers(&rt, &joined_supports::<BitRow>(rt.alloc())?, &[4, 4, 2]);
    Ok(())
}
