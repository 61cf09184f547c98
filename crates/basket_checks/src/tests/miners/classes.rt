//! Classes by Eclat with each kind of row and by FP-growth.
ghost use Rattle.std.specs.Prelude.{◌≡◌, ◌<◌, false, length};

use super::{Early, NINE_BASKETS, assert_text, coded};
use basket_core::{Coded, Counted, CountedSets};
use mine_fp::{Forest, fp_class};
use mine_limit::{Limit, MineFault, Tally};
use mine_vertical::{BitRow, DiffList, Row as Kind, TidList, Vertical, eclat_class};
use std::alloc::{AllocError, Global};
use std::fmt::Write;
use std::test::Fail;

#[derive(Clone, Copy)]
enum By {
    Lists,
    Differences,
    Bits,
    Trees,
}

const WAYS: [By; 4] = [By::Lists, By::Differences, By::Bits, By::Trees];

/// The sets of a class by Eclat with this kind of row.
fn by_rows<R: Kind, T: Tally>(
    alloc: Global,
    coded: &Coded,
    rank: u32,
    tally: &mut T,
) -> Result<(CountedSets, u64), MineFault>
    requires rank { rank < length coded.now.items }
    requires going { T.is_over tally.old ≡ false }
{
    let vertical = Vertical::of(alloc, coded)?;
    eclat_class::<R, T>(alloc, &vertical, rank, tally)
}

/// The sets of a class by FP-growth.
fn by_trees<T: Tally>(
    alloc: Global,
    coded: &Coded,
    rank: u32,
    tally: &mut T,
) -> Result<(CountedSets, u64), MineFault>
    requires rank { rank < length coded.now.items }
    requires going { T.is_over tally.old ≡ false }
{
    let forest = Forest::of(alloc, coded)?;
    fp_class(alloc, &forest, rank, tally)
}

/// The sets of a class.
fn class<T: Tally>(
    alloc: Global,
    coded: &Coded,
    by: By,
    rank: u32,
    tally: &mut T,
) -> Result<(CountedSets, u64), MineFault>
    requires rank { rank < length coded.now.items }
    requires going { T.is_over tally.old ≡ false }
{
    match by {
        By::Lists => by_rows::<TidList, T>(alloc, coded, rank, tally),
        By::Differences => by_rows::<DiffList, T>(alloc, coded, rank, tally),
        By::Bits => by_rows::<BitRow, T>(alloc, coded, rank, tally),
        By::Trees => by_trees(alloc, coded, rank, tally),
    }
}

/// Writes the sets.
fn write_each(written: &mut String, sets: &[Counted]) -> Result<(), AllocError> {
    for counted in sets {
        write!(written, "{} ({}) ", counted.set, counted.count)?;
    }
    Ok(())
}

/// Writes the sets in report order.
fn write_sets(written: &mut String, alloc: Global, found: CountedSets) -> Result<(), AllocError> {
    let mut sets = found.unpacked(alloc)?;
    sets.sort_unstable();
    write_each(written, &sets)
}

/// Writes the classes in the order of their ranks, each with how many sets were reported until then, up to
/// the first that is refused. None is begun with a tally that is over.
fn write_classes(
    written: &mut String,
    alloc: Global,
    coded: &Coded,
    by: By,
    limit: u32,
) -> Result<(), MineFault> {
    let mut tally = Limit::new(limit);
    for rank in 0..coded.ranks() {
        if !tally.over() {
            let (sets, _) = class(alloc, coded, by, rank, &mut tally)?;
            write_sets(written, alloc, sets)?;
            write!(written, "{}|", tally.told())?;
        }
    }
    Ok(())
}

/// The classes of the nine baskets as text, with the fault of the one that is refused.
fn nine_classes(alloc: Global, by: By, limit: u32) -> Result<String, Fail> {
    let coded = coded(alloc, NINE_BASKETS, 2)?;
    let mut written = String::new(alloc);
    let fault = write_classes(&mut written, alloc, &coded, by, limit).err();
    write!(written, "{fault:?}")?;
    Ok(written)
}

#[test]
fn classes_are_listed_rank_by_rank_up_to_the_limit(rt: HostRuntime) -> Result<(), Fail> {
    let all =
        "2 (7) 1|1 (6) 1 2 (4) 3|3 (6) 1 3 (4) 2 3 (4) 1 2 3 (2) 7|4 (2) 2 4 (2) 9|5 (2) 1 5 (2) 2 5 (2) 1 2 5 (2) 13|None";
    let few =
        "2 (7) 1|1 (6) 1 2 (4) 3|3 (6) 1 3 (4) 2 3 (4) 1 2 3 (2) 7|4 (2) 2 4 (2) 9|Some(TooMany { limit: 12 })";
    for by in WAYS {
        assert_text(&rt, nine_classes(rt.alloc(), by, 13)?.as_str(), all);
        assert_text(&rt, nine_classes(rt.alloc(), by, 12)?.as_str(), few);
    }
    Ok(())
}

/// The class of the last rank as text.
fn last_class(alloc: Global, coded: &Coded, by: By, limit: u32) -> Result<String, MineFault> {
    let mut written = String::new(alloc);
    if let Some(last) = coded.ranks().checked_sub(1) {
        let (sets, _) = class(alloc, coded, by, last, &mut Limit::new(limit))?;
        write_sets(&mut written, alloc, sets)?;
    }
    Ok(written)
}

#[test]
fn a_class_is_the_same_by_each_kind_of_row(rt: HostRuntime) -> Result<(), Fail> {
    let coded = coded(rt.alloc(), NINE_BASKETS, 2)?;
    for by in WAYS {
        let listed = last_class(rt.alloc(), &coded, by, 4)?;
        assert_text(&rt, listed.as_str(), "5 (2) 1 5 (2) 2 5 (2) 1 2 5 (2) ");
    }
    Ok(())
}

/// A basket of many items, as ranks.
fn long(alloc: Global) -> Result<Coded, Fail> {
    let items: Vec<u32> = (1..=70_000).collect(alloc)?;
    coded(alloc, &[(items.as_slice(), 1)], 1)
}

/// The faults of last classes: of the nine baskets at two limits, and of the long one.
fn faults(alloc: Global, nine: &Coded, long: &Coded, by: By) -> [Option<MineFault>; 3] {
    [
        last_class(alloc, nine, by, 3).err(),
        last_class(alloc, nine, by, 4).err(),
        last_class(alloc, long, by, 1_000).err(),
    ]
}

/// The last class of the nine baskets has four sets.
#[test]
fn a_class_alone_is_refused_below_its_length(rt: HostRuntime) -> Result<(), Fail> {
    let nine = coded(rt.alloc(), NINE_BASKETS, 2)?;
    let long = long(rt.alloc())?;
    let found = [
        faults(rt.alloc(), &nine, &long, By::Lists),
        faults(rt.alloc(), &nine, &long, By::Differences),
        faults(rt.alloc(), &nine, &long, By::Bits),
        faults(rt.alloc(), &nine, &long, By::Trees),
    ];
    let three = Some(MineFault::TooMany { limit: 3 });
    let thousand = Some(MineFault::TooMany { limit: 1_000 });
    assert_eq!(rt; found, [[three, None, thousand]; 4]);
    Ok(())
}

/// The fault of the first class with a tally that is over early, and how many sets it was told.
fn told_early(alloc: Global, coded: &Coded, by: By) -> (Option<MineFault>, u64) {
    let mut tally = Early { told: 0 };
    if coded.ranks() == 0 {
        return (None, 0);
    }
    let fault = class(alloc, coded, by, 0, &mut tally).err();
    (fault, tally.told())
}

#[test]
fn eclat_and_growth_stop_where_the_tally_is_over(rt: HostRuntime) -> Result<(), Fail> {
    let coded = coded(rt.alloc(), NINE_BASKETS, 2)?;
    let found = [
        told_early(rt.alloc(), &coded, By::Lists),
        told_early(rt.alloc(), &coded, By::Differences),
        told_early(rt.alloc(), &coded, By::Bits),
        told_early(rt.alloc(), &coded, By::Trees),
    ];
    let over = (Some(MineFault::TooMany { limit: 1_000 }), 1);
    assert_eq!(rt; found, [over; 4]);
    Ok(())
}
