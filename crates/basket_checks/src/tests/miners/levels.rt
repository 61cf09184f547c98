ghost use Rattle.std.specs.Prelude.{◌≡◌, IfOk};

use super::{NINE_BASKETS, assert_text, coded};
use basket_core::Coded;
use mine_apriori::{Alone, Levels, apriori};
use mine_limit::MineFault;
use mine_supports::{Extensions, count_extensions};
use std::alloc::{AllocError, Global};
use std::fmt::Write;
use std::test::Fail;

/// Writes the sets.
fn write_sets(text: &mut String, alloc: Global, sets: &Extensions) -> Result<(), AllocError> {
    for (prefix, items) in sets.prefixes().iter().zip(sets.lists()) {
        for item in items.items() {
            write!(text, "{}|", prefix.with(alloc, *item)?)?;
        }
    }
    Ok(())
}

/// The search after the supports that it asked for.
fn answered<'a>(alloc: Global, coded: &Coded, levels: Levels<'a>) -> Result<Levels<'a>, Fail>
    requires { levels.coding ≡ coded.now }
    ensures { IfOk result (λ next. next.coding ≡ coded.now) }
{
    if levels.asked().is_empty() {
        return Err(Fail::new("no set is asked"));
    }
    let counts = count_extensions(alloc, coded.baskets(), levels.asked())?;
    Ok(levels.answer(alloc, &counts, &Alone)?)
}

/// Writes the sets that the search asks for, and how many it has asked for so far, and goes on.
fn write_level<'a>(
    text: &mut String,
    alloc: Global,
    coded: &Coded,
    levels: Levels<'a>,
) -> Result<Levels<'a>, Fail>
    requires { levels.coding ≡ coded.now }
    ensures { IfOk result (λ next. next.coding ≡ coded.now) }
{
    write_sets(text, alloc, levels.asked())?;
    write!(text, "{} ", levels.counted())?;
    answered(alloc, coded, levels)
}

/// Writes two levels, and says how many sets there are if there is no third.
fn write_levels(text: &mut String, alloc: Global, coded: &Coded) -> Result<Option<usize>, Fail> {
    let levels = Levels::start(alloc, coded, 13)?;
    let levels = write_level(text, alloc, coded, levels)?;
    let levels = write_level(text, alloc, coded, levels)?;
    if levels.asked().is_empty() {
        Ok(Some(levels.finish(alloc)?.sets().len()))
    } else {
        Ok(None)
    }
}

/// The levels of the nine baskets as text.
fn nine_levels(alloc: Global) -> Result<String, Fail> {
    let coded = coded(alloc, NINE_BASKETS, 2)?;
    let mut text = String::new(alloc);
    let sets = write_levels(&mut text, alloc, &coded)?;
    write!(text, "{sets:?}")?;
    Ok(text)
}

/// Of the ranks 0 to 4, which are the items 2, 1, 3, 4 and 5.
#[test]
fn each_level_asks_the_candidates_of_its_size(rt: HostRuntime) -> Result<(), Fail> {
    assert_text(
        &rt,
        nine_levels(rt.alloc())?.as_str(),
        "0 1|0 2|0 3|0 4|1 2|1 3|1 4|2 3|2 4|3 4|10 0 1 2|0 1 4|12 Some(13)",
    );
    Ok(())
}

/// A basket of 40 items that is there twice.
fn full(alloc: Global) -> Result<Coded, Fail> {
    let items: Vec<u32> = (1..=40).collect(alloc)?;
    coded(alloc, &[(items.as_slice(), 1), (items.as_slice(), 1)], 2)
}

/// Whether there are more sets than the limit.
fn is_too_many(alloc: Global, coded: &Coded, limit: u32) -> bool {
    apriori(alloc, coded, limit).err() == Some(MineFault::TooMany { limit })
}

/// All 2^40 - 1 sets are frequent. The limits are below and at the numbers of those of at most one
/// item and of at most two.
#[test]
fn apriori_stops_at_the_first_level_above_the_limit(rt: HostRuntime) -> Result<(), Fail> {
    let coded = full(rt.alloc())?;
    let stops = [
        is_too_many(rt.alloc(), &coded, 39),
        is_too_many(rt.alloc(), &coded, 40),
        is_too_many(rt.alloc(), &coded, 819),
        is_too_many(rt.alloc(), &coded, 820),
    ];
    assert_eq!(rt; stops, [true; 4]);
    Ok(())
}
