//! Rules of a list that Apriori finds.
use super::{Row, assert_text, coded};
use basket_core::{Frequent, Share};
use basket_rules::{Rule, rules, rules_with};
use mine_apriori::apriori;
use std::alloc::{AllocError, Global};
use std::fmt::Write;
use std::test::Fail;

/// Five baskets. All three items are in two of them, items 1 and 2 in three, 1 and 3 in three, and 2
/// and 3 in two; item 1 is in four, 2 in four and 3 in three.
const FIVE_BASKETS: &[Row] = &[(&[1, 2, 3], 2), (&[1, 2], 1), (&[1, 3], 1), (&[2], 1)];

/// The rules as text.
fn text(alloc: Global, rules: &[Rule]) -> Result<String, AllocError> {
    let mut text = String::new(alloc);
    for rule in rules {
        write!(
            text,
            "{} => {} ({}) {} {}|",
            rule.antecedent, rule.consequent, rule.count, rule.confidence, rule.lift
        )?;
    }
    Ok(text)
}

/// The sets that are in at least two of the five baskets.
fn frequent(alloc: Global) -> Result<Frequent, Fail> {
    let coded = coded(alloc, FIVE_BASKETS, 2)?;
    Ok(apriori(alloc, &coded, u32::MAX)?.0)
}

/// The rules of all sets as text.
fn all_rules(alloc: Global, frequent: &Frequent) -> Result<String, AllocError> {
    text(alloc, &rules(alloc, frequent, Share::new(3, 4).unwrap())?)
}

/// The rules whose union is the last of seven sets as text.
fn last_rules(alloc: Global, frequent: &Frequent) -> Result<String, Fail> {
    if frequent.sets().len() != 7 {
        return Err(Fail::new("there are not seven sets"));
    }
    let found = rules_with(alloc, frequent, 6, Share::new(2, 3).unwrap())?;
    Ok(text(alloc, &found)?)
}

/// The rules of all sets, and those of the last, as text.
fn found(alloc: Global) -> Result<String, Fail> {
    let frequent = frequent(alloc)?;
    let all = all_rules(alloc, &frequent)?;
    let last = last_rules(alloc, &frequent)?;
    Ok(format!(in alloc; "{all} {last}")?)
}

/// The last of the seven sets has all three items.
#[test]
fn rules_stand_union_after_union_and_by_their_right_sides(rt: HostRuntime) -> Result<(), Fail> {
    assert_text(
        &rt,
        found(rt.alloc())?.as_str(),
        "2 => 1 (3) 3/4 15/16|1 => 2 (3) 3/4 15/16|3 => 1 (3) 1/1 5/4|1 => 3 (3) 3/4 5/4|2 3 => 1 (2) 1/1 5/4| \
         2 3 => 1 (2) 1/1 5/4|1 3 => 2 (2) 2/3 5/6|1 2 => 3 (2) 2/3 10/9|3 => 1 2 (2) 2/3 10/9|",
    );
    Ok(())
}
