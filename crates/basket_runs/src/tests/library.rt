//! The program of docs/LIBRARY.md.
use super::NoRandomBytes;
use basket::{Ask, Frequent, Minimum, Open, Plan, Share, SliceSource, mine};
use basket_read::read_fimi;
use basket_rules::{closed, rules};
use std::alloc::Global;
use std::fmt::Write;
use std::test::Fail;
use std::thread::Threads;

/// The rules and the sets of nine baskets, each on a line.
fn answers<R: Threads + Sync>(rt: &R, alloc: Global) -> anyhow::Result<String> {
    let text = b"1 2 5\n2 4\n2 3\n1 2 4\n1 3\n2 3\n1 3\n1 2 3 5\n1 2 3\n";
    let database = read_fimi(alloc, &mut SliceSource::new(text))?;
    let plan = Plan::of(Ask::Sets, Minimum::Count(2));
    let (frequent, _) = mine(rt, alloc, &database, &plan, &Open)?;
    let mut lines = String::new(alloc);
    add_rules(alloc, &frequent, &mut lines)?;
    add_sets(alloc, &frequent, &mut lines)?;
    Ok(lines)
}

fn add_rules(alloc: Global, frequent: &Frequent, lines: &mut String) -> anyhow::Result<()> {
    let closed = closed(alloc, frequent)?.len();
    writeln!(
        lines,
        "{closed} of {} sets are closed",
        frequent.sets().len()
    )?;
    let confidence = Share::new(7, 10).unwrap();
    for rule in &rules(alloc, frequent, confidence)? {
        let (antecedent, consequent) = (rule.antecedent.items(), rule.consequent.items());
        writeln!(
            lines,
            "{antecedent:?} => {consequent:?}: {}",
            rule.confidence
        )?;
    }
    Ok(())
}

fn add_sets(alloc: Global, frequent: &Frequent, lines: &mut String) -> anyhow::Result<()> {
    let total = frequent.total();
    for found in frequent.sets().iter(alloc) {
        let found = found?;
        writeln!(lines, "{:?}: {} of {total}", found.set.items(), found.count)?;
    }
    Ok(())
}

#[test]
fn the_program_of_the_library_page_finds_these_rules_and_sets(rt: HostRuntime) -> Result<(), Fail> {
    let Ok(found) = answers(&NoRandomBytes(&rt), rt.alloc()) else {
        return Err(Fail::new(format_args!("it ends with a fault")));
    };
    assert_eq!(rt;
        found.as_str(),
        "9 of 13 sets are closed\n\
[5] => [1]: 1/1\n\
[4] => [2]: 1/1\n\
[5] => [2]: 1/1\n\
[2, 5] => [1]: 1/1\n\
[1, 5] => [2]: 1/1\n\
[5] => [1, 2]: 1/1\n\
[1]: 6 of 9\n\
[2]: 7 of 9\n\
[3]: 6 of 9\n\
[4]: 2 of 9\n\
[5]: 2 of 9\n\
[1, 2]: 4 of 9\n\
[1, 3]: 4 of 9\n\
[1, 5]: 2 of 9\n\
[2, 3]: 4 of 9\n\
[2, 4]: 2 of 9\n\
[2, 5]: 2 of 9\n\
[1, 2, 3]: 2 of 9\n\
[1, 2, 5]: 2 of 9\n"
    );
    Ok(())
}
