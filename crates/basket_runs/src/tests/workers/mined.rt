//! Each miner beside the plain one.
use super::gates::Watch;
use super::*;
use basket_core::Counted;
use basket_mining::Work;
use mine_plain::plain_sets;

const MINIMUMS: &[&str] = &["1", "2", "3", "7", "22%", "2/9", "50%", "1/1"];

const INPUTS: &[&[u8]] = &[
    NINE_BASKETS,
    b"",
    b"0\n2x4294967295\n3x0 4294967295\n",
    // The three pairs are frequent at 2 and the triple is not.
    b"1 2\n1 3\n2 3\n1 2 3\n",
    b"2x1 2 3 4 5 6 7 8 9 10\n3x1 3 5 7 9\n2 4 6 8 10\n1 2 3 4 5 6 7 8 9\n",
    b"2x70000 80000 90000\n2x70000 90000 4000000000\n1 70000 4000000000\n1000000x1 80000\n",
];

/// The sets that a miner finds, the weight of all baskets, and how much it did.
fn found<R: Threads + Sync>(
    rt: &R,
    alloc: Global,
    database: &Database,
    plan: Plan,
) -> Result<(Vec<Counted>, u64, Work), Fail> {
    let (mined, work) = mine(rt, alloc, database, &plan, &Watch::Nothing)?;
    Ok((mined.sets().unpacked(alloc)?, mined.total(), work))
}

/// Whether one worker and seven find these sets, and do as much work for them.
fn both_find<R: Threads + Sync>(
    rt: &R,
    alloc: Global,
    database: &Database,
    plan: Plan,
    plain: &[Counted],
) -> Result<bool, Fail> {
    let one = found(rt, alloc, database, plan.with_workers(1).with_pieces(16))?;
    let seven = found(rt, alloc, database, plan.with_workers(7).with_pieces(3))?;
    Ok(one == seven && one.0.as_slice() == plain && one.1 == database.total())
}

/// Asserts that each miner finds the plain miner's list, however many workers share it, and does as
/// much work for it with any number of them.
fn assert_plain<R: Threads + Sync + Abort>(
    rt: &R,
    alloc: Global,
    text: &[u8],
    minimum: &str,
) -> Result<(), Fail> {
    let database = database(alloc, text)?;
    let plan = plan(minimum)?;
    let plain = plain_sets(alloc, &database, plan.minimum())?;
    for &(name, miner) in MINERS {
        assert!(rt;
            both_find(rt, alloc, &database, plan.with_miner(miner), &plain)?,
            "{name} at {minimum} found others than {plain:?}, or did other work by seven workers"
        );
    }
    Ok(())
}

#[test]
fn each_miner_finds_the_sets_of_the_plain_one(rt: HostRuntime) -> Result<(), Fail> {
    for &text in INPUTS {
        for &minimum in MINIMUMS {
            assert_plain(&rt, rt.alloc(), text, minimum)?;
        }
    }
    Ok(())
}

/// How much the miners do together: candidates, joins and trees.
fn works<R: Threads + Sync>(
    rt: &R,
    alloc: Global,
    text: &[u8],
    plan: Plan,
) -> Result<(u64, u64, u64), Fail> {
    let database = database(alloc, text)?;
    let mut sums = (0u64, 0u64, 0u64);
    for &(_, miner) in MINERS {
        let (_, _, work) = found(rt, alloc, &database, plan.with_miner(miner))?;
        sums.0 = sums.0.saturating_add(work.candidates);
        sums.1 = sums.1.saturating_add(work.joins);
        sums.2 = sums.2.saturating_add(work.trees);
    }
    Ok(sums)
}

/// Three of the five miners are Eclat's, so there are three times the joins of one.
#[test]
fn each_miner_counts_its_work(rt: HostRuntime) -> Result<(), Fail> {
    let alloc = rt.alloc();
    let forty = forty_items(alloc)?;
    let cases: &[(&[u8], &str, (u64, u64, u64))] = &[
        (NINE_BASKETS, "2", (12, 36, 7)),
        (b"1\n1\n2\n2\n1 3\n2 3\n", "1", (3, 12, 5)),
        (&forty, "2", (780, 2_340, 40)),
        (b"", "1", (0, 0, 0)),
    ];
    for &(text, minimum, want) in cases {
        for workers in [1, 2, 7] {
            let sums = works(&rt, alloc, text, plan(minimum)?.with_workers(workers))?;
            assert_eq!(rt; sums, want, "by {workers} workers at {minimum}");
        }
    }
    Ok(())
}
