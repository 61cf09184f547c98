//! The stage bench: how long each stage of `basket sets` takes over a FIMI input with one, two and
//! four workers, using the calls that the program makes.
#![tactic(auto)]

mod stage;
mod timed;

use anyhow::Context;
use basket::{Ask, Miner, Open, Plan, mine};
use basket_core::{Coded, Database, parse_minimum};
use mine_phases::runs_shared;
use mine_pieces::{Cutting, count_shared};
use stage::print_stage;
use std::io::Read;
use std::thread::Threads;
use std::{env, fs};
use timed::{read, report, times};

const USAGE: &str = "usage: basket_bench MINIMUM RUNS < INPUT
Times reading, counting the items, the runs of the coded baskets, each miner with its list, and the report
of a FIMI input, each by 1, 2 and 4 workers, so many times over.
";

const MINERS: [(&str, Miner); 5] = [
    ("apriori", Miner::Apriori),
    ("eclat", Miner::Eclat),
    ("eclat-diff", Miner::EclatDiff),
    ("eclat-bits", Miner::EclatBits),
    ("fpgrowth", Miner::FpGrowth),
];

fn main(rt: HostRuntime) -> anyhow::Result<()> {
    let words: Vec<String> = env::args(&rt)?.skip(1).collect(rt.alloc())?;
    match words.as_slice() {
        [minimum, runs] => {
            let minimum = parse_minimum(minimum.as_str()).context("not a minimum")?;
            let runs = runs
                .as_str()
                .parse::<u32>()
                .context("not a number of runs")?;
            bench(&rt, &rt, Plan::of(Ask::Sets, minimum), runs)
        }
        _ => {
            print!(&rt; "{USAGE}")?;
            Ok(())
        }
    }
}

/// Reads standard input, and prints the times of the stages over it. The workers are threads of the
/// second runtime.
fn bench<R: Threads + Sync>(
    rt: &HostRuntime,
    threads: &R,
    plan: Plan,
    runs: u32,
) -> anyhow::Result<()> {
    let mut input = Vec::new(rt.alloc());
    rt.stdin().read_to_end(&mut input)?;
    let database = read(rt, threads, &input, 1)?;
    for plan in [plan, plan.with_workers(2), plan.with_workers(4)] {
        print_stages(rt, threads, &input, &database, plan, runs)?;
    }
    if let Ok(status) = fs::read_to_string(rt, "/proc/self/status") {
        // The most memory that the process has had.
        for line in status
            .as_str()
            .lines()
            .filter(|line| line.starts_with("VmHWM"))
        {
            println!(rt; "{line}")?;
        }
    }
    Ok(())
}

/// Prints the times of the stages for the plan's number of workers.
fn print_stages<R: Threads + Sync>(
    rt: &HostRuntime,
    threads: &R,
    input: &[u8],
    database: &Database,
    plan: Plan,
    runs: u32,
) -> anyhow::Result<()> {
    let workers = plan.workers();
    let cutting = Cutting::new(workers, plan.pieces());
    let stage = times(rt, runs, || {
        read(rt, threads, input, workers)?;
        Ok(())
    })?;
    print_stage(rt, "read", workers, stage)?;
    let stage = times(rt, runs, || {
        count_shared(threads, rt.alloc(), database.baskets(), cutting, &Open)?;
        Ok(())
    })?;
    print_stage(rt, "count", workers, stage)?;
    let stage = times(rt, runs, || {
        let coded = Coded::of(rt.alloc(), database, plan.minimum())?;
        runs_shared(threads, rt.alloc(), coded, cutting)?;
        Ok(())
    })?;
    print_stage(rt, "code and runs", workers, stage)?;
    for (name, miner) in MINERS {
        let stage = times(rt, runs, || {
            mine(
                threads,
                rt.alloc(),
                database,
                &plan.with_miner(miner),
                &Open,
            )?;
            Ok(())
        })?;
        print_stage(rt, name, workers, stage)?;
    }
    let (frequent, _) = mine(threads, rt.alloc(), database, &plan, &Open)?;
    let stage = times(rt, runs, || report(rt, threads, &frequent, workers))?;
    print_stage(rt, "report", workers, stage)
}
