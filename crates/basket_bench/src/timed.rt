//! How long the stages take, over a number of runs, using the calls that the program makes.
use anyhow::Context;
use basket::SliceSource;
use basket_core::{Database, Frequent, StdSink};
use basket_read::read_fimi_shared;
use basket_report::SetLines;
use std::io::sink;
use std::thread::Threads;
use std::time::{Duration, Instant};

/// How long each of this many runs of some work takes.
pub fn times<F: Fn() -> anyhow::Result<()>>(
    rt: &HostRuntime,
    runs: u32,
    work: F,
) -> anyhow::Result<Vec<Duration>>
    requires { F.IsAlwaysCallable work }
{
    let mut times = Vec::new(rt.alloc());
    for _ in 0..runs {
        let start = Instant::now(rt)?;
        work()?;
        times.push(start.elapsed(rt)?)?;
    }
    Ok(times)
}

/// The baskets of the bytes.
pub fn read<R: Threads + Sync>(
    rt: &HostRuntime,
    threads: &R,
    input: &[u8],
    workers: u32,
) -> anyhow::Result<Database> {
    let read = read_fimi_shared(threads, rt.alloc(), &mut SliceSource::new(input), workers);
    Ok(read.context("the input was not read")?)
}

/// Makes the lines of the list and discards them.
pub fn report<R: Threads + Sync>(
    rt: &HostRuntime,
    threads: &R,
    frequent: &Frequent,
    workers: u32,
) -> anyhow::Result<()> {
    let sets = frequent.sets();
    let mut lines = SetLines::new(rt.alloc(), sets, workers)?;
    let written = lines.write(threads, sets, &mut StdSink::new(sink()));
    Ok(written.context("the report was not written")?)
}
