ghost use Rattle.std.specs.Prelude.{◌≡◌, false};

use basket::{
    Ask, CountPlan, Form, Invocation, Layout, Plan, RunFault, Task, invocation_of, run, run_count,
    status_of,
};
use basket_core::{MemSink, MemSource, MineFault, Sink, Source, parse_minimum};
use basket_read::{ReadFault, read_fimi, read_fimi_shared};
use itoa::Buffer;
use std::alloc::{AllocError, Global};
use std::io;
use std::process::Abort;
use std::random::RandomSource;
use std::test::Fail;
use std::thread::Threads;

mod counts;
mod library;
mod programs;
mod rules;
mod streams;
mod workers;

/// A runtime that has threads and no random bytes. Whole runs have it, so that all is compiled for one runtime.
#[derive(Drop)]
struct NoRandomBytes<'a, R>(&'a R);

impl<R: Threads> Threads for NoRandomBytes<'_, R> {}

impl<R> RandomSource for NoRandomBytes<'_, R> {
    fn fill_bytes(&self, _bytes: &mut [u8]) -> io::Result<()> {
        Err(io::Error::from(io::ErrorKind::Unsupported))
    }
}

const NINE_BASKETS: &[u8] = b"1 2 5\n2 4\n2 3\n1 2 4\n1 3\n2 3\n1 3\n1 2 3 5\n1 2 3\n";

const NINE_ITEMS: &[u8] = b"1 (6)\n2 (7)\n3 (6)\n4 (2)\n5 (2)\n";

/// A plan for the frequent sets.
fn plan(minimum: &str) -> Result<Plan, Fail> {
    match parse_minimum(minimum) {
        Some(minimum) => Ok(Plan::of(Ask::Sets, minimum)),
        None => Err(Fail::new("the text is no minimum")),
    }
}

/// What a run came to, and what was written.
type Ran = (Result<(), RunFault>, Vec<u8>);

/// What a run came to. Out of memory is a failure of its own, after which nothing may be written.
fn ran(end: Result<(), RunFault>, written: Vec<u8>) -> Result<Ran, Fail> {
    match end {
        Err(
            RunFault::Sets(ReadFault::Memory)
            | RunFault::Input(ReadFault::Memory)
            | RunFault::Mine(MineFault::Memory),
        ) => match written.is_empty() {
            true => Err(Fail::from(AllocError)),
            false => Err(Fail::new("bytes were written")),
        },
        end => Ok((end, written)),
    }
}

/// Asserts what a run came to and what it wrote. The case is told if it is otherwise.
fn assert_ran(
    rt: &impl Abort,
    (end, written): Ran,
    wanted: (Result<(), RunFault>, &[u8]),
    (case, number): (&str, u64),
) {
    assert_eq!(rt; (end, written.as_slice()), wanted, "{case}, {number}");
}

/// Runs what the words ask for.
fn run_words<'a, R: Threads + Sync>(
    rt: &R,
    alloc: Global,
    words: &[&str],
    mut reader: MemSource<'a>,
    mut writer: MemSink,
) -> Result<Ran, Fail>
    requires reader { ⟦<MemSource<'a> as Source>⟧.has_failed reader ≡ false }
    requires open { ⟦<MemSource<'a> as Source>⟧.at_end reader ≡ false }
    requires writer { ⟦<MemSink as Sink>⟧.has_failed writer ≡ false }
{
    let Invocation { task, .. } = invocation_of(alloc, words)?;
    let Task::Report(plan) = task else {
        return Err(Fail::new("the words ask for no report"));
    };
    let end = match run(&NoRandomBytes(rt), alloc, &plan, &mut reader, &mut writer) {
        Ok(_) => Ok(()),
        Err(fault) => Err(fault),
    };
    ran(end, writer.into_bytes())
}
