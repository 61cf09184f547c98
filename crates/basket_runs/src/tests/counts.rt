//! Counts of given sets, from two readers.
ghost use Rattle.std.specs.Prelude.{◌≡◌, false};

use super::*;

const SETS: &[u8] = b"2 1 (7)\n3\n1 2\n\n9 4294967295 (1)\n";

/// The sets by hand: 1 and 2 are together in the baskets 1, 4, 8 and 9.
const COUNTS: &[u8] = b"(9)\n1 2 (4)\n3 (6)\n9 4294967295 (0)\n";

#[test]
fn counts_are_the_same_however_bytes_are_given_and_baskets_shared(
    rt: HostRuntime,
) -> Result<(), Fail> {
    for step in [1, 7, 65_536] {
        for workers in [1, 4] {
            let plan = CountPlan::of(Layout::of(Form::Fimi)).with_workers(workers);
            let sets = MemSource::new(SETS, step, None);
            let reader = MemSource::new(NINE_BASKETS, step, None);
            let writer = MemSink::new(rt.alloc(), 100, step, false)?;
            let ran = counted(&rt, rt.alloc(), &plan, sets, reader, writer)?;
            assert_ran(&rt, ran, (Ok(()), COUNTS), ("bytes", step as u64));
        }
    }
    Ok(())
}

#[test]
fn counts_of_concatenated_parts_are_added_up(rt: HostRuntime) -> Result<(), Fail> {
    let parts = b"(4)\n1 2 (2)\n9 4294967295 (0)\n3 (1)\n3 (5)\n1 2 (2)\n(5)\n9 4294967295 (0)\n";
    let plan = CountPlan::of(Layout::of(Form::Counts));
    let sets = MemSource::new(SETS, 100, None);
    let reader = MemSource::new(parts, 100, None);
    let writer = MemSink::new(rt.alloc(), 100, 100, false)?;
    let ran = counted(&rt, rt.alloc(), &plan, sets, reader, writer)?;
    assert_ran(&rt, ran, (Ok(()), COUNTS), ("parts", 2));
    Ok(())
}

#[test]
fn each_reader_that_fails_is_told_and_nothing_is_written(rt: HostRuntime) -> Result<(), Fail> {
    let cases = [
        (Some(3), None, RunFault::Sets(ReadFault::Read)),
        (Some(0), Some(0), RunFault::Sets(ReadFault::Read)),
        (None, Some(3), RunFault::Input(ReadFault::Read)),
    ];
    for (before_sets, before_input, fault) in cases {
        for plan in [
            CountPlan::of(Layout::of(Form::Fimi)),
            CountPlan::of(Layout::of(Form::Counts)),
        ] {
            let sets = MemSource::new(SETS, 1, before_sets);
            let reader = MemSource::new(b"1 2 3", 1, before_input);
            let writer = MemSink::new(rt.alloc(), 100, 100, false)?;
            let ran = counted(&rt, rt.alloc(), &plan, sets, reader, writer)?;
            assert_eq!(rt; status_of(&fault), 4);
            assert_ran(&rt, ran, (Err(fault), b""), ("reader", 0));
        }
    }
    Ok(())
}

#[test]
fn a_set_without_a_count_is_told_by_its_place(rt: HostRuntime) -> Result<(), Fail> {
    let plan = CountPlan::of(Layout::of(Form::Counts));
    let sets = MemSource::new(SETS, 100, None);
    let reader = MemSource::new(b"(9)\n1 2 (4)\n", 100, None);
    let writer = MemSink::new(rt.alloc(), 100, 100, false)?;
    let ran = counted(&rt, rt.alloc(), &plan, sets, reader, writer)?;
    assert_ran(
        &rt,
        ran,
        (Err(RunFault::Uncounted { nth: 2 }), b""),
        ("set", 2),
    );
    Ok(())
}

/// Counts the sets.
fn counted<'a, 'b, R: Threads + Sync>(
    rt: &R,
    alloc: Global,
    plan: &CountPlan,
    mut sets: MemSource<'a>,
    mut reader: MemSource<'b>,
    mut writer: MemSink,
) -> Result<Ran, Fail>
    requires sets { ⟦<MemSource<'a> as Source>⟧.has_failed sets ≡ false }
    requires sets_open { ⟦<MemSource<'a> as Source>⟧.at_end sets ≡ false }
    requires reader { ⟦<MemSource<'b> as Source>⟧.has_failed reader ≡ false }
    requires reader_open { ⟦<MemSource<'b> as Source>⟧.at_end reader ≡ false }
    requires writer { ⟦<MemSink as Sink>⟧.has_failed writer ≡ false }
{
    let end = run_count(
        &NoRandomBytes(rt),
        alloc,
        plan,
        &mut sets,
        &mut reader,
        &mut writer,
    );
    ran(end, writer.into_bytes())
}
