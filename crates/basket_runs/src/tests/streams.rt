//! Readers that give few bytes or fail, and writers that take few or fail.
ghost use Rattle.std.specs.Prelude.{◌≡◌, false};

use super::*;
use basket_core::StdSink;
use std::io::Write;

const THIRTEEN_SETS: &[u8] =
    b"1 (6)\n2 (7)\n3 (6)\n4 (2)\n5 (2)\n1 2 (4)\n1 3 (4)\n1 5 (2)\n2 3 (4)\n2 4 (2)\n2 5 (2)\n1 2 3 (2)\n1 2 5 (2)\n";

const SIX_RULES: &[u8] =
    b"5 => 1 (2) 1/1 3/2\n4 => 2 (2) 1/1 9/7\n5 => 2 (2) 1/1 9/7\n2 5 => 1 (2) 1/1 3/2\n1 5 => 2 (2) 1/1 9/7\n5 => 1 2 (2) 1/1 9/4\n";

#[test]
fn a_report_is_the_same_however_its_bytes_are_given_and_taken(rt: HostRuntime) -> Result<(), Fail> {
    let cases: &[(&[&str], &[u8], &[u8])] = &[
        (&["items", "--min", "2"], NINE_BASKETS, NINE_ITEMS),
        (&["sets", "--min", "2"], NINE_BASKETS, THIRTEEN_SETS),
        (
            &["rules", "--min", "2", "--conf", "7/10"],
            NINE_BASKETS,
            SIX_RULES,
        ),
        (
            &["sets", "--form", "single", "--min", "1"],
            b"b,milk\na,bread\nb,bread\n",
            b"1,milk\n2,bread\n1,milk,bread\n",
        ),
    ];
    for &(words, input, want) in cases {
        for step in [1, 7, 65_536] {
            let reader = MemSource::new(input, step, None);
            let writer = MemSink::new(rt.alloc(), 300, step, false)?;
            let (result, text) = run_words(&rt, rt.alloc(), words, reader, writer)?;
            assert_ran(&rt, (result, text), (Ok(()), want), (words[0], step as u64));
        }
    }
    Ok(())
}

/// Runs `items` at a count of 1.
fn items<'a, R: Threads + Sync>(
    rt: &R,
    alloc: Global,
    form: &str,
    reader: MemSource<'a>,
) -> Result<Ran, Fail>
    requires reader { ⟦<MemSource<'a> as Source>⟧.has_failed reader ≡ false }
    requires open { ⟦<MemSource<'a> as Source>⟧.at_end reader ≡ false }
{
    let words = ["items", "--form", form, "--min", "1"];
    let writer = MemSink::new(alloc, 100, 100, false)?;
    run_words(rt, alloc, &words, reader, writer)
}

#[test]
fn a_fault_in_the_lines_before_a_failed_read_is_told(rt: HostRuntime) -> Result<(), Fail> {
    let byte = ReadFault::Byte {
        line: 2,
        byte: 0x78,
    };
    let cases: &[(&[u8], u64, ReadFault, u8)] = &[
        (b"1 2\n", 0, ReadFault::Read, 4),
        (b"1 2\n", 4, ReadFault::Read, 4),
        (b"1 2\nx", 5, byte, 3),
    ];
    for &(input, reads, fault, status) in cases {
        let reader = MemSource::new(input, 1, Some(reads));
        let ran = items(&rt, rt.alloc(), "fimi", reader)?;
        let fault = RunFault::Input(fault);
        assert_eq!(rt; status_of(&fault), status);
        assert_ran(&rt, ran, (Err(fault), b""), ("reads", reads));
    }
    Ok(())
}

#[test]
fn a_failed_read_of_csv_is_all_that_is_told(rt: HostRuntime) -> Result<(), Fail> {
    for (form, input) in [("single", b"a\n".as_slice()), ("baskets", b"\xFF\n")] {
        let reader = MemSource::new(input, 1, Some(2));
        let ran = items(&rt, rt.alloc(), form, reader)?;
        assert_ran(
            &rt,
            ran,
            (Err(RunFault::Input(ReadFault::Read)), b""),
            (form, 2),
        );
    }
    Ok(())
}

#[test]
fn a_writer_that_fails_has_taken_a_front_of_the_report(rt: HostRuntime) -> Result<(), Fail> {
    let write = Err(RunFault::Write);
    let front = b"1 (6)\n2 (7".as_slice();
    let cases = &[
        ("items", 100, 1, false, Ok(()), NINE_ITEMS),
        ("items", 10, 100, false, write, front),
        ("items", 10, 3, false, write, front),
        ("items", 100, 0, false, write, b""),
        ("items", 100, 100, true, write, NINE_ITEMS),
        ("sets", 300, 1, false, Ok(()), THIRTEEN_SETS),
        ("sets", 10, 100, false, write, front),
        ("sets", 300, 0, false, write, b""),
        ("sets", 300, 100, true, write, THIRTEEN_SETS),
    ];
    for &(ask, room, piece, flush_fails, want, written) in cases {
        let reader = MemSource::new(NINE_BASKETS, 100, None);
        let writer = MemSink::new(rt.alloc(), room, piece, flush_fails)?;
        let ran = run_words(&rt, rt.alloc(), &[ask, "--min", "2"], reader, writer)?;
        assert_ran(&rt, ran, (want, written), (ask, piece as u64));
    }
    Ok(())
}

#[test]
fn a_writer_that_fails_ends_with_4(rt: HostRuntime) -> Result<(), Fail> {
    let text = RunFault::Write.to_string(rt.alloc())?;
    assert_eq!(rt;
        (text.as_str(), status_of(&RunFault::Write)),
        ("cannot write the report", 4)
    );
    Ok(())
}

/// A writer of std that takes all bytes and fails at a flush.
#[derive(Drop)]
struct Unflushed;

impl Write for Unflushed {
    fn write(&mut self, bytes: &[u8]) -> io::Result<usize> {
        Ok(bytes.len())
    }

    fn flush(&mut self) -> io::Result<()> {
        Err(io::Error::from(io::ErrorKind::Unsupported))
    }
}

#[test]
fn a_run_ends_with_a_flush_of_the_writer(rt: HostRuntime) -> Result<(), Fail> {
    let mut reader = MemSource::new(NINE_BASKETS, 100, None);
    let mut writer = StdSink::new(Unflushed);
    match run(
        &NoRandomBytes(&rt),
        rt.alloc(),
        &plan("2")?,
        &mut reader,
        &mut writer,
    ) {
        Err(RunFault::Input(ReadFault::Memory) | RunFault::Mine(MineFault::Memory)) => {
            Err(Fail::from(AllocError))
        }
        Err(fault) => {
            assert_eq!(rt; fault, RunFault::Write);
            Ok(())
        }
        Ok(_) => Err(Fail::new("a flush that failed ends a run without a fault")),
    }
}

/// Lines of two numbers, and a sign in one of them.
fn pairs(alloc: Global, sign: Option<u32>) -> Result<Vec<u8>, AllocError> {
    let mut text = Vec::new(alloc);
    let mut buffer = Buffer::new();
    for line in 1..70_001u32 {
        text.extend_from_slice(buffer.format(line).as_bytes())?;
        let rest = if sign == Some(line) { " -7\n" } else { " 7\n" };
        text.extend_from_slice(rest.as_bytes())?;
    }
    Ok(text)
}

/// Whether so many workers read what one reads.
fn reads_alike<R: Threads + Sync>(rt: &R, alloc: Global, text: &[u8], workers: u32) -> bool {
    let one = read_fimi(alloc, &mut MemSource::new(text, 10_000, None));
    let mut reader = MemSource::new(text, 10_000, None);
    match (
        one,
        read_fimi_shared(&NoRandomBytes(rt), alloc, &mut reader, workers),
    ) {
        (Ok(one), Ok(all)) => one.baskets() == all.baskets(),
        (Err(one), Err(all)) => one == all,
        _ => false,
    }
}

#[test]
fn workers_read_what_one_reads(rt: HostRuntime) -> Result<(), Fail> {
    for sign in [None, Some(2), Some(67_000)] {
        let text = pairs(rt.alloc(), sign)?;
        for workers in [2, 3] {
            assert!(rt;
                reads_alike(&rt, rt.alloc(), &text, workers),
                "a sign in {sign:?}, by {workers}"
            );
        }
    }
    Ok(())
}
