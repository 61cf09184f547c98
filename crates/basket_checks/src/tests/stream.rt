ghost use Rattle.std.specs.Prelude.{◌≡◌, false};

use super::assert_text;
use basket_core::{Failed, MemSink, MemSource, Sink, Source};
use std::alloc::{AllocError, Global};

/// Reads until the end or a failure, and says how many bytes came in how many reads, and whether it failed.
fn read_through<'a>(mut source: MemSource<'a>) -> (usize, u64, bool)
    requires { ⟦<MemSource<'a> as Source>⟧.at_end source ≡ false }
{
    let mut buf = [0; 4];
    let mut read = 0usize;
    for reads in 0..1000 {
        if source.failed() {
            return (read, reads, true);
        }
        match source.read(&mut buf) {
            Ok(0) | Err(_) => return (read, reads, source.failed()),
            Ok(count) => read = read.saturating_add(count),
        }
    }
    (read, 1000, source.failed())
}

#[test]
fn a_source_gives_its_bytes_until_it_fails(rt: HostRuntime) {
    let bytes = b"0123456789";
    let found = [
        read_through(MemSource::new(bytes, 100, None)),
        read_through(MemSource::new(bytes, 1, None)),
        read_through(MemSource::new(bytes, 3, Some(2))),
        read_through(MemSource::new(bytes, 3, Some(0))),
    ];
    assert_eq!(rt;
        found,
        [(10, 3, false), (10, 10, false), (6, 2, true), (0, 0, true)]
    );
}

/// How a sink answers to bytes, if it has not failed.
fn answer(sink: &mut MemSink, bytes: &[u8]) -> Option<Result<usize, Failed>> {
    if sink.failed() {
        None
    } else {
        Some(sink.write(bytes))
    }
}

/// How a sink with room for ten bytes answers to five writes, whether it has failed then, and whether these bytes came.
fn filled(
    alloc: Global,
    bytes: &[u8],
) -> Result<([Option<Result<usize, Failed>>; 5], bool, bool), AllocError> {
    let mut sink = MemSink::new(alloc, 10, 4, true)?;
    let answers = [
        answer(&mut sink, b"0123"),
        answer(&mut sink, b"012"),
        answer(&mut sink, b"0123"),
        answer(&mut sink, b""),
        answer(&mut sink, b"0"),
    ];
    Ok((answers, sink.failed(), sink.bytes() == bytes))
}

/// How a sink answers to a flush that fails, and whether it had failed before and has after it.
fn flushed(alloc: Global) -> Result<(bool, Result<(), Failed>, bool), AllocError> {
    let mut sink = MemSink::new(alloc, 10, 4, true)?;
    let before = sink.failed();
    let answer = sink.flush();
    Ok((before, answer, sink.failed()))
}

/// How a sink that takes no byte answers to two, and whether it had failed before and has after it.
fn refused(alloc: Global) -> Result<(bool, Option<Result<usize, Failed>>, bool), AllocError> {
    let mut sink = MemSink::new(alloc, 10, 0, false)?;
    let before = sink.failed();
    let answer = answer(&mut sink, b"01");
    Ok((before, answer, sink.failed()))
}

/// How the three sinks answer as text.
fn answers(alloc: Global) -> Result<String, AllocError> {
    let filled = filled(alloc, b"0123012012")?;
    let flushed = flushed(alloc)?;
    let refused = refused(alloc)?;
    format!(in alloc; "{filled:?} {flushed:?} {refused:?}")
}

#[test]
fn a_sink_takes_bytes_until_it_is_full_or_fails(rt: HostRuntime) -> Result<(), AllocError> {
    assert_text(
        &rt,
        answers(rt.alloc())?.as_str(),
        "([Some(Ok(4)), Some(Ok(3)), Some(Ok(3)), Some(Ok(0)), Some(Err(Failed))], true, true) \
         (false, Err(Failed), true) (false, Some(Ok(0)), true)",
    );
    Ok(())
}
