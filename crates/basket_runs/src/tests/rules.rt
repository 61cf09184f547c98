//! Rules by several workers.
use super::*;

/// A basket of 12 items, and for each of them one that lacks it: 4,095 frequent sets at a minimum of
/// 1, which several workers cut into 63 parts. Each of these has rules at a confidence of 3/4.
fn lacking_one(alloc: Global) -> Result<Vec<u8>, AllocError> {
    let mut text = Vec::new(alloc);
    let mut buffer = Buffer::new();
    for lacking in 0..13u32 {
        for item in 1..13u32 {
            if item != lacking {
                text.extend_from_slice(buffer.format(item).as_bytes())?;
                text.push(b' ')?;
            }
        }
        text.push(b'\n')?;
    }
    Ok(text)
}

/// The rules at a confidence of 3/4 that so many workers write.
fn rules_by<R: Threads + Sync>(
    rt: &R,
    alloc: Global,
    text: &[u8],
    workers: &str,
) -> Result<Vec<u8>, Fail> {
    let words = ["rules", "--min", "1", "--conf", "3/4", "--workers", workers];
    let reader = MemSource::new(text, 65_536, None);
    match run_words(rt, alloc, &words, reader, MemSink::unbounded(alloc))? {
        (Ok(()), rules) => Ok(rules),
        (Err(fault), _) => Err(Fail::from(fault)),
    }
}

#[test]
fn several_workers_write_the_rules_that_one_writes(rt: HostRuntime) -> Result<(), Fail> {
    let text = lacking_one(rt.alloc())?;
    let one = rules_by(&rt, rt.alloc(), &text, "1")?;
    assert!(rt; one.len() > 1_000_000, "there are few rules");
    for workers in ["2", "3", "7"] {
        let several = rules_by(&rt, rt.alloc(), &text, workers)?;
        assert!(rt; several == one, "{workers} workers");
    }
    Ok(())
}
