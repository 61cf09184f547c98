//! FIMI text that is fed in pieces, and read in small blocks.
ghost use Rattle.std.specs.Prelude.{◌≤◌};

use super::{assert_text, text_of};
use basket_core::MemSource;
use basket_read::{FimiParts, ReadFault, read_fimi_by};
use std::alloc::Global;
use std::test::Fail;

fn byte(line: u32, byte: u8) -> ReadFault {
    ReadFault::Byte { line, byte }
}

/// The baskets of a text that is fed in pieces.
fn read_pieces(alloc: Global, pieces: &[&[u8]]) -> Result<String, ReadFault> {
    let mut parts = FimiParts::new(alloc);
    for piece in pieces {
        parts.feed(piece)?;
    }
    let database = parts.finish()?;
    Ok(text_of(alloc, database.baskets())?)
}

#[test]
fn a_number_or_a_mark_may_be_cut_between_pieces(rt: HostRuntime) -> Result<(), Fail> {
    let number = read_pieces(rt.alloc(), &[b"1", b"2 3", b"\n"])?;
    assert_text(&rt, number.as_str(), "3 12 (1)|");
    let mark = read_pieces(rt.alloc(), &[b"\xEF", b"", b"\xBB\xBF7"])?;
    assert_text(&rt, mark.as_str(), "7 (1)|");
    Ok(())
}

/// The faults of up to three pieces as they are fed, and then that of the whole text.
fn faults(alloc: Global, pieces: &[&[u8]]) -> ([Option<ReadFault>; 3], Option<ReadFault>) {
    let mut parts = FimiParts::new(alloc);
    let mut faults = [None; 3];
    for (fault, piece) in faults.iter_mut().zip(pieces) {
        *fault = parts.feed(piece).err();
    }
    (faults, parts.finish().err())
}

#[test]
fn a_fault_in_a_piece_stays(rt: HostRuntime) {
    let half = Some(byte(1, 0xEF));
    let sign = Some(byte(1, 0x2D));
    let found = [
        faults(rt.alloc(), &[b"\xEF", b"\xBB", b"1"]),
        faults(rt.alloc(), &[b"\xEF"]),
        faults(rt.alloc(), &[b"3 -", b"5"]),
    ];
    assert_eq!(rt;
        found,
        [
            ([None, None, half], half),
            ([None, None, None], half),
            ([sign, sign, None], sign)
        ]
    );
}

/// The baskets of a text that is read in blocks of this many bytes.
fn read_in_blocks(alloc: Global, text: &[u8], block: usize) -> Result<String, ReadFault>
    requires some { 1 ≤ block }
    requires few { block ≤ 3 }
{
    let database = read_fimi_by(alloc, &mut MemSource::new(text, 65_536, None), block)?;
    Ok(text_of(alloc, database.baskets())?)
}

#[test]
fn a_text_in_blocks_of_few_bytes_has_the_same_baskets(rt: HostRuntime) -> Result<(), Fail> {
    let rows: &[(&[u8], &str)] = &[
        (
            b"1 2 5\n2 4\n2 3\n1 2 4\n1 3\n2 3\n1 3\n1 2 3 5\n1 2 3\n",
            "1 2 5 (1)|2 4 (1)|2 3 (1)|1 2 4 (1)|1 3 (1)|2 3 (1)|1 3 (1)|1 2 3 5 (1)|1 2 3 (1)|",
        ),
        (b"\xEF\xBB\xBF7", "7 (1)|"),
        (b"\xEF\xBB\xBF\r\n \n", ""),
        (b"7 7 007\n", "7 (1)|"),
        (b"10 2", "2 10 (1)|"),
        (b"12x 34\n\n5", "34 (12)|5 (1)|"),
    ];
    for &(text, baskets) in rows {
        for block in 1..4 {
            let found = read_in_blocks(rt.alloc(), text, block)?;
            assert_text(&rt, found.as_str(), baskets);
        }
    }
    Ok(())
}

/// The fault of a text in blocks of this many bytes by a reader that gives one byte a read, and fails after these reads.
fn fault_in_blocks(alloc: Global, text: &[u8], reads: u64, block: usize) -> Option<ReadFault>
    requires some { 1 ≤ block }
    requires few { block ≤ 3 }
{
    read_fimi_by(alloc, &mut MemSource::new(text, 1, Some(reads)), block).err()
}

/// The faults of a text in blocks of one byte, of two and of three.
fn faults_in_blocks(alloc: Global, text: &[u8], reads: u64) -> [Option<ReadFault>; 3] {
    [
        fault_in_blocks(alloc, text, reads, 1),
        fault_in_blocks(alloc, text, reads, 2),
        fault_in_blocks(alloc, text, reads, 3),
    ]
}

/// The reader fails after the last byte.
#[test]
fn a_fault_before_a_failed_read_is_told_in_blocks_of_few_bytes(rt: HostRuntime) {
    let half = [Some(byte(1, 0xEF)); 3];
    let read = [Some(ReadFault::Read); 3];
    let sign = [Some(byte(2, 0x2D)); 3];
    let number = [Some(ReadFault::Number { line: 1 }); 3];
    let alloc = rt.alloc();
    let found = [
        faults_in_blocks(alloc, b"\xEF\xBB", 2),
        faults_in_blocks(alloc, b"\xEF", 1),
        faults_in_blocks(alloc, b"\xEF\xBB\xBF", 3),
        faults_in_blocks(alloc, b"1 2", 3),
        faults_in_blocks(alloc, b"1 2\n3 -", 7),
        faults_in_blocks(alloc, b"\xEF\xBB1", 3),
        faults_in_blocks(alloc, b"4294967296", 10),
        faults_in_blocks(alloc, b"99999999999x", 12),
    ];
    assert_eq!(rt; found, [half, half, read, read, sign, half, number, number]);
}
