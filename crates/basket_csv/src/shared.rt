//! Records that workers read side by side.
//!
//! The bytes are cut after line feeds, and each part is read as a text of its own, with names of its
//! own. That is right unless a record goes on past the part's end. From the first part on that may
//! have such a record, or has a fault, one thread reads the rest.
ghost use Rattle.std.specs.Prelude.{◌≡◌, ◌≢◌, ◌≤◌, ◌+◌, ◌++◌, ℕ, List, [], false, length, None, MatchResult, IfOk, IfErr};
ghost use Rattle.std.specs.Thread.{IsSync};
ghost use Rattle.basket_read.specs.declared.fault.ReadFault.TheVariants.{Read};
ghost use Rattle.basket_read.specs.Fault.{ReturnsFault};
ghost use Rattle.basket_csv.specs.declared.reading.Reading.{Reading};
ghost use Rattle.basket_csv.specs.Csv.{after_header, fault_from, first_number};
ghost use Rattle.basket_csv.specs.Gathering.{HasRead};
ghost use Rattle.basket_csv.specs.Records.{records_of};
ghost use Rattle.basket_csv.specs.Rows.{InParts};
ghost use Rattle.basket_csv.specs.Shared.{AreRight, IsReadPart};

use crate::collector::add_all;
use crate::dialect::Dialect;
use crate::gathering::{Gathering, Named};
use crate::parts::end_of_part;
use crate::reading::Reading;
use basket_names::Names;
use basket_read::ReadFault;
use std::alloc::{AllocError, Global};
use std::thread::{Threads, join};

/// The records of some bytes, how many they are, and whether none of them goes on after the bytes.
#[derive(Drop)]
struct ReadPart<C> {
    part: C,
    records: u32,
    whole: bool,
}

/// The parts that were read up to an index, from which on the bytes are not read yet.
#[derive(Drop)]
struct RightParts<C> {
    parts: Vec<C>,
    end: usize,
    /// How many records come before the index, the header among them.
    before: usize,
    /// Whether the header comes after it.
    header: bool,
}

impl<G: Gathering> RightParts<Named<G>> {
    /// No part.
    fn none(alloc: Global, header: bool) -> Self
        ensures { (reading : Reading) (bytes : List ℕ) → AreRight (HasRead G.has G.names_of reading []) (G.fault_of reading.weighted) reading.dialect.separator header bytes result }
    {
        RightParts {
            parts: Vec::new(alloc),
            end: 0,
            before: 0,
            header,
        }
    }

    /// These after a part of so many bytes.
    fn after(
        self,
        alloc: Global,
        read: ReadPart<Named<G>>,
        header: bool,
        end: usize,
    ) -> Result<Self, AllocError>
        ensures { (reading : Reading) (first rest : List ℕ) → end ≡ length first → IsReadPart (HasRead G.has G.names_of reading []) (G.fault_of reading.weighted) reading.dialect.separator header first read
            → after_header header (records_of reading.dialect.separator (first ++ rest)) ≡ after_header header (records_of reading.dialect.separator first) ++ records_of reading.dialect.separator rest
            → AreRight (HasRead G.has G.names_of reading []) (G.fault_of reading.weighted) reading.dialect.separator false rest self → IfOk result (AreRight (HasRead G.has G.names_of reading []) (G.fault_of reading.weighted) reading.dialect.separator header (first ++ rest)) }
    {
        let mut later = self;
        let own = usize::from(header) + read.records as usize;
        let before = sum(own, later.before)?;
        let end = sum(end, later.end)?;
        let mut parts = Vec::with_capacity(alloc, later.parts.len() + 1)?;
        parts.push(read.part)?;
        parts.append(&mut later.parts)?;
        Ok(RightParts {
            parts,
            end,
            before,
            header: later.header,
        })
    }
}

/// The records of all of about so many parts.
#[tactic(auto, using(std::proofs::lemmas::Grind::common_steps, std::proofs::lemmas::Result::err_from_is_err_and, crate::proofs::SharedLemmas::all_fault))]
pub fn read_all<R: Threads + Sync, G: Gathering>(
    rt: &R,
    reading: Reading,
    bytes: &[u8],
    count: usize,
) -> Result<Vec<Named<G>>, ReadFault>
    ensures fault { let found = fault_from (G.fault_of reading.weighted) (first_number reading.dialect.header) (after_header reading.dialect.header (records_of reading.dialect.separator bytes.now)) in
        MatchResult result (λ _. found ≡ None) (λ fault. ReturnsFault fault found) }
    ensures parts { IfOk result (λ parts. InParts (HasRead G.has G.names_of reading []) parts.items (after_header reading.dialect.header (records_of reading.dialect.separator bytes.now))) }
    ensures not_read { IfErr result (λ fault. fault ≢ Read) }
{
    let RightParts {
        mut parts,
        end,
        before,
        header,
    } = read_parts(rt, reading, reading.dialect.header, bytes, count)?;
    let (_, rest) = bytes.split_at(end);
    if rest.is_empty() {
        return Ok(parts);
    }
    let Ok(before) = u32::try_from(before) else {
        return Err(ReadFault::Memory);
    };
    let last = read_part(reading, header, rest, before)?;
    parts.push(last.part)?;
    Ok(parts)
}

/// The records of about so many parts, up to the first part that may be wrong.
#[cycle(parts)]
fn read_parts<R: Threads + Sync, G: Gathering>(
    rt: &R,
    reading: Reading,
    header: bool,
    bytes: &[u8],
    count: usize,
) -> Result<RightParts<Named<G>>, AllocError>
    ensures { IfOk result (AreRight (HasRead G.has G.names_of reading []) (G.fault_of reading.weighted) reading.dialect.separator header bytes.now) }
{
    let alloc = reading.alloc;
    let end = end_of_part(bytes, count);
    let (first, rest) = bytes.split_at(end);
    if rest.is_empty() {
        return match read_part(reading, header, first, 0) {
            Ok(read) => RightParts::none(alloc, false).after(alloc, read, header, end),
            Err(_) => Ok(RightParts::none(alloc, header)),
        };
    }
    let (read, later) = read_both(rt, reading, header, first, rest, count);
    match read {
        Ok(read) if read.whole => later?.after(alloc, read, header, end),
        _ => Ok(RightParts::none(alloc, header)),
    }
}

/// The records of a part, and those of about one part less after it.
#[cycle(parts)]
fn read_both<R: Threads + Sync, G: Gathering>(
    rt: &R,
    reading: Reading,
    header: bool,
    first: &[u8],
    rest: &[u8],
    count: usize,
) -> (
    Result<ReadPart<Named<G>>, ReadFault>,
    Result<RightParts<Named<G>>, AllocError>,
)
    requires { 2 ≤ count }
    ensures first { IfOk result.0 (IsReadPart (HasRead G.has G.names_of reading []) (G.fault_of reading.weighted) reading.dialect.separator header first.now) }
    ensures rest { IfOk result.1 (AreRight (HasRead G.has G.names_of reading []) (G.fault_of reading.weighted) reading.dialect.separator false rest.now) }
{
    let (later, read) = join(
        rt,
        || -> Result<RightParts<Named<G>>, AllocError>
            requires { IsSync R.row × (2 ≤ count) }
            ensures { IfOk result (AreRight (HasRead G.has G.names_of reading []) (G.fault_of reading.weighted) reading.dialect.separator false rest.entry.now) }
        { read_parts(rt, reading, false, rest, count - 1) },
        || -> Result<ReadPart<Named<G>>, ReadFault>
            ensures { IfOk result (IsReadPart (HasRead G.has G.names_of reading []) (G.fault_of reading.weighted) reading.dialect.separator header first.entry.now) }
        { read_part(reading, header, first, 0) },
    );
    (read, later)
}

/// The records of a part, before which so many come.
fn read_part<G: Gathering>(
    reading: Reading,
    header: bool,
    bytes: &[u8],
    before: u32,
) -> Result<ReadPart<Named<G>>, ReadFault>
    ensures fault { IfErr result (λ fault. ReturnsFault fault (fault_from (G.fault_of reading.weighted) (before + first_number header) (after_header header (records_of reading.dialect.separator bytes.now)))) }
    ensures part { IfOk result (IsReadPart (HasRead G.has G.names_of reading []) (G.fault_of reading.weighted) reading.dialect.separator header bytes.now) }
    ensures not_read { IfErr result (λ fault. fault ≢ Read) }
{
    let alloc = reading.alloc;
    let mut part = Named::new(reading, Names::none(alloc))?;
    let dialect = Dialect {
        header,
        ..reading.dialect
    };
    let added = add_all(alloc, bytes, dialect, before, &mut part)?;
    Ok(ReadPart {
        part,
        records: added.records,
        whole: added.whole,
    })
}

/// The sum of two numbers, if it is a `usize`.
fn sum(number: usize, more: usize) -> Result<usize, AllocError>
    ensures { IfOk result (λ sum. sum ≡ number + more) }
{
    match number.checked_add(more) {
        Some(sum) => Ok(sum),
        None => Err(AllocError),
    }
}
