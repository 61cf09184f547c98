//! What the bytes of an input say, read by several workers.
ghost use Rattle.std.specs.Prelude.{◌≡◌, ◌≢◌, ◌≤◌, List, ℕ, [], None, MatchResult, OnOk, IfErr, length};
ghost use Rattle.basket_read.specs.declared.fault.ReadFault.TheVariants.{Read};
ghost use Rattle.basket_read.specs.Fault.{ReturnsBy, ReturnsFault};
ghost use Rattle.basket_read.specs.Fimi.{MOST_BYTES};
ghost use Rattle.basket_csv.specs.Csv.{after_header, bytes_say, fault_from, first_number};
ghost use Rattle.basket_csv.specs.Gathering.{HasRead};
ghost use Rattle.basket_csv.specs.Records.{records_of};

use crate::collector::add_all;
use crate::gathering::{Gathering, Named};
use crate::reading::Reading;
use crate::shared::read_all;
use crate::together::put_together;
use basket_names::Names;
use basket_read::{MAX_BYTES, ReadFault};
use std::thread::Threads;

/// What the bytes say, read in about so many parts, unless they are too many.
pub fn say<R: Threads + Sync, G: Gathering>(
    rt: &R,
    reading: Reading,
    bytes: &[u8],
    known: Names,
    count: usize,
) -> Result<(G::Found, Names), ReadFault>
    ensures said { ReturnsBy (G.finds reading) result (bytes_say reading.dialect.separator reading.dialect.header (G.fault_of reading.weighted) (G.said_of reading known) bytes.now) }
    ensures not_read { IfErr result (λ fault. fault ≢ Read) }
    ensures within { OnOk result (length bytes.now ≤ MOST_BYTES) }
{
    if bytes.len() > MAX_BYTES {
        return Err(ReadFault::TooLong);
    }
    let named: Named<G> = read_named(rt, reading, bytes, known, count)?;
    named.finish()
}

/// The records of the bytes, except the header.
fn read_named<R: Threads + Sync, G: Gathering>(
    rt: &R,
    reading: Reading,
    bytes: &[u8],
    known: Names,
    count: usize,
) -> Result<Named<G>, ReadFault>
    requires { length bytes.now ≤ MOST_BYTES }
    ensures read { let rows = after_header reading.dialect.header (records_of reading.dialect.separator bytes.now) in
        let found = fault_from (G.fault_of reading.weighted) (first_number reading.dialect.header) rows in
        MatchResult result (λ named. (found ≡ None) × HasRead G.has G.names_of reading known named rows) (λ fault. ReturnsFault fault found) }
    ensures not_read { IfErr result (λ fault. fault ≢ Read) }
{
    if count >= 2 {
        let parts = read_all(rt, reading, bytes, count)?;
        return Ok(put_together(rt, reading, parts, known)?);
    }
    let mut named = Named::new(reading, known)?;
    add_all(reading.alloc, bytes, reading.dialect, 0, &mut named)?;
    Ok(named)
}
