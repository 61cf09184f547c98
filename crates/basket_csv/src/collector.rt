//! Adding the records of a text, one after another.
ghost use Rattle.std.specs.Prelude.{◌≡◌, ◌≢◌, ◌+◌, List, ℕ, ◌++◌, length, None, true, MatchResult, OnOk, IfOk, IfErr};
ghost use Rattle.basket_read.specs.declared.fault.ReadFault.TheVariants.{Read};
ghost use Rattle.basket_read.specs.Fault.{ReturnsFault};
ghost use Rattle.basket_csv.specs.declared.reading.Reading.{Reading};
ghost use Rattle.basket_csv.specs.Csv.{fault_from, after_header, first_number};
ghost use Rattle.basket_csv.specs.Gathering.{HasRead};
ghost use Rattle.basket_csv.specs.Parts.{IsWhole};
ghost use Rattle.basket_csv.specs.Records.{records_of, records_left, last_may_go_on, goes_on, IsReading};
ghost use Rattle.basket_csv.specs.Rows.{Rows};

use crate::dialect::Dialect;
use crate::gathering::{Gathering, Named};
use crate::records::Records;
use basket_read::ReadFault;
use std::alloc::Global;

/// How the records of some bytes were added.
#[derive(Clone, Copy)]
pub struct Added {
    /// How many were added.
    pub records: u32,
    /// Whether none of them goes on after the bytes.
    pub whole: bool,
}

/// Adds all records of the bytes except the header, up to the first with a fault. So many records
/// came before. A number too many for a `u32` counts as out of memory.
pub fn add_all<G: Gathering>(
    alloc: Global,
    bytes: &[u8],
    dialect: Dialect,
    before: u32,
    named: &mut Named<G>,
) -> Result<Added, ReadFault>
    ensures fault { (reading : Reading) (known : List (List ℕ)) (rows : Rows) → HasRead G.has G.names_of reading known named.old rows →
        let found = fault_from (G.fault_of reading.weighted) (before + first_number dialect.header) (after_header dialect.header (records_of dialect.separator bytes.now)) in
        MatchResult result (λ _. found ≡ None) (λ fault. ReturnsFault fault found) }
    ensures read { (reading : Reading) (known : List (List ℕ)) (rows : Rows) → HasRead G.has G.names_of reading known named.old rows →
        OnOk result (HasRead G.has G.names_of reading known named.new (rows ++ after_header dialect.header (records_of dialect.separator bytes.now))) }
    ensures records { IfOk result (λ added. added.records ≡ length (after_header dialect.header (records_of dialect.separator bytes.now))) }
    ensures whole { IfOk result (λ added. added.whole ≡ true → IsWhole dialect.separator dialect.header bytes.now) }
    ensures not_read { IfErr result (λ fault. fault ≢ Read) }
{
    let mut records = Records::new(alloc, bytes, dialect.separator);
    if !records.pass_header(dialect.header)? {
        // More bytes would begin with the header.
        return Ok(Added {
            records: 0,
            whole: false,
        });
    }
    let first = number_after(before, 1 + u32::from(dialect.header))?;
    let added = add_left(named, &mut records, first)?;
    Ok(Added {
        records: added,
        whole: dialect.separator != b'\n' && !records.may_go_on(),
    })
}

/// Adds the records that are left, of which the first has this number, up to the first with a fault,
/// and returns how many they are.
fn add_left<G: Gathering>(
    named: &mut Named<G>,
    records: &mut Records<'_>,
    first: u32,
) -> Result<u32, ReadFault>
    requires { IsReading records.old }
    ensures fault { (reading : Reading) (known : List (List ℕ)) (rows : Rows) → HasRead G.has G.names_of reading known named.old rows →
        let found = fault_from (G.fault_of reading.weighted) first (records_left records.old) in
        MatchResult result (λ _. found ≡ None) (λ fault. ReturnsFault fault found) }
    ensures read { (reading : Reading) (known : List (List ℕ)) (rows : Rows) → HasRead G.has G.names_of reading known named.old rows →
        OnOk result (HasRead G.has G.names_of reading known named.new (rows ++ records_left records.old)) }
    ensures count { IfOk result (λ count. count ≡ length (records_left records.old)) }
    ensures goes_on { OnOk result (goes_on records.new ≡ last_may_go_on (goes_on records.old) (records_left records.old)) }
    ensures not_read { IfErr result (λ fault. fault ≢ Read) }
{
    let mut nth = first;
    'rows: while records.advance()? {
        named.add(nth, &records.row())?;
        nth = number_after(nth, 1)?;
    }
    Ok(nth - first)
}

/// A number that comes so many after another, if it is a `u32`.
pub fn number_after(number: u32, more: u32) -> Result<u32, ReadFault>
    ensures sum { IfOk result (λ sum. sum ≡ number + more) }
    ensures err { IfErr result (λ fault. fault ≡ ReadFault.Memory) }
{
    match number.checked_add(more) {
        Some(sum) => Ok(sum),
        None => Err(ReadFault::Memory),
    }
}
