//! The records of a CSV text, one at a time.
ghost use Rattle.std.specs.Prelude.{◌≡◌, ◌+◌, [], ◌∷◌, length, true, false, if◌then◌else◌, IfOk, IfErr};
ghost use Rattle.csv.specs.Records.{fields_of as copied_fields};
ghost use Rattle.basket_csv.specs.Csv.{after_header, first_number};
ghost use Rattle.basket_csv.specs.Record.{fields_of, may_go_on};
ghost use Rattle.basket_csv.specs.Records.{records_of, records_left, record_read, rows_by, last_may_go_on, goes_on, IsReading, IsReadingBy};

use crate::record::{Record, next_record, take_fields};
use basket_read::ReadFault;
use csv::{ByteRecord, Reader, ReaderBuilder};
use std::alloc::Global;

/// Whether a record may go on after a text that ends with a line feed: its last field does too, as it can only inside quotes.
#[tactic(auto, using(crate::proofs::LastLemmas::some_field, crate::proofs::LastLemmas::no_field))]
fn may_go_on(row: &ByteRecord) -> bool
    ensures { result ≡ may_go_on (copied_fields row.now) }
{
    match row.get(row.len().saturating_sub(1)) {
        Some(field) => matches!(field.last(), Some(b'\n')),
        None => false,
    }
}

/// Records that `csv` reads.
#[derive(Drop)]
struct Quoted<'a> {
    reader: Reader<&'a [u8]>,
    row: ByteRecord,
    /// Whether the record that was read last may go on after the bytes.
    goes_on: bool,
}

impl<'a> Quoted<'a> {
    /// Records of any length.
    #[tactic(auto, using(std::proofs::lemmas::Grind::common_steps, crate::proofs::ReaderLemmas::known_bytes))]
    fn new(alloc: Global, bytes: &'a [u8], separator: u8) -> Self
        ensures reading { IsReadingBy result.reader }
        ensures rows { rows_by result.reader ≡ records_of separator bytes.now }
        ensures goes_on { result.goes_on ≡ false }
    {
        let reader = ReaderBuilder::new()
            .delimiter(separator)
            .has_headers(false)
            .flexible(true)
            .from_reader(alloc, bytes);
        Quoted {
            reader,
            row: ByteRecord::new(alloc),
            goes_on: false,
        }
    }

    /// Reads the next record, if there is one.
    #[tactic(auto, using(std::proofs::lemmas::Grind::common_steps, crate::proofs::ReaderLemmas::read_next, crate::proofs::ReaderLemmas::read_last))]
    fn read(&mut self) -> Result<bool, ReadFault>
        requires { IsReadingBy self.old.reader }
        ensures reading { IfOk result (λ found. found ≡ true → IsReadingBy self.new.reader) }
        ensures left { IfOk result (λ found. rows_by self.old.reader ≡ (if found then copied_fields self.new.row ∷ rows_by self.new.reader else [])) }
        ensures goes_on { IfOk result (λ found. self.new.goes_on ≡ (if found then may_go_on (copied_fields self.new.row) else self.old.goes_on)) }
        ensures err { IfErr result (λ fault. fault ≡ ReadFault.Memory) }
    {
        let Ok(found) = self.reader.read_byte_record(&mut self.row) else {
            // A record may have any length and bytes in memory can be read, so the only error is
            // out of memory.
            return Err(ReadFault::Memory);
        };
        if found {
            self.goes_on = may_go_on(&self.row);
        }
        Ok(found)
    }
}

/// Records that are taken as they are in a text.
#[derive(Drop)]
struct Plain<'a> {
    left: &'a [u8],
    /// The fields of the record that was taken last.
    fields: Vec<&'a [u8]>,
}

/// How the records that are left are read.
#[derive(Drop)]
enum Source<'a> {
    Text(Plain<'a>),
    Reader(Quoted<'a>),
}

/// The records of some bytes, one at a time: they are taken as they are, and from the first on that
/// has a field in quotes `csv` reads them. After an `Err` no more are read.
pub struct Records<'a> {
    alloc: Global,
    separator: u8,
    source: Source<'a>,
}

/// Whoever owns records drops them by a call. That costs less to prove than to drop each of their
/// fields wherever a function may end.
impl Drop for Records<'_> {
    fn drop(self) {
        let Records {
            alloc: _,
            separator: _,
            source: _,
        } = self;
    }
}

impl<'a> Records<'a> {
    /// The records of the bytes.
    pub fn new(alloc: Global, bytes: &'a [u8], separator: u8) -> Self
        ensures reading { IsReading result }
        ensures left { records_left result ≡ records_of separator bytes.now }
        ensures goes_on { goes_on result ≡ false }
    {
        Records {
            alloc,
            separator,
            source: Source::Text(Plain {
                left: bytes,
                fields: Vec::new(alloc),
            }),
        }
    }

    /// Reads the next record, if there is one.
    #[inline]
    pub fn advance(&mut self) -> Result<bool, ReadFault>
        requires { IsReading self.old }
        ensures reading { IfOk result (λ found. found ≡ true → IsReading self.new) }
        ensures left { IfOk result (λ found. records_left self.old ≡ (if found then record_read self.new ∷ records_left self.new else [])) }
        ensures goes_on { IfOk result (λ found. goes_on self.new ≡ (if found then may_go_on (record_read self.new) else goes_on self.old)) }
        ensures err { IfErr result (λ fault. fault ≡ ReadFault.Memory) }
    {
        let left = match &mut self.source {
            Source::Reader(quoted) => return quoted.read(),
            Source::Text(plain) => {
                let text = next_record(plain.left);
                if text.is_empty() {
                    return Ok(false);
                }
                if let Some(left) = take_fields(&mut plain.fields, text, self.separator)? {
                    plain.left = left;
                    return Ok(true);
                }
                plain.left
            }
        };
        self.hand_over(left)
    }

    /// Has `csv` read what is left: the next record, if there is one, and those after it. A reader is
    /// large, so it stands in no other function.
    #[inline(never)]
    fn hand_over(&mut self, left: &'a [u8]) -> Result<bool, ReadFault>
        ensures reading { IfOk result (λ found. found ≡ true → IsReading self.new) }
        ensures left { IfOk result (λ found. records_of self.old.separator left.now ≡ (if found then record_read self.new ∷ records_left self.new else [])) }
        ensures goes_on { IfOk result (λ found. goes_on self.new ≡ (if found then may_go_on (record_read self.new) else false)) }
        ensures err { IfErr result (λ fault. fault ≡ ReadFault.Memory) }
    {
        let mut quoted = Quoted::new(self.alloc, left, self.separator);
        let found = quoted.read()?;
        self.source = Source::Reader(quoted);
        Ok(found)
    }

    /// Leaves out the header, if there is one, and returns whether there can be records after it.
    pub fn pass_header(&mut self, header: bool) -> Result<bool, ReadFault>
        requires reading { IsReading self.old }
        ensures reading { IfOk result (λ more. more ≡ true → IsReading self.new) }
        ensures left { IfOk result (λ more. after_header header (records_left self.old) ≡ (if more then records_left self.new else [])) }
        ensures count { IfOk result (λ more. more ≡ true → first_number header + length (records_left self.new) ≡ 1 + length (records_left self.old)) }
        ensures goes_on { IfOk result (λ more. more ≡ true → last_may_go_on (goes_on self.new) (records_left self.new) ≡ last_may_go_on (goes_on self.old) (records_left self.old)) }
        ensures err { IfErr result (λ fault. fault ≡ ReadFault.Memory) }
    {
        if header { self.advance() } else { Ok(true) }
    }

    /// Whether the record that was read last may go on after the bytes.
    pub fn may_go_on(&self) -> bool
        ensures { result ≡ goes_on self.now }
    {
        match &self.source {
            Source::Text(_) => false,
            Source::Reader(quoted) => quoted.goes_on,
        }
    }

    /// The record that was read last.
    #[inline]
    pub fn row(&self) -> Record<'_>
        ensures { fields_of result ≡ record_read self.now }
    {
        match &self.source {
            Source::Text(plain) => Record::Taken(&plain.fields),
            Source::Reader(quoted) => Record::Copied(&quoted.row),
        }
    }
}
