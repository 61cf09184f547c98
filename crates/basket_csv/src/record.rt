//! A record of a CSV text.
ghost use Rattle.std.specs.Prelude.{◌≡◌, ◌<◌, ℕ, length, map, option_map, IfOk, IfSome};
ghost use Rattle.csv.specs.Reading.{records};
ghost use Rattle.csv.specs.Records.{field_at};
ghost use Rattle.basket_csv.specs.Field.{is_line_end};
ghost use Rattle.basket_csv.specs.Record.{Begins, Takes, config_of, fields_of};
ghost use Rattle.basket_csv.specs.Records.{records_of};

use crate::field::{field_end, is_line_end, is_quoted};
use basket_read::text_of;
use csv::ByteRecord;
use std::alloc::AllocError;

/// The fields of a record.
#[derive(Clone, Copy)]
pub enum Record<'r> {
    /// Where they are in the text.
    Taken(&'r [&'r [u8]]),
    /// Copies that `csv` made.
    Copied(&'r ByteRecord),
}

impl<'r> Record<'r> {
    /// How many fields there are.
    #[inline]
    pub fn len(&self) -> usize
        ensures { result ≡ length (fields_of self.now) }
    {
        match self {
            Record::Taken(fields) => fields.len(),
            Record::Copied(record) => record.len(),
        }
    }

    /// The field at an index.
    #[inline]
    #[tactic(auto, using(std::proofs::lemmas::Grind::common_steps, crate::proofs::LastLemmas::field_got))]
    pub fn get(&self, index: usize) -> Option<&'r [u8]>
        ensures { option_map (λ field. field.now) result ≡ field_at (fields_of self.now) index }
    {
        match self {
            Record::Taken(fields) => fields.get(index).copied(),
            Record::Copied(record) => record.get(index),
        }
    }
}

/// The bytes from the start of the next record on, after a byte order mark and ends of lines.
#[inline]
#[tactic(auto, using(std::proofs::lemmas::Grind::common_steps, crate::proofs::MarkLemmas::text_is_stripped, crate::proofs::PlainLemmas::line_end_passed))]
pub fn next_record(bytes: &[u8]) -> &[u8]
    ensures begins { Begins result.now }
    ensures same { (separator : ℕ) → records_of separator bytes.now ≡ records (config_of separator) result.now }
{
    let mut rest = text_of(bytes);
    'bytes: while let Some((byte, more)) = rest.split_first() {
        if !is_line_end(*byte) {
            return rest;
        }
        rest = more;
    }
    rest
}

/// Takes the fields of the record at the front of a text as they are there, and returns the text from
/// the record's end on. If one of them begins with a quote, nothing is returned.
#[inline]
#[tactic(auto, using(std::proofs::lemmas::Grind::common_steps, crate::proofs::PlainLemmas::first_field, crate::proofs::LastLemmas::texts))]
pub fn take_fields<'a>(
    fields: &mut Vec<&'a [u8]>,
    text: &'a [u8],
    separator: u8,
) -> Result<Option<&'a [u8]>, AllocError>
    requires begins { Begins text.now }
    requires some { 0 < length text.now }
    ensures { IfOk result (λ left. IfSome left (λ left. Takes separator text.now (map (λ field. field.now) fields.new.items) left.now)) }
{
    fields.clear();
    let mut rest = text;
    'fields: while !is_quoted(rest) {
        let (field, after) = rest.split_at(field_end(rest, separator));
        fields.push(field)?;
        let Some((byte, more)) = after.split_first() else {
            return Ok(Some(after));
        };
        if *byte != separator {
            return Ok(Some(after));
        }
        rest = more;
    }
    Ok(None)
}
