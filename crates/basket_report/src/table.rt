//! CSV records of names.
ghost use Rattle.std.specs.Prelude.{◌≡◌, ◌≢◌, ◌++◌, [], ◌∷◌, ℕ, List, IfOk, OnOk, decimal, false};
ghost use Rattle.csv.specs.Writing.{is_blank, row_text};
ghost use Rattle.basket_report.specs.Report.{set_of};
ghost use Rattle.basket_report.specs.Texts.{ratio_text};
ghost use Rattle.basket_rules.specs.Confident.{confidence_of, lift_of, rule_from};
ghost use Rattle.basket_report.specs.Table.{HasFields, HasText, names_of, rule_record, set_record, writer_of};

use crate::ratios::Ratios;
use crate::texts::put_number;
use basket_names::Names;
use basket_rules::{RuleCounts, Sides};
use csv::{Writer, WriterBuilder};
use std::alloc::{AllocError, Global};

/// Records so far. If one can't be added, all are lost.
pub struct Table<'a> {
    names: &'a Names,
    writer: Writer<Vec<u8>>,
    /// The text of one number or fraction.
    field: Vec<u8>,
    ratios: Ratios,
}

impl Drop for Table<'_> {
    fn drop(self) {
        let Table {
            names: _,
            writer: _,
            field: _,
            ratios: _,
        } = self;
    }
}

impl<'a> Table<'a> {
    /// No records, with this separator.
    pub fn new(alloc: Global, names: &'a Names, separator: u8) -> Self
        ensures { HasText result separator names.now [] }
    {
        Table {
            names,
            writer: WriterBuilder::new()
                .delimiter(separator)
                .flexible(true)
                .from_writer(Vec::new(alloc)),
            field: Vec::new(alloc),
            ratios: Ratios::none(alloc),
        }
    }

    /// No records, for those of rules.
    pub fn for_rules(alloc: Global, names: &'a Names, separator: u8) -> Result<Self, AllocError>
        ensures { IfOk result (λ table. HasText table separator names.now []) }
    {
        let mut table = Table::new(alloc, names, separator);
        table.ratios = Ratios::new(alloc)?;
        Ok(table)
    }

    /// Adds the record of a set with its count.
    pub fn put_set(&mut self, items: &[u32], count: u64) -> Result<(), AllocError>
        ensures { (separator : ℕ) (names : List (List ℕ)) (text : List ℕ) → HasText self.old separator names text
            → OnOk result (HasText self.new separator names (text ++ set_record separator names (set_of items.now count))) }
    {
        put_number_field(&mut self.writer, &mut self.field, count)?;
        put_names(&mut self.writer, self.names, items)?;
        end_record(&mut self.writer)
    }

    /// Adds the record of a rule.
    pub fn put_rule(&mut self, sides: &Sides, counts: &RuleCounts) -> Result<(), AllocError>
        ensures { (separator : ℕ) (names : List (List ℕ)) (text : List ℕ) → HasText self.old separator names text
            → OnOk result (HasText self.new separator names (text ++ rule_record separator names (rule_from sides.now counts.now))) }
    {
        let Table {
            names,
            writer,
            field,
            ratios,
        } = self;
        put_number_field(writer, field, counts.count)?;
        put_confidence_field(writer, field, ratios, counts)?;
        put_lift_field(writer, field, ratios, counts)?;
        put_number_field(writer, field, sides.antecedent.len() as u64)?;
        put_names(writer, names, &sides.antecedent)?;
        put_names(writer, names, &sides.consequent)?;
        end_record(writer)
    }

    /// The text of all records.
    pub fn into_text(self) -> Result<Vec<u8>, AllocError>
        ensures { (separator : ℕ) (names : List (List ℕ)) (text : List ℕ) → HasText self.entry separator names text
            → IfOk result (λ written. written.items ≡ text) }
    {
        let Table {
            names: _,
            writer,
            field: _,
            ratios: _,
        } = self;
        // A vector takes all bytes, so the only error is out of memory.
        writer.into_inner().map_err(|_| AllocError)
    }
}

/// Adds a field to the record that is being written.
fn put_field(writer: &mut Writer<Vec<u8>>, field: &[u8]) -> Result<(), AllocError>
    ensures { (separator : ℕ) (text : List ℕ) (fields : List (List ℕ)) → HasFields writer.old separator text fields
        → is_blank (writer_of separator) (fields ++ field.now ∷ []) ≡ false → OnOk result (HasFields writer.new separator text (fields ++ field.now ∷ [])) }
{
    match writer.write_field(field) {
        Ok(()) => Ok(()),
        Err(_) => Err(AllocError),
    }
}

/// Adds a number.
fn put_number_field(
    writer: &mut Writer<Vec<u8>>,
    field: &mut Vec<u8>,
    number: u64,
) -> Result<(), AllocError>
    ensures { (separator : ℕ) (text : List ℕ) (fields : List (List ℕ)) → HasFields writer.old separator text fields
        → OnOk result (HasFields writer.new separator text (fields ++ decimal number ∷ [])) }
{
    field.clear();
    put_number(field, number)?;
    put_field(writer, field)
}

/// Adds the confidence of a rule, after another field.
fn put_confidence_field(
    writer: &mut Writer<Vec<u8>>,
    field: &mut Vec<u8>,
    ratios: &mut Ratios,
    counts: &RuleCounts,
) -> Result<(), AllocError>
    ensures { (separator : ℕ) (text : List ℕ) (fields : List (List ℕ)) → HasFields writer.old separator text fields → fields ≢ []
        → OnOk result (HasFields writer.new separator text (fields ++ ratio_text (confidence_of counts.now) ∷ [])) }
{
    field.clear();
    ratios.put_confidence(field, counts)?;
    put_field(writer, field)
}

/// Adds the lift of a rule, after another field.
fn put_lift_field(
    writer: &mut Writer<Vec<u8>>,
    field: &mut Vec<u8>,
    ratios: &mut Ratios,
    counts: &RuleCounts,
) -> Result<(), AllocError>
    ensures { (separator : ℕ) (text : List ℕ) (fields : List (List ℕ)) → HasFields writer.old separator text fields → fields ≢ []
        → OnOk result (HasFields writer.new separator text (fields ++ ratio_text (lift_of counts.now) ∷ [])) }
{
    field.clear();
    ratios.put_lift(field, counts)?;
    put_field(writer, field)
}

/// Adds the names of some items, after another field.
fn put_names(writer: &mut Writer<Vec<u8>>, names: &Names, items: &[u32]) -> Result<(), AllocError>
    ensures { (separator : ℕ) (text : List ℕ) (fields : List (List ℕ)) → HasFields writer.old separator text fields → fields ≢ []
        → OnOk result (HasFields writer.new separator text (fields ++ names_of names.now items.now)) }
{
    for item in items {
        put_field(writer, names.get(*item).unwrap_or("").as_bytes())?;
    }
    Ok(())
}

/// Ends a record that has a field.
fn end_record(writer: &mut Writer<Vec<u8>>) -> Result<(), AllocError>
    ensures { (separator : ℕ) (text : List ℕ) (fields : List (List ℕ)) → HasFields writer.old separator text fields → fields ≢ []
        → OnOk result (HasFields writer.new separator (text ++ row_text (writer_of separator) fields) []) }
{
    match writer.end_record() {
        Ok(()) => Ok(()),
        Err(_) => Err(AllocError),
    }
}
