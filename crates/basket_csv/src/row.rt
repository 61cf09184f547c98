//! The texts and the names in a record.
ghost use Rattle.std.specs.Prelude.{◌≡◌, drop, map, fold, MatchOption, IfOk, IfErr, IfSome, true, false};
ghost use Rattle.std.specs.Str.{is_utf8};
ghost use Rattle.basket_csv.specs.Record.{fields_of};
ghost use Rattle.basket_csv.specs.Csv.{field_in, is_text, names_of};
ghost use Rattle.basket_names.specs.Names.{number_in, with_name};
ghost use Rattle.basket_csv.specs.Row.{IsKnownField};

use crate::field::{is_name, text_of, trim};
use crate::record::Record;
use basket_names::Numbering;
use basket_read::ReadFault;

/// The text of a field, if it is UTF-8. It is empty if there is no such field.
#[inline]
pub fn text_at<'r>(row: &'r Record<'_>, index: usize) -> Option<&'r str>
    ensures { let field = field_in (fields_of row.now) index in
        MatchOption result (is_utf8 field ≡ false) (λ text. (text.now ≡ field) × (is_utf8 field ≡ true)) }
{
    match row.get(index) {
        Some(field) => text_of(field),
        None => Some(""),
    }
}

/// The number of the name in a field, if the field is the name and no more, and it was found
/// recently.
#[inline]
#[tactic(auto, using(std::proofs::lemmas::Grind::common_steps, crate::proofs::RowLemmas::known_field, crate::proofs::RowLemmas::field_found))]
pub fn known_number(row: &Record<'_>, index: usize, names: &Numbering) -> Option<u32>
    ensures { IfSome result (IsKnownField names.now (field_in (fields_of row.now) index)) }
{
    let field = row.get(index)?;
    if is_name(field) {
        names.known(field)
    } else {
        None
    }
}

/// Whether all fields from an index on are UTF-8.
pub fn is_text_from(row: &Record<'_>, first: usize) -> bool
    ensures { result ≡ is_text (drop first (fields_of row.now)) }
{
    for index in first..row.len() {
        if text_at(row, index).is_none() {
            return false;
        }
    }
    true
}

/// Numbers the names in the fields from an index on. If one of these is not UTF-8, or after an
/// `Err`, `names` and `numbers` are lost.
pub fn number_names(
    row: &Record<'_>,
    first: usize,
    names: &mut Numbering,
    numbers: &mut Vec<u32>,
) -> Result<bool, ReadFault>
    ensures text { IfOk result (λ is. is ≡ is_text (drop first (fields_of row.now))) }
    ensures names { IfOk result (λ is. is ≡ true → names.new ≡ fold with_name names.old (names_of (drop first (fields_of row.now)))) }
    ensures numbers { IfOk result (λ is. is ≡ true → numbers.new.items ≡ map (number_in names.new) (names_of (drop first (fields_of row.now)))) }
    ensures err { IfErr result (λ fault. fault ≡ ReadFault.Memory) }
{
    numbers.clear();
    for index in first..row.len() {
        if let Some(number) = known_number(row, index, names) {
            numbers.push(number)?;
            continue;
        }
        let Some(text) = text_at(row, index) else {
            return Ok(false);
        };
        let name = trim(text);
        if !name.is_empty() {
            numbers.push(names.number(name)?)?;
        }
    }
    Ok(true)
}
