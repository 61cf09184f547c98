//! Laws on parts of baskets of names.
ghost use Rattle.basket_laws.specs.Names.{NamedPartsAnswerAsTheWhole, NamedPartsAreParts};

use basket_parts::laws::{combining_keeps_counts, combining_keeps_frequent, combining_keeps_sets};

/// If records of baskets of names are cut into parts, and the names of all are known beforehand in
/// the order in which they first appear, the baskets of the parts, concatenated, are those of all
/// records, number by number.
pub fn named_parts_are_parts()
    ensures { NamedPartsAreParts }
{}

/// Counted sets of names that say what is counted over each part, with the names in that order, answer
/// each question at the share as all records do, byte for byte.
pub fn named_parts_answer_as_the_whole()
    ensures { NamedPartsAnswerAsTheWhole }
{
    combining_keeps_sets();
    combining_keeps_counts();
    combining_keeps_frequent();
}
