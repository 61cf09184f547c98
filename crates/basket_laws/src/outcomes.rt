//! Laws on questions to parts.
ghost use Rattle.basket_laws.specs.Outcomes.{PartsAnswerAsTheWhole};

use basket_parts::laws::{combining_keeps_counts, combining_keeps_frequent, combining_keeps_sets};

/// Each question at a share, asked of the concatenated texts of some sets' counts in each part, has
/// the outcome that it has over all parts concatenated, byte for byte: items, sets, closed and
/// maximal sets, rules, or that there are too many.
#[tactic(auto, using(std::proofs::lemmas::Grind::common_steps, crate::proofs::OutcomeLemmas::parts_answer_as_the_whole))]
pub fn parts_answer_as_the_whole()
    ensures { PartsAnswerAsTheWhole }
{
    combining_keeps_sets();
    combining_keeps_counts();
    combining_keeps_frequent();
}
