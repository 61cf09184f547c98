//! Laws on what is written of parts.
ghost use Rattle.basket_laws.specs.Texts.{ReportsAreReadBack, TextsMakeTheWhole};

/// The report of some counted sets is read back as these sets with these counts, one a line.
#[tactic(auto, using(std::proofs::lemmas::Grind::common_steps, crate::proofs::TextLemmas::reports_are_read_back))]
pub fn reports_are_read_back()
    ensures { ReportsAreReadBack }
{}

/// The concatenated texts of some sets' counts in each part are an input of counted sets whose
/// report of the frequent ones is that of all parts, byte for byte.
pub fn texts_make_the_whole()
    ensures { TextsMakeTheWhole }
{}
