//! Laws on the grammar of counted sets and on their faults.
ghost use Rattle.basket_counts.specs.Counts.{fault_at, is_good, is_line};
ghost use Rattle.basket_counts.specs.Laws.{ListsAreReadBack};
ghost use Rattle.basket_read.specs.Grammar.{FirstFaultIsExact, PrefixesAreGood, GoodIsFaultless};

/// Each prefix of a good line is one.
#[tactic(auto, using(crate::proofs::GrammarLemmas::line_prefixes_are_good))]
pub fn line_prefixes_are_good()
    ensures { PrefixesAreGood is_line }
{}

/// Each prefix of a good text is good.
#[tactic(auto, using(crate::proofs::GrammarLemmas::prefixes_are_good))]
pub fn prefixes_are_good()
    ensures { PrefixesAreGood is_good }
{}

/// A text is good, or it has a first fault, and not both.
#[tactic(auto, using(crate::proofs::GrammarLemmas::good_is_faultless))]
pub fn good_is_faultless()
    ensures { GoodIsFaultless is_good fault_at }
{}

/// The first fault is that of the one byte that ends a good text badly.
pub fn first_fault_is_exact()
    ensures { FirstFaultIsExact is_good fault_at }
{}

/// Counted sets that are written one a line are read back.
#[tactic(auto, using(crate::proofs::WrittenLemmas::lists_are_read_back))]
pub fn lists_are_read_back()
    ensures { ListsAreReadBack }
{}
