//! Laws on the definitions. Each is a function that does nothing: its contract is the law.
ghost use Rattle.basket_parts.specs.Laws.{CountsAddUp, CombiningByParts, CombiningKeepsCounts, CombiningKeepsFrequent, CombiningKeepsSets};

/// Lines put together have the sets that the lines have.
#[tactic(auto, using(crate::proofs::LawLemmas::combining_keeps_sets))]
pub fn combining_keeps_sets()
    ensures { CombiningKeepsSets }
{}

/// Lines put together have the counts that the lines have.
#[tactic(auto, using(crate::proofs::LawLemmas::combining_keeps_counts))]
pub fn combining_keeps_counts()
    ensures { CombiningKeepsCounts }
{}

/// Lines put together have the frequent sets that the lines have.
#[tactic(auto, using(crate::proofs::LawLemmas::combining_keeps_frequent))]
pub fn combining_keeps_frequent()
    ensures { CombiningKeepsFrequent }
{}

/// The count of a set in two lists is the sum of its counts in each.
#[tactic(auto, using(crate::proofs::LawLemmas::counts_add_up))]
pub fn counts_add_up()
    ensures { CountsAddUp }
{}

/// Each list may be put together by itself first.
#[tactic(auto, using(crate::proofs::LawLemmas::combining_by_parts))]
pub fn combining_by_parts()
    ensures { CombiningByParts }
{}
