//! Laws on the grammar of FIMI texts and on their faults.
ghost use Rattle.basket_read.specs.Fimi.{fault_at, is_good};
ghost use Rattle.basket_read.specs.Grammar.{FirstFaultIsExact, PrefixesAreGood, GoodIsFaultless};
ghost use Rattle.basket_read.specs.Laws.{LinesSayTheirs, SettledFaultsStay, UnsettledMayBeGood};

/// Each prefix of a good text is good.
#[tactic(auto, using(crate::proofs::GrammarLemmas::prefixes_are_good))]
pub fn prefixes_are_good()
    ensures { PrefixesAreGood is_good }
{}

/// A text is good, or it has a first fault, and not both.
#[tactic(auto, using(crate::proofs::GrammarLemmas::good_is_faultless))]
pub fn good_is_faultless()
    ensures { GoodIsFaultless is_good fault_at }
{}

/// The first fault is that of the one byte that ends a good text badly.
pub fn first_fault_is_exact()
    ensures { FirstFaultIsExact is_good fault_at }
{}

/// Bytes with a settled fault have it whatever follows.
pub fn settled_faults_stay()
    ensures { SettledFaultsStay }
{}

/// Bytes without a settled fault may go on so that they have none.
pub fn unsettled_may_be_good()
    ensures { UnsettledMayBeGood }
{}

/// A text that is cut after a line feed has the baskets of its parts, concatenated, and the first
/// fault of the first part that has one, its line counted on.
pub fn lines_say_theirs()
    ensures { LinesSayTheirs }
{}
