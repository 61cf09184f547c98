//! The law of parts.
ghost use Rattle.basket_laws.specs.Parts.{CountIsShare, PartsMakeTheWhole, SomePartHasIt};

/// A set that is frequent in all parts together, at a share, is frequent at that share in one of them
/// (Savasere, Omiecinski and Navathe 1995).
#[tactic(auto, using(std::proofs::lemmas::Grind::common_steps, crate::proofs::ShareLemmas::some_part_has_it))]
pub fn some_part_has_it()
    ensures { SomePartHasIt }
{}

/// The counts, in each part, of some sets that include each set which is frequent in some part, put
/// together, list exactly the frequent sets of all parts concatenated, with their counts, in report
/// order.
#[tactic(auto, using(std::proofs::lemmas::Grind::common_steps, crate::proofs::PartLemmas::parts_make_the_whole))]
pub fn parts_make_the_whole()
    ensures { PartsMakeTheWhole }
{}

/// A minimum that is a count is the share that it has of all baskets.
#[tactic(auto, using(std::proofs::lemmas::Grind::common_steps, crate::proofs::ShareLemmas::count_is_share))]
pub fn count_is_share()
    ensures { CountIsShare }
{}
