//! Laws on what CSV records say.
ghost use Rattle.basket_csv.specs.Laws.{GatheringIsById};
ghost use Rattle.basket_csv.specs.Named.{SupportIsByNames, NamedSupportsAddUp, BasketsAreNumbered, PairsAreNumbered, BasketSupportIsByNames, PairSupportIsByNames};

/// Each id has one basket, with the names of all its records.
#[tactic(auto, using(crate::proofs::LawLemmas::by_id))]
pub fn gathering_is_by_id()
    ensures { GatheringIsById }
{}

/// Supports don't depend on the numbers that names have.
#[tactic(auto, using(crate::proofs::NamedLemmas::support_is_by_names))]
pub fn support_is_by_names()
    ensures { SupportIsByNames }
{}

/// The support of a set of names in some baskets and others is the sum of its supports in each.
#[tactic(auto, using(crate::proofs::NamedLemmas::named_supports_add_up))]
pub fn named_supports_add_up()
    ensures { NamedSupportsAddUp }
{}

/// What is read of records that have a basket each is their named baskets over a numbering.
pub fn baskets_are_numbered()
    ensures numbered { BasketsAreNumbered }
    ensures support { BasketSupportIsByNames }
{}

/// What is read of pairs of an id and a name is their named baskets over a numbering.
pub fn pairs_are_numbered()
    ensures numbered { PairsAreNumbered }
    ensures support { PairSupportIsByNames }
{}
