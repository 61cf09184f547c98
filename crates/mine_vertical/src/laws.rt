//! Laws on the work of Eclat, for proofs that add it up. Each is a function that does nothing: its
//! contract is the law.
ghost use Rattle.mine_vertical.specs.Joins.{ClassJoinsAddUp, SetsOfRanksAreAll};

/// The joins of all classes add up to the joins of the coding.
#[tactic(auto, using(crate::proofs::JoinLemmas::class_joins_add_up))]
pub fn class_joins_add_up()
    ensures { ClassJoinsAddUp }
{}

/// The sets of ranks over which joins are counted are the nonempty sets of ranks below a number,
/// each once.
pub fn sets_of_ranks_are_all()
    ensures { SetsOfRanksAreAll }
{}
