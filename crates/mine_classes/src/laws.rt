//! Laws on the definitions, for proofs of miners. Each is a function that does nothing: its
//! contract is the law.
ghost use Rattle.mine_classes.specs.Conditional.{ConditionalSupports};
ghost use Rattle.mine_classes.specs.Classes.{ClassesAreListed, RareRanksHaveNoClass};
ghost use Rattle.mine_classes.specs.Mined.{ClassItemsAreAll, ClassesAddUp, CodedRanksAreFrequent, ListsHaveClassSize};

use basket_ranks::laws::decoding_keeps_frequent;

/// A set of ranks that the conditional database of a rank keeps has there the support that it has,
/// with the rank added, in the baskets (Han, Pei and Yin 2000).
#[tactic(auto, using(crate::proofs::theory::Conditional::conditional_supports))]
pub fn conditional_supports()
    ensures { ConditionalSupports }
{}

/// The frequent sets whose greatest rank is a rank are a list of its class.
pub fn classes_are_listed()
    ensures { ClassesAreListed }
{}

/// A rank that is not frequent has an empty class.
#[tactic(auto, using(crate::proofs::theory::Greatest::rare_ranks_have_no_class))]
pub fn rare_ranks_have_no_class()
    ensures { RareRanksHaveNoClass }
{}

/// A list of a class has as many sets as the class.
#[tactic(auto, using(crate::proofs::theory::Listed::lists_have_class_size))]
pub fn lists_have_class_size()
    ensures { ListsHaveClassSize }
{}

/// Lists of all classes as items are together the frequent sets of the baskets that were coded, each
/// once.
pub fn class_items_are_all()
    ensures { ClassItemsAreAll }
{
    decoding_keeps_frequent();
}

/// For any test, the numbers of sets of each class that pass it add up to that of the frequent sets.
#[tactic(auto, using(crate::proofs::theory::Classes::classes_add_up))]
pub fn classes_add_up()
    ensures { ClassesAddUp }
{}

/// Each rank of a coded database is that of a frequent item, also if equal baskets of ranks were
/// merged.
pub fn coded_ranks_are_frequent()
    ensures { CodedRanksAreFrequent }
{}
