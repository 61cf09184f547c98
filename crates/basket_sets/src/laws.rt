//! Laws on the definitions, for proofs of miners. Each is a function that does nothing: its
//! contract is the law.
ghost use Rattle.basket_sets.specs.Database.{MergingKeepsSupports};
ghost use Rattle.basket_sets.specs.Frequent.{SubsetsAreFrequent, FrequentSetsHaveItems, FrequentIsUnique, FrequentItemsAreCounted, MergingKeepsFrequent};
ghost use Rattle.basket_sets.specs.Order.{SameSetsAreSameLists};
ghost use Rattle.basket_sets.specs.Subsets.{SubsetsAreInReportOrder, SubsetsAreExact};
ghost use Rattle.basket_sets.specs.Support.{SupportFalls, SupportsAddUp};

/// The subsets of a rising list are in report order.
#[tactic(auto, using(crate::proofs::theory::Subsets::subsets_are_in_report_order))]
pub fn subsets_are_in_report_order()
    ensures { SubsetsAreInReportOrder }
{}

/// The subsets of a rising list are exactly its nonempty rising sublists.
pub fn subsets_are_exact()
    ensures { SubsetsAreExact }
{}

/// Two lists of sets that are in report order and have the same sets are equal.
#[tactic(auto, using(crate::proofs::theory::Subsets::same_sets_are_same_lists))]
pub fn same_sets_are_same_lists()
    ensures { SameSetsAreSameLists }
{}

/// The support of a set is at most that of each of its subsets.
#[tactic(auto, using(crate::proofs::theory::Support::support_falls))]
pub fn support_falls()
    ensures { SupportFalls }
{}

/// The supports over the parts of a cut list of baskets add up to the support over the whole.
#[tactic(auto, using(crate::proofs::theory::Support::supports_add_up))]
pub fn supports_add_up()
    ensures { SupportsAddUp }
{}

/// Merging equal baskets changes no support.
#[tactic(auto, using(crate::proofs::theory::Merging::merging_keeps_supports))]
pub fn merging_keeps_supports()
    ensures { MergingKeepsSupports }
{}

/// Each subset of a set that meets the minimum meets it (Agrawal and Srikant 1994).
#[tactic(auto, using(crate::proofs::theory::Support::subsets_are_frequent))]
pub fn subsets_are_frequent()
    ensures { SubsetsAreFrequent }
{}

/// A set that meets a minimum has only items of the database.
#[tactic(auto, using(crate::proofs::theory::Support::frequent_sets_have_items))]
pub fn frequent_sets_have_items()
    ensures { FrequentSetsHaveItems }
{}

/// The list of the frequent sets is the only list in report order that has exactly the nonempty
/// sets that meet the minimum, each with its support.
pub fn frequent_is_unique()
    ensures { FrequentIsUnique }
{}

/// The frequent sets of one item are the items whose supports meet the minimum.
#[tactic(auto, using(crate::proofs::theory::Items::frequent_items_are_counted))]
pub fn frequent_items_are_counted()
    ensures { FrequentItemsAreCounted }
{}

/// Merging equal baskets keeps the frequent sets.
#[tactic(auto, using(crate::proofs::theory::Frequent::merging_keeps_frequent))]
pub fn merging_keeps_frequent()
    ensures { MergingKeepsFrequent }
{}
