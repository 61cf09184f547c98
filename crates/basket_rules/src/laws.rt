//! Laws on the definitions. Each is a function that does nothing: its contract is the law.
ghost use Rattle.basket_rules.specs.Condensed.{ListDecidesClosed, ListDecidesMaximal, OneItemMoreDecides};
ghost use Rattle.basket_rules.specs.Consistency.{FrequentIsConsistent};
ghost use Rattle.basket_rules.specs.Rules.{ConfidenceFalls, ListDecidesRules};

/// Supersets with one item more decide whether a frequent set is closed, and whether it is maximal.
pub fn one_item_more_decides()
    ensures { OneItemMoreDecides }
{}

/// The list of the frequent sets is consistent: it has each nonempty subset of its sets, with a count
/// that is no lower.
pub fn frequent_is_consistent()
    ensures { FrequentIsConsistent }
{}

/// The list of the frequent sets decides which of them are closed, without the baskets.
#[tactic(auto, using(crate::proofs::theory::Condensed::list_decides_closed))]
pub fn list_decides_closed()
    ensures { ListDecidesClosed }
{}

/// The list of the frequent sets decides which of them are maximal, without the baskets.
#[tactic(auto, using(crate::proofs::theory::Condensed::list_decides_maximal))]
pub fn list_decides_maximal()
    ensures { ListDecidesMaximal }
{}

/// The list of the frequent sets, with the weight of all baskets, decides their rules.
#[tactic(auto, using(crate::proofs::theory::Rules::list_decides_rules))]
pub fn list_decides_rules()
    ensures { ListDecidesRules }
{}

/// The confidence of the rules of one union falls as the consequent grows (Agrawal and Srikant
/// 1994).
#[tactic(auto, using(crate::proofs::theory::Rules::confidence_falls))]
pub fn confidence_falls()
    ensures { ConfidenceFalls }
{}
