//! Laws on coded baskets, for proofs of miners. Each is a function that does nothing: its contract
//! is the law.
ghost use Rattle.basket_ranks.specs.Added.{ItemSupportsAddUp};
ghost use Rattle.basket_ranks.specs.Codes.{CodingKeepsFrequent, DecodingKeepsFrequent, MergingKeepsCoded};
ghost use Rattle.basket_ranks.specs.Depth.{DeepSetsAreMany};
ghost use Rattle.basket_ranks.specs.Shards.{ShardsAreAll, ShardsHaveAllBaskets};

/// Coding the baskets keeps the frequent sets.
pub fn coding_keeps_frequent()
    ensures { CodingKeepsFrequent }
{}

/// Merging equal baskets of ranks keeps the frequent sets and the weight of all baskets together.
pub fn merging_keeps_coded()
    ensures { MergingKeepsCoded }
{}

/// A list that has each frequent set of ranks once has, with the ranks decoded, each frequent set
/// once. So supports over coded baskets are supports over the items.
pub fn decoding_keeps_frequent()
    ensures { DecodingKeepsFrequent }
{}

/// If a set of this many items is frequent, so are all its nonempty subsets.
#[tactic(auto, using(crate::proofs::theory::Depth::deep_sets_are_many))]
pub fn deep_sets_are_many()
    ensures { DeepSetsAreMany }
{}

/// The parts of a list that is cut into pieces lie side by side and are together the list.
pub fn shards_are_all()
    ensures numbers { ShardsAreAll }
    ensures baskets { ShardsHaveAllBaskets }
{}

/// The supports of the items over two lists of baskets, added, are their supports over both.
#[tactic(auto, using(crate::proofs::theory::Added::item_supports_add_up))]
pub fn item_supports_add_up()
    ensures { ItemSupportsAddUp }
{}
