//! Items that extend rising ones.
ghost use Rattle.std.specs.Prelude.{◌≡◌, ◌++◌, ◌∷◌, [], ◌↔◌, IsTrue};
ghost use Rattle.basket_sets.specs.Itemset.{IsRising};
ghost use Rattle.mine_supports.specs.Extensions.{extend};
ghost use Rattle.mine_supports.specs.Needed.{AreAtLeast};

/// Whether an item can be added to rising ones.
#[tactic(auto, using(crate::proofs::theory::Extensions::rises_after, crate::proofs::theory::Extensions::rises_alone, crate::proofs::theory::Extensions::last_below))]
pub fn rises(items: &[u32], item: u32) -> bool
    requires { IsRising items.now }
    ensures { IsTrue result ↔ IsRising (items.now ++ item ∷ []) }
{
    match items.last() {
        Some(last) => *last < item,
        None => true,
    }
}

/// A number of items that a prefix has at least with any of the items that extend it.
#[tactic(auto, using(crate::proofs::NeededLemmas::extended_at_least, crate::proofs::NeededLemmas::prefix_at_least))]
pub fn least_of(prefix: &[u32], items: &[u32]) -> usize
    requires prefix { IsRising prefix.now }
    requires items { IsRising items.now }
    ensures { AreAtLeast result (extend prefix.now items.now) }
{
    if let Some(first) = items.first() {
        if rises(prefix, *first) {
            return prefix.len() + 1;
        }
    }
    prefix.len()
}
