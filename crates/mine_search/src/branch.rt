//! Sets that are read off a single branch.
ghost use Rattle.std.specs.Prelude.{◌≡◌, ◌≤◌, ◌<◌, ◌+◌, ◌-◌, ◌++◌, ◌⊎◌, ℕ, Err, IsTrue, OnOk, false, length, map};
ghost use Rattle.mine_limit.specs.declared.fault.MineFault.TheVariants.{TooMany};
ghost use Rattle.basket_lists.specs.CountedSets.{set_at};
ghost use Rattle.mine_search.specs.Node.{Node};
ghost use Rattle.mine_search.specs.Search.{GoesOn, IsDone, IsOf, reached};
ghost use Rattle.mine_search.specs.Straight.{IsStraight, between, chosen};

use crate::mined::Mined;
use crate::projected::Projected;
use mine_limit::{MineFault, Tally};
use std::alloc::Global;

/// Adds the frequent sets that extend the set at an index, read off a single branch: each choice of
/// its ranks, with the support of the greatest (Han, Pei and Yin 2000).
pub fn read_off<P: Projected, T: Tally>(
    alloc: Global,
    base: &P,
    index: usize,
    mined: &mut Mined<P::Steps>,
    tally: &mut T,
) -> Result<(), MineFault>
    requires found { index < length mined.old.sets }
    requires given { (node : Node) × IsOf P.gives base.now (set_at mined.old.sets index) node }
    requires straight { (node : Node) → P.gives base.now node → IsStraight node }
    requires going { GoesOn (reached P.number T.told_of T.limit_of T.is_over mined.old tally.old) }
    ensures done { IsDone P.gives base.now (set_at mined.old.sets index)
        (reached P.number T.told_of T.limit_of T.is_over mined.old tally.old)
        (reached P.number T.told_of T.limit_of T.is_over mined.new tally.new) result }
{
    let start = mined.sets.len();
    for at in 0..base.len() {
        let item = base.item(at);
        let support = base.support(at);
        let end = mined.sets.len();
        mined.add_longer(alloc, index, item, support, tally)?;
        choose(alloc, (start, end), (item, support), mined, tally)?;
    }
    Ok(())
}

/// Adds each set between two indexes once more, with one more item and with another count.
#[tactic(auto, using(std::proofs::lemmas::Grind::common_steps, crate::proofs::ReadLemmas::chosen_more))]
fn choose<S: Drop, T: Tally>(
    alloc: Global,
    bounds: (usize, usize),
    one: (u32, u64),
    mined: &mut Mined<S>,
    tally: &mut T,
) -> Result<(), MineFault>
    requires order { bounds.0 ≤ bounds.1 }
    requires within { bounds.1 ≤ length mined.old.sets }
    requires going { T.is_over tally.old ≡ false }
    ensures sets { OnOk result (mined.new.sets ≡ mined.old.sets ++ map (chosen one.0 one.1) (between bounds.0 bounds.1 mined.old.sets)) }
    ensures steps { mined.new.steps ≡ mined.old.steps }
    ensures told { OnOk result (T.told_of tally.new ≡ T.told_of tally.old + (bounds.1 - bounds.0)) }
    ensures going_on { OnOk result (T.is_over tally.new ≡ false) }
    ensures at_most { T.told_of tally.new ≤ T.told_of tally.old + (bounds.1 - bounds.0) }
    ensures limit { T.limit_of tally.new ≡ T.limit_of tally.old }
    ensures too_many { (limit : ℕ) → result ≡ Err (TooMany limit) → (limit ≡ T.limit_of tally.old)
        × (IsTrue (T.is_over tally.new) ⊎ (limit < length mined.old.sets + (bounds.1 - bounds.0))) }
{
    for from in bounds.0..bounds.1 {
        mined.add_longer(alloc, from, one.0, one.1, tally)?;
    }
    Ok(())
}
