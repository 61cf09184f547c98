//! The search for the frequent sets that extend a set, depth first.
ghost use Rattle.std.specs.Prelude.{◌<◌, OnOk, length};
ghost use Rattle.basket_lists.specs.CountedSets.{set_at};
ghost use Rattle.mine_search.specs.Node.{Node};
ghost use Rattle.mine_search.specs.Search.{GoesOn, IsDone, IsOf, reached};

use crate::branch::read_off;
use crate::mined::Mined;
use crate::projected::Projected;
use mine_limit::{MineFault, Tally};
use std::alloc::Global;

/// Adds the frequent sets that extend the set at an index, whose conditional database this is, depth
/// first. Each set is reported to the tally once it is known to be frequent.
pub fn extend<P: Projected, T: Tally>(
    alloc: Global,
    base: &P,
    index: usize,
    scratch: &mut P::Scratch,
    mined: &mut Mined<P::Steps>,
    tally: &mut T,
) -> Result<(), MineFault>
    requires found { index < length mined.old.sets }
    requires given { (node : Node) × IsOf P.gives base.now (set_at mined.old.sets index) node }
    requires going { GoesOn (reached P.number T.told_of T.limit_of T.is_over mined.old tally.old) }
    requires lent { P.serves scratch.old base.now }
    ensures done { IsDone P.gives base.now (set_at mined.old.sets index)
        (reached P.number T.told_of T.limit_of T.is_over mined.old tally.old)
        (reached P.number T.told_of T.limit_of T.is_over mined.new tally.new) result }
    ensures lent { OnOk result (P.keeps base.now scratch.old scratch.new) }
{
    if base.is_straight() {
        return read_off(alloc, base, index, mined, tally);
    }
    for at in 0..base.len() {
        let item = base.item(at);
        let support = base.support(at);
        let longer = mined.add_longer(alloc, index, item, support, tally)?;
        let below = base.projected(alloc, at, scratch, &mut mined.steps)?;
        if let Some(inner) = below {
            extend(alloc, &inner, longer, scratch, mined, tally)?;
            inner.give_back(scratch);
        }
    }
    Ok(())
}
