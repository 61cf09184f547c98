//! The class of a rank.
ghost use Rattle.std.specs.Prelude.{◌≡◌, ◌≤◌, ◌<◌, ◌+◌, IfOk, None, OnOk, Some, false, length};
ghost use Rattle.mine_classes.specs.Mined.{MOST_SET_WORK, MinesClass};
ghost use Rattle.mine_search.specs.Class.{IsClass, of_rank};
ghost use Rattle.mine_search.specs.Node.{Supports, work_at};

use crate::mined::Mined;
use crate::projected::Projected;
use crate::search::extend;
use basket_core::{CodedItems, CountedSets, Itemset};
use mine_limit::{MineFault, Tally};
use std::alloc::Global;

/// A frequent rank with its support, its conditional database unless no rank is frequent there, and
/// the work that it took so far.
#[derive(Drop)]
pub struct Class<P: Projected> {
    pub rank: u32,
    pub support: u64,
    pub below: Option<P>,
    pub steps: P::Steps,
}

impl<P: Projected> Class<P> {
    /// The frequent sets whose greatest rank is this one, as items, each once with its support, and
    /// the work that they took (Zaki 2000). Each set is reported to the tally once it is known to be
    /// frequent. `TooMany` comes if the tally is over, or the class is longer than its limit. The empty
    /// list knows the items.
    pub fn list<T: Tally>(
        self,
        alloc: Global,
        coded: &CodedItems,
        empty: &CountedSets,
        scratch: &mut P::Scratch,
        tally: &mut T,
    ) -> Result<(CountedSets, u64), MineFault>
        requires rank { self.rank < length coded.now.items }
        requires class { (over : Supports) × IsClass P.gives coded.now self.rank self.support self.below over }
        requires lent { (inner : P) → self.below ≡ Some inner → P.serves scratch.old inner }
        requires few { P.number self.steps ≤ MOST_SET_WORK }
        requires going { T.is_over tally.old ≡ false }
        ensures class { MinesClass T.told_of T.limit_of T.is_over coded.now self.rank tally.old tally.new result }
        ensures work { IfOk result (λ mined. (over : Supports) → IsClass P.gives coded.now self.rank self.support self.below over
            → mined.1 ≡ P.number self.steps + work_at (of_rank over self.rank)) }
        ensures lent { OnOk result ((inner : P) → self.below ≡ Some inner → P.keeps inner scratch.old scratch.new) }
        ensures alone { self.below ≡ None → scratch.new ≡ scratch.old }
    {
        let Class {
            rank,
            support,
            below,
            steps,
        } = self;
        let mut mined = Mined::like(alloc, empty, steps)?;
        let set = Itemset::from_items(alloc, &[coded.item(rank)])?;
        mined.add(set, support, tally)?;
        if let Some(inner) = below {
            extend(alloc, &inner, 0, scratch, &mut mined, tally)?;
            inner.give_back(scratch);
        }
        let work = P::number_of(&mined.steps);
        Ok((mined.sets, work))
    }
}
