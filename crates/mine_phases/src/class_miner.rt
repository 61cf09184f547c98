//! The miners that mine class by class.
ghost use Rattle.std.specs.Prelude.{◌≡◌, ◌<◌, ℕ, IfOk, OnOk, false, length};
ghost use Rattle.basket_ranks.specs.Codes.{Coding};
ghost use Rattle.mine_classes.specs.Mined.{MinesClass};
ghost use Rattle.mine_conditional.specs.ClassScratch.{IsScratchOf};

use basket_core::CountedSets;
use mine_conditional::ClassScratch;
use mine_limit::{MineFault, Tally};
use std::alloc::Global;

/// Mines the class of a rank.
pub trait ClassMiner {
    ghost coding_of: { Self → Coding };

    /// The work of the class of a rank.
    ghost work_of: { Self → ℕ → ℕ };

    /// What that rests on: nothing, if a miner doesn't say.
    ghost rests_on: { Self → Type 0 } = { λ _. Unit {0} };

    /// The sets of the class as items, and how much work they took. Each set is reported to the
    /// tally. The scratch memory is used again from class to class.
    fn class<T: Tally>(
        &self,
        alloc: Global,
        scratch: &mut ClassScratch,
        rank: u32,
        tally: &mut T,
    ) -> Result<(CountedSets, u64), MineFault>
        requires rank { rank < length (coding_of self.now).items }
        requires scratch { IsScratchOf (length (coding_of self.now).items) scratch.old }
        requires going { T.is_over tally.old ≡ false }
        ensures class { MinesClass T.told_of T.limit_of T.is_over (coding_of self.now) rank tally.old tally.new result }
        ensures work { IfOk result (λ mined. rests_on self.now → mined.1 ≡ work_of self.now rank) }
        ensures scratch { OnOk result (IsScratchOf (length (coding_of self.now).items) scratch.new) };
}
