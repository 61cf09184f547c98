//! The miners that mine class by class.
ghost use Rattle.mine_classes.specs.Mined.{RanksAreFrequent};
ghost use Rattle.mine_fp.specs.Trees.{class_trees};
ghost use Rattle.mine_vertical.specs.Joins.{class_joins};

use basket_core::CountedSets;
use mine_conditional::ClassScratch;
use mine_fp::{Forest, fp_class_with};
use mine_limit::{MineFault, Tally};
use mine_phases::ClassMiner;
use mine_vertical::{Row, Vertical, eclat_class_with};
use std::alloc::Global;
use std::marker::PhantomData;

/// Eclat over rows of one type (Zaki 2000; Zaki and Gouda 2003).
#[derive(Drop)]
pub struct EclatMiner<'a, R> {
    pub vertical: Vertical<'a>,
    pub rows: PhantomData<R>,
}

impl<R: Row> ClassMiner for EclatMiner<'_, R> {
    ghost coding_of = { λ miner. miner.vertical };

    ghost work_of = { λ miner. class_joins miner.vertical };

    ghost rests_on = { λ miner. RanksAreFrequent miner.vertical };

    fn class<T: Tally>(
        &self,
        alloc: Global,
        scratch: &mut ClassScratch,
        rank: u32,
        tally: &mut T,
    ) -> Result<(CountedSets, u64), MineFault> {
        eclat_class_with::<R, T>(alloc, &self.vertical, scratch, rank, tally)
    }
}

/// FP-growth (Han, Pei and Yin 2000).
#[derive(Drop)]
pub struct FpGrowthMiner<'a>(pub Forest<'a>);

impl ClassMiner for FpGrowthMiner<'_> {
    ghost coding_of = { λ miner. miner.0 };

    ghost work_of = { λ miner. class_trees miner.0 };

    fn class<T: Tally>(
        &self,
        alloc: Global,
        scratch: &mut ClassScratch,
        rank: u32,
        tally: &mut T,
    ) -> Result<(CountedSets, u64), MineFault> {
        fp_class_with(alloc, &self.0, scratch, rank, tally)
    }
}
