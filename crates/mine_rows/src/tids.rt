ghost use Rattle.std.specs.Prelude.{false};
ghost use Rattle.basket_sets.specs.Itemset.{has};
ghost use Rattle.mine_rows.specs.Marks.{IsMarked};
ghost use Rattle.mine_rows.specs.Rows.{IsTidList};

use crate::marks::Marks;
use crate::row::{Row, may_pay};
use crate::weights::Weights;
use std::alloc::{AllocError, Global};

/// At least this many tids must be in the cover for a database to be made anew.
const LEAST_TIDS: usize = 16;

/// A row that lists the tids of its cover (Zaki 2000).
#[derive(Drop)]
pub struct TidList {
    tids: Vec<u32>,
    count: u64,
}

impl Row for TidList {
    ghost stands = { IsTidList };

    ghost at_rest = { λ weights marks. IsMarked weights (λ tid. false) marks };

    ghost marked = { λ row weights marks. IsMarked weights (has row.tids.items) marks };

    fn first(alloc: Global, cover: &[u32], weights: &Weights) -> Result<Self, AllocError> {
        Ok(TidList {
            tids: cover.to_vec(alloc)?,
            count: weights.weight(cover),
        })
    }

    fn empty(alloc: Global) -> Self {
        TidList {
            tids: Vec::new(alloc),
            count: 0,
        }
    }

    fn new_marks(alloc: Global, weights: &Weights) -> Result<Marks, AllocError> {
        Marks::new(alloc, weights.count())
    }

    fn mark(&self, marks: &mut Marks, weights: &Weights) {
        marks.mark(&self.tids, weights);
    }

    #[tactic(auto, using(std::proofs::lemmas::Grind::common_steps))]
    fn unmark(&self, marks: &mut Marks, _weights: &Weights) {
        marks.clear(&self.tids);
    }

    fn join(
        &mut self,
        x: &Self,
        y: &Self,
        marks: &Marks,
        weights: &Weights,
        least: u64,
    ) -> Result<bool, AllocError> {
        weights.bounds();
        let Some(count) = marks.keep(&y.tids, &mut self.tids, u64::MAX)? else {
            unreachable!()
        };
        self.count = count;
        Ok(count >= least)
    }

    fn count(&self) -> u64 {
        self.count
    }

    fn pays_to_reproject(&self, kept: usize, _joined: usize, weights: &Weights) -> bool {
        // A small part of the tids is joined sooner than its database is made anew.
        let tids = self.tids.len();
        may_pay(kept) && tids >= LEAST_TIDS && tids >= weights.count() as usize / 8
    }

    fn cover<'a>(
        &'a self,
        _weights: &Weights,
        _tids: &'a mut Vec<u32>,
    ) -> Result<Option<&'a [u32]>, AllocError> {
        Ok(Some(&self.tids))
    }
}
