ghost use Rattle.std.specs.Prelude.{◌≡◌, IfOk};
ghost use Rattle.basket_sets.specs.Itemset.{AllBelow};
ghost use Rattle.mine_rows.specs.Bits.{words_of};
ghost use Rattle.mine_rows.specs.Planes.{ArePlanes, are_ones};
ghost use Rattle.mine_rows.specs.Rows.{IsBitRow};

use crate::marks::Marks;
use crate::row::{Row, may_pay};
use crate::row_words::{RowWords, has_tid, set, share, zeros};
use crate::weights::Weights;
use smallvec::SmallVec;
use std::alloc::{AllocError, Global};

/// A row with a bit for each tid, which is one if the tid is in its cover.
#[derive(Drop)]
pub struct BitRow {
    words: RowWords,
    count: u64,
}

/// A bit for each tid below a number, which is one if the tid is in a cover.
fn bits_of_cover(alloc: Global, cover: &[u32], tids: u32) -> Result<RowWords, AllocError>
    requires { AllBelow tids cover.now }
    ensures { IfOk result (λ words. words.items ≡ words_of tids cover.now) }
{
    let mut words = zeros(alloc, tids as usize)?;
    for tid in cover {
        set(&mut words, *tid as usize);
    }
    Ok(words)
}

impl Row for BitRow {
    ghost stands = { IsBitRow };

    ghost at_rest = { λ weights marks. ArePlanes weights (are_ones weights) marks.planes.items };

    ghost marked = { λ row weights marks. ArePlanes weights (are_ones weights) marks.planes.items };

    fn first(alloc: Global, cover: &[u32], weights: &Weights) -> Result<Self, AllocError> {
        Ok(BitRow {
            words: bits_of_cover(alloc, cover, weights.count())?,
            count: weights.weight(cover),
        })
    }

    fn empty(alloc: Global) -> Self {
        BitRow {
            words: SmallVec::new(alloc),
            count: 0,
        }
    }

    fn new_marks(alloc: Global, weights: &Weights) -> Result<Marks, AllocError> {
        Marks::planes(alloc, weights)
    }

    fn mark(&self, _marks: &mut Marks, _weights: &Weights) {}

    fn unmark(&self, _marks: &mut Marks, _weights: &Weights) {}

    fn join(
        &mut self,
        x: &Self,
        y: &Self,
        marks: &Marks,
        weights: &Weights,
        least: u64,
    ) -> Result<bool, AllocError> {
        weights.bounds();
        let ones = share(&mut self.words, &x.words, &y.words)?;
        self.count = weights.weight_of_bits(&self.words, ones, &marks.planes);
        Ok(self.count >= least)
    }

    fn count(&self) -> u64 {
        self.count
    }

    fn pays_to_reproject(&self, kept: usize, joined: usize, weights: &Weights) -> bool {
        may_pay(kept) && kept >= joined / 2 && weights.count() > 64 && weights.is_halved()
    }

    fn cover<'a>(
        &'a self,
        weights: &Weights,
        tids: &'a mut Vec<u32>,
    ) -> Result<Option<&'a [u32]>, AllocError> {
        tids.clear();
        for tid in 0..weights.count() {
            if has_tid(&self.words, tid) {
                tids.push(tid)?;
            }
        }
        Ok(Some(tids.as_slice()))
    }
}
