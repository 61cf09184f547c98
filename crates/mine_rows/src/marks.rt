//! What is known of tids while a row is joined with others.
ghost use Rattle.std.specs.Prelude.{◌≡◌, ◌≤◌, ◌<◌, ◌||◌, ◌&&◌, ℕ, Bool, false, true, List, IfNone, IfOk, IfSome, filter, length, nat_lt, not, slice_index};
ghost use Rattle.std.specs.List.{sum_by};
ghost use Rattle.basket_sets.specs.Database.{MOST_WEIGHT};
ghost use Rattle.basket_sets.specs.Itemset.{AllBelow, has};
ghost use Rattle.mine_rows.specs.Marks.{IsMarked};
ghost use Rattle.mine_rows.specs.Planes.{ArePlanes, are_ones};

use crate::plane::Plane;
use crate::weights::Weights;
use std::alloc::{AllocError, Global};

/// The weight of each tid that is marked, and 0 for the others. For rows of bits no tid is marked, and
/// the weights of all are there bit by bit.
#[derive(Drop)]
pub struct Marks {
    pub weights: Vec<u64>,
    pub planes: Vec<Plane>,
}

impl Marks {
    /// No tid is marked.
    pub fn new(alloc: Global, tids: u32) -> Result<Self, AllocError>
        ensures { IfOk result (λ marks. (weights : List ℕ) → length weights ≡ tids
            → IsMarked weights (λ tid. false) marks) }
    {
        Ok(Marks {
            weights: vec![in alloc; 0u64; tids as usize]?,
            planes: Vec::new(alloc),
        })
    }

    /// All tids are marked.
    pub fn full(alloc: Global, weights: &Weights) -> Result<Self, AllocError>
        ensures { IfOk result (IsMarked weights.now (λ tid. true)) }
    {
        Ok(Marks {
            weights: weights.to_vec(alloc)?,
            planes: Vec::new(alloc),
        })
    }

    /// The weights bit by bit.
    pub fn planes(alloc: Global, weights: &Weights) -> Result<Self, AllocError>
        ensures { IfOk result (λ marks. ArePlanes weights.now (are_ones weights.now) marks.planes.items) }
    {
        Ok(Marks {
            weights: Vec::new(alloc),
            planes: weights.planes(alloc)?,
        })
    }

    /// Marks tids, beside those that are marked.
    pub fn mark(&mut self, tids: &[u32], weights: &Weights)
        requires long { length self.old.weights.items ≡ length weights.now }
        requires below { AllBelow (length weights.now) tids.now }
        ensures { (test : ℕ → Bool) → IsMarked weights.now test self.old
            → IsMarked weights.now (λ tid. has tids.now tid || test tid) self.new }
    {
        for tid in tids {
            self.weights[*tid as usize] = weights.of_tid(*tid);
        }
    }

    /// Clears the marks of tids.
    pub fn clear(&mut self, tids: &[u32])
        requires { AllBelow (length self.old.weights.items) tids.now }
        ensures { (weights : List ℕ) (test : ℕ → Bool) → IsMarked weights test self.old
            → IsMarked weights (λ tid. not (has tids.now tid) && test tid) self.new }
    {
        for tid in tids {
            self.weights[*tid as usize] = 0;
        }
    }

    /// Keeps those of some tids that are marked, replacing other tids. Returns their weight, or none
    /// if that is more than the most: then not all tids were looked at.
    #[inline(always)]
    #[tactic(auto, using(std::proofs::lemmas::Grind::common_steps, std::proofs::lemmas::List::take_all))]
    pub fn keep(
        &self,
        tids: &[u32],
        kept: &mut Vec<u32>,
        most: u64,
    ) -> Result<Option<u64>, AllocError>
        requires below { AllBelow (length self.now.weights.items) tids.now }
        requires light { sum_by (λ tid. slice_index self.now.weights.items tid) tids.now
            ≤ MOST_WEIGHT }
        ensures tids { IfOk result (λ sum. IfSome sum (λ _. kept.new.items
            ≡ filter (λ tid. nat_lt 0 (slice_index self.now.weights.items tid)) tids.now)) }
        ensures sum { IfOk result (λ sum. IfSome sum (λ sum. (sum ≤ most)
            × (sum ≡ sum_by (λ tid. slice_index self.now.weights.items tid) tids.now))) }
        ensures more { IfOk result (λ sum. IfNone sum (most < sum_by (λ tid. slice_index self.now.weights.items tid) tids.now)) }
    {
        kept.clear();
        kept.extend_from_slice(tids)?;
        let mut count = 0;
        let mut sum = 0;
        for tid in tids {
            let weight = self.weights[*tid as usize];
            // Whether a tid is marked can't be predicted, so each is written, and the next one
            // over it if it isn't kept.
            kept[count] = *tid;
            count += usize::from(weight > 0);
            sum += weight;
            if sum > most {
                return Ok(None);
            }
        }
        kept.truncate(count);
        Ok(Some(sum))
    }
}
