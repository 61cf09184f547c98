//! Weights of tids bit by bit.
ghost use Rattle.std.specs.Prelude.{◌≡◌, ◌≤◌, ◌<◌, ℕ, All, IfOk, length};
ghost use Rattle.std.specs.List.{list_any, sum_by};
ghost use Rattle.basket_sets.specs.Database.{MOST_WEIGHT};
ghost use Rattle.mine_rows.specs.Bits.{MOST_WORDS};
ghost use Rattle.mine_rows.specs.Planes.{ArePlanes, IsPlane, has_bit, plane_weight};
ghost use Rattle.mine_rows.specs.Weights.{MOST_TIDS};

use crate::bits::and_count;
use crate::plane::Plane;
use crate::row_words::{RowWords, set, zeros};
use std::alloc::{AllocError, Global};

/// The bits of the greatest weight that there may be.
const WEIGHT_BITS: u32 = 40;

/// The plane of a bit.
#[tactic(auto, using(std::proofs::lemmas::Grind::common_steps, crate::proofs::WordLemmas::words_same, crate::proofs::PlaneLemmas::plane_end))]
fn plane_of(alloc: Global, weights: &[u64], bit: u32) -> Result<Plane, AllocError>
    requires few { length weights.now ≤ MOST_TIDS }
    requires narrow { bit < 64 }
    ensures bit { IfOk result (λ plane. plane.bit ≡ bit) }
    ensures words { IfOk result (λ plane. IsPlane weights.now plane) }
{
    let mut words = zeros(alloc, weights.len())?;
    for (tid, weight) in weights.iter().enumerate() {
        if (*weight >> bit) % 2 == 1 {
            set(&mut words, tid);
        }
    }
    Ok(Plane::of(bit, words))
}

/// The bits that some weight has.
#[tactic(auto, using(std::proofs::lemmas::Grind::common_steps, crate::proofs::PlaneLemmas::either_bit, std::proofs::lemmas::List::Folds::list_any_more))]
fn bits_in(weights: &[u64]) -> u64
    ensures { (bit : ℕ) → has_bit bit result ≡ list_any (has_bit bit) weights.now }
{
    let mut bits = 0;
    for weight in weights {
        bits |= *weight;
    }
    bits
}

/// A plane for each bit that some weight has, or none if all weights are 1.
pub fn planes_of(alloc: Global, weights: &[u64], are_ones: bool) -> Result<Vec<Plane>, AllocError>
    requires few { length weights.now ≤ MOST_TIDS }
    ensures { IfOk result (λ planes. ArePlanes weights.now are_ones planes.items) }
{
    let mut planes = Vec::new(alloc);
    if are_ones {
        return Ok(planes);
    }
    let bits = bits_in(weights);
    for bit in 0..WEIGHT_BITS {
        if (bits >> bit) % 2 == 1 {
            planes.push(plane_of(alloc, weights, bit)?)?;
        }
    }
    Ok(planes)
}

/// The weight of the tids of a row of bits, by the planes of the weights.
pub fn weight_by_planes(words: &RowWords, planes: &[Plane]) -> u64
    requires few { length words.now.items ≤ MOST_WORDS }
    requires wide { All (λ plane. length plane.words.items ≡ length words.now.items) planes.now }
    requires narrow { All (λ plane. plane.bit < 40) planes.now }
    requires light { sum_by (plane_weight words.now.items) planes.now ≤ MOST_WEIGHT }
    ensures { result ≡ sum_by (plane_weight words.now.items) planes.now }
{
    let mut weight = 0;
    for plane in planes {
        weight += plane.count(words) << plane.bit;
    }
    weight
}
