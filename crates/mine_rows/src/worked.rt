//! Worked examples of the definitions, proved by computing them, and of rows.
ghost use Rattle.std.specs.Prelude.{◌≡◌, ◌*◌, [], ◌∷◌, ℕ, IfOk, replicate};
ghost use Rattle.mine_rows.specs.Bits.{shared_bits, words_of};
ghost use Rattle.mine_rows.specs.Cover.{lacking};
ghost use Rattle.mine_rows.specs.Planes.{bits_of};

use crate::row::Row;
use crate::weights::Weights;
use std::alloc::{AllocError, Global};

/// Words that share bits: 5 and 3 with 6 and 1, and words of ones with themselves.
#[tactic(auto, using(std::proofs::lemmas::Grind::common_steps, crate::proofs::WorkedLemmas::ones_shared))]
pub fn words_share_bits()
    ensures two { shared_bits (5 ∷ 3 ∷ []) (6 ∷ 1 ∷ []) ≡ 2 }
    ensures ones { (count : ℕ) → shared_bits (replicate count 18446744073709551615) (replicate count 18446744073709551615) ≡ count * 64 }
{}

/// A row of bits: among 70 tids the cover of the tids 0, 2, 63 and 64. The weights 1, 2 and 3
/// have two planes.
pub fn rows_have_bits()
    ensures row { words_of 70 (0 ∷ 2 ∷ 63 ∷ 64 ∷ []) ≡ 9223372036854775813 ∷ 1 ∷ [] }
    ensures planes { bits_of (1 ∷ 2 ∷ 3 ∷ []) ≡ 0 ∷ 1 ∷ [] }
{}

/// Beside all of nine tids, a cover of seven lacks 4 and 6. So does what it has in common with
/// another, beside that one; and beside the cover of seven this lacks 1, 2 and 5.
pub fn differences_of_covers()
    ensures first { lacking (0 ∷ 1 ∷ 2 ∷ 3 ∷ 4 ∷ 5 ∷ 6 ∷ 7 ∷ 8 ∷ []) (0 ∷ 1 ∷ 2 ∷ 3 ∷ 5 ∷ 7 ∷ 8 ∷ []) ≡ 4 ∷ 6 ∷ [] }
    ensures joined { lacking (0 ∷ 3 ∷ 4 ∷ 6 ∷ 7 ∷ 8 ∷ []) (0 ∷ 3 ∷ 7 ∷ 8 ∷ []) ≡ 4 ∷ 6 ∷ [] }
    ensures swapped { lacking (0 ∷ 1 ∷ 2 ∷ 3 ∷ 5 ∷ 7 ∷ 8 ∷ []) (0 ∷ 3 ∷ 7 ∷ 8 ∷ []) ≡ 1 ∷ 2 ∷ 5 ∷ [] }
{}

/// Over the weights 1, 2 and 3 the cover of all tids counts 6, and that of the first and the last
/// tid 4, by each kind of row.
#[tactic(auto, using(std::proofs::lemmas::Grind::common_steps, crate::proofs::WorkedLemmas::all_rise, crate::proofs::WorkedLemmas::ends_rise))]
pub fn covers_of_three_weights<R: Row>(alloc: Global) -> Result<(u64, u64), AllocError>
    ensures { IfOk result (λ counts. (counts.0 ≡ 6) × (counts.1 ≡ 4)) }
{
    let weights = Weights::of(alloc, &[1, 2, 3])?;
    let all = R::first(alloc, &[0, 1, 2], &weights)?;
    let ends = R::first(alloc, &[0, 2], &weights)?;
    Ok((all.count(), ends.count()))
}
