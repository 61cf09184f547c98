//! Shifts that bring the bits of kept ranks to those of their local numbers.
ghost use Rattle.std.specs.Prelude.{◌≡◌, ◌<◌, ℕ, All, IfOk, length, map};
ghost use Rattle.std.specs.List.{list_any};
ghost use Rattle.basket_sets.specs.Counts.{AllBelow};
ghost use Rattle.basket_sets.specs.Itemset.{IsRising};
ghost use Rattle.mine_baskets.specs.declared.words.TheConstants.{WORD_RANKS};
ghost use Rattle.mine_baskets.specs.Words.{has_rank};
ghost use Rattle.mine_conditional.specs.declared.shift.Shift.{Shift as By};
ghost use Rattle.mine_conditional.specs.Shift.{AreShifts, shifted};

use mine_baskets::words::bit_of;
use smallvec::SmallVec;
use std::alloc::{AllocError, Global};

/// This many shifts need no allocation.
const INLINE_SHIFTS: usize = 8;

/// Shifts, one for each run of neighbours among the kept ranks.
pub type Shifts = SmallVec<Shift, { INLINE_SHIFTS }>;

/// How far the bits of some kept ranks are from those of their local numbers, and a mask of these.
#[derive(Clone, Copy, Default)]
pub struct Shift {
    by: u32,
    mask: u64,
}

/// The shifts of the ranks of some pairs, which are kept.
pub fn shifts_of(alloc: Global, pairs: &[(u32, u64)]) -> Result<Shifts, AllocError>
    requires rises { IsRising (map (λ pair. pair.0) pairs.now) }
    requires below { AllBelow WORD_RANKS (map (λ pair. pair.0) pairs.now) }
    ensures { IfOk result (λ shifts. AreShifts (map (λ pair. pair.0) pairs.now) (length (map (λ pair. pair.0) pairs.now)) shifts.items) }
{
    let mut shifts = SmallVec::new(alloc);
    let mut last = Shift { by: 0, mask: 0 };
    for (number, pair) in pairs.iter().enumerate() {
        let by = pair.0 - number as u32;
        if by != last.by {
            shifts.push(last)?;
            last = Shift { by, mask: 0 };
        }
        last.mask |= bit_of(number);
    }
    shifts.push(last)?;
    Ok(shifts)
}

/// The bits, brought to those of the local numbers by the shifts.
pub fn shift_all(bits: u64, shifts: &[Shift]) -> u64
    requires { All (λ (shift : By). shift.by < WORD_RANKS) shifts.now }
    ensures { (number : ℕ) → has_rank result number ≡ list_any (λ shift. has_rank (shifted bits shift) number) shifts.now }
{
    let mut moved = 0;
    for shift in shifts {
        moved |= (bits << shift.by) & shift.mask;
    }
    moved
}
