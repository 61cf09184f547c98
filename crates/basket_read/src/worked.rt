//! Worked texts, proved by computing what the definition returns.
ghost use Rattle.std.specs.Prelude.{◌≡◌, [], ◌∷◌, Ok, Err, None, Some, codes};
ghost use Rattle.basket_sets.specs.Database.{weighted};
ghost use Rattle.basket_read.specs.Fimi.{fimi_of, fault_in, settled_fault};
ghost use Rattle.basket_read.specs.Worked.{lines};
ghost use Rattle.basket_read.specs.declared.fault.ReadFault.TheVariants.{Byte, Number};

/// Numbers that repeat or have zeros before them are the same number.
pub fn a_number_counts_once()
    ensures { fimi_of (lines (codes "7 7 007|")) ≡ Ok (weighted (7 ∷ []) 1 ∷ []) }
{}

/// A line without a number is no basket, and the last line may lack its line feed.
pub fn blank_lines_are_no_baskets()
    ensures { fimi_of (lines (codes "|2 1| |3")) ≡ Ok (weighted (1 ∷ 2 ∷ []) 1 ∷ weighted (3 ∷ []) 1 ∷ []) }
{}

/// A carriage return is a blank, also if no line feed follows it.
pub fn a_carriage_return_is_a_blank()
    ensures { fimi_of (49 ∷ 13 ∷ 50 ∷ 13 ∷ 10 ∷ []) ≡ Ok (weighted (1 ∷ 2 ∷ []) 1 ∷ []) }
{}

/// The digit that takes a number above the bound is the fault, whatever follows.
pub fn numbers_have_a_bound()
    ensures greatest { fimi_of (codes "4294967295") ≡ Ok (weighted (4294967295 ∷ []) 1 ∷ []) }
    ensures above { fimi_of (codes "4294967296") ≡ Err (Number 1) }
    ensures before_the_times { fimi_of (codes "99999999999x") ≡ Err (Number 1) }
{}

/// The first byte that can't follow those before it is the fault.
pub fn a_sign_is_a_fault()
    ensures { fimi_of (lines (codes "1 2|3 -4")) ≡ Err (Byte 2 45) }
{}

/// The mark is taken away only whole, and half of it may still become whole.
pub fn a_mark_is_whole()
    ensures whole { fimi_of (239 ∷ 187 ∷ 191 ∷ 49 ∷ []) ≡ Ok (weighted (1 ∷ []) 1 ∷ []) }
    ensures half { fimi_of (239 ∷ 187 ∷ 49 ∷ []) ≡ Err (Byte 1 239) }
    ensures unsettled { settled_fault (239 ∷ 187 ∷ []) ≡ None }
    ensures ended { fault_in (239 ∷ 187 ∷ []) ≡ Some (Byte 1 239) }
{}

/// A weight begins a line, is at least 1, and has its `x` right after it.
pub fn a_weight_heads_a_line()
    ensures one { fimi_of (codes "02x1 3") ≡ Ok (weighted (1 ∷ 3 ∷ []) 2 ∷ []) }
    ensures zero { fimi_of (codes "0x 1") ≡ Err (Byte 1 120) }
    ensures second { fimi_of (codes "1 3x") ≡ Err (Byte 1 120) }
    ensures twice { fimi_of (codes "3x 4x") ≡ Err (Byte 1 120) }
    ensures bare { fimi_of (codes "x 1") ≡ Err (Byte 1 120) }
    ensures alone { fimi_of (lines (codes "9x |1|")) ≡ Ok (weighted (1 ∷ []) 1 ∷ []) }
{}
