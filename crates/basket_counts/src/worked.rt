//! Worked lists, proved by computing what the definition returns.
ghost use Rattle.std.specs.Prelude.{◌≡◌, [], ◌∷◌, Ok, Err, codes};
ghost use Rattle.basket_read.specs.Worked.{lines};
ghost use Rattle.basket_read.specs.declared.fault.ReadFault.TheVariants.{Byte, Number, Count, NoCount};
ghost use Rattle.basket_counts.specs.Counts.{sets_of_bytes, counts_of};
ghost use Rattle.basket_counts.specs.Worked.{line};

/// A set is good with or without a count, with its items in any order, and each item counts once.
pub fn counts_may_be_left_out()
    ensures sets { sets_of_bytes (lines (codes "1 2 (7)|(15)|2 1 1")) ≡ Ok ((1 ∷ 2 ∷ []) ∷ [] ∷ (1 ∷ 2 ∷ []) ∷ []) }
    ensures counts { counts_of (lines (codes "1 2 (7)|(15)|2 1 1")) ≡ Err (NoCount 3) }
    ensures whole { counts_of (lines (codes "1 2 (7)|(15)|")) ≡ Ok (line (1 ∷ 2 ∷ []) 7 1 ∷ line [] 15 2 ∷ []) }
{}

/// A count that doesn't end is none.
pub fn a_count_ends()
    ensures sets { sets_of_bytes (lines (codes "1 (7)|2 (3|4(")) ≡ Ok ((1 ∷ []) ∷ (2 ∷ []) ∷ (4 ∷ []) ∷ []) }
    ensures counts { counts_of (lines (codes "1 (7)|2 (3|")) ≡ Err (NoCount 2) }
    ensures empty { sets_of_bytes (codes "1 ()") ≡ Err (Byte 1 41) }
    ensures blank { sets_of_bytes (codes "1 ( 7)") ≡ Err (Byte 1 32) }
    ensures twice { sets_of_bytes (codes "1 (7)(") ≡ Err (Byte 1 40) }
    ensures after { sets_of_bytes (codes "1 (7) 2") ≡ Err (Byte 1 50) }
{}

/// A list of sets has no weights, and no parenthesis without a count.
pub fn weights_are_faults()
    ensures weight { sets_of_bytes (lines (codes "1|2x 3")) ≡ Err (Byte 2 120) }
    ensures close { sets_of_bytes (codes "1 )") ≡ Err (Byte 1 41) }
{}

/// The digit that takes a number or a count above its bound is the fault.
pub fn numbers_and_counts_have_bounds()
    ensures greatest { counts_of (codes "4294967295 (1099511627775)") ≡ Ok (line (4294967295 ∷ []) 1099511627775 1 ∷ []) }
    ensures number { counts_of (codes "4294967296 (1)") ≡ Err (Number 1) }
    ensures count { sets_of_bytes (codes "1 (1099511627776)") ≡ Err (Count 1) }
{}

/// A blank line says nothing, and is numbered.
pub fn blank_lines_are_numbered()
    ensures { counts_of (lines (codes "| |1 (2) |")) ≡ Ok (line (1 ∷ []) 2 3 ∷ []) }
{}
