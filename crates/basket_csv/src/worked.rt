//! Worked inputs, proved by computing what the definition returns.
#![tactic(auto, unfolding(crate::proofs::OnLiterals::on_literals))]

ghost use Rattle.std.specs.Prelude.{◌≡◌, [], ◌∷◌, Ok, Err, true, false, codes};
ghost use Rattle.basket_sets.specs.Database.{weighted};
ghost use Rattle.basket_csv.specs.Counts.{named_counts_of};
ghost use Rattle.basket_csv.specs.Csv.{baskets_of_csv, pairs_of_csv};
ghost use Rattle.basket_csv.specs.Records.{records_of};
ghost use Rattle.basket_csv.specs.Worked.{lines, counted};
ghost use Rattle.basket_read.specs.declared.fault.ReadFault.TheVariants.{NotText, ShortRecord, Weight, RecordCount};

/// Names lose the spaces at their ends, empty names are ignored, and a name counts once.
pub fn names_are_trimmed()
    ensures { baskets_of_csv 44 false false [] (lines (codes " x ,x|,y|")) ≡ Ok (weighted (0 ∷ []) 1 ∷ weighted (1 ∷ []) 1 ∷ [], codes "x" ∷ codes "y" ∷ []) }
{}

/// A quoted name may have the separator in it.
pub fn quoted_names_are_whole()
    ensures { baskets_of_csv 44 false false [] (codes "\"semi, skim\", bread,,") ≡ Ok (weighted (0 ∷ 1 ∷ []) 1 ∷ [], codes "semi, skim" ∷ codes "bread" ∷ []) }
{}

/// A quote opens a field only as its first byte, and is an ordinary byte elsewhere. Within quotes
/// one is written twice.
pub fn quotes_open_fields_at_their_start()
    ensures inside { records_of 44 (codes "a\"b\",c") ≡ (codes "a\"b\"" ∷ codes "c" ∷ []) ∷ [] }
    ensures twice { records_of 44 (codes "\"a\"\"b\",c") ≡ (codes "a\"b" ∷ codes "c" ∷ []) ∷ [] }
    ensures empty { records_of 44 (lines (codes "\"\"|")) ≡ ([] ∷ []) ∷ [] }
{}

/// Text after a closing quote joins the field, and a quote that is left open ends with the input.
pub fn quotes_end_with_their_field()
    ensures joined { records_of 44 (lines (codes "\"a,\"b,c|")) ≡ (codes "a,b" ∷ codes "c" ∷ []) ∷ [] }
    ensures joined_quote { records_of 44 (lines (codes "\"a\"b\"c\",d|")) ≡ (codes "ab\"c\"" ∷ codes "d" ∷ []) ∷ [] }
    ensures left_open { records_of 44 (lines (codes "x|\"a,b|c|")) ≡ (codes "x" ∷ []) ∷ (lines (codes "a,b|c|") ∷ []) ∷ [] }
{}

/// A line feed, a carriage return, or both in this order end a record, and a blank line is none.
pub fn line_ends_end_records()
    ensures { records_of 44 (codes "a\rb,c\r\nd\n\n\r\re") ≡ (codes "a" ∷ []) ∷ (codes "b" ∷ codes "c" ∷ []) ∷ (codes "d" ∷ []) ∷ (codes "e" ∷ []) ∷ [] }
{}

/// The header is left out and numbered, and nothing in it is a fault.
pub fn the_header_is_a_record()
    ensures left_out { baskets_of_csv 44 true false [] (255 ∷ 10 ∷ 120 ∷ 10 ∷ []) ≡ Ok (weighted (0 ∷ []) 1 ∷ [], codes "x" ∷ []) }
    ensures numbered { baskets_of_csv 44 true false [] (97 ∷ 10 ∷ 255 ∷ 10 ∷ []) ≡ Err (NotText 2) }
{}

/// A weight is in the first field, and is at least 1.
pub fn a_weight_is_a_field()
    ensures two { baskets_of_csv 59 false true [] (lines (codes "2;bread;milk|1;bread|")) ≡ Ok (weighted (0 ∷ 1 ∷ []) 2 ∷ weighted (0 ∷ []) 1 ∷ [], codes "bread" ∷ codes "milk" ∷ []) }
    ensures zero { baskets_of_csv 44 false true [] (lines (codes "0,bread|")) ≡ Err (Weight 1) }
{}

/// Baskets are in the order in which their ids first appear, and names are numbered in that order
/// too.
pub fn ids_are_gathered()
    ensures { pairs_of_csv 44 false [] (lines (codes "b,milk|a,bread| b,bread|b,milk|")) ≡ Ok (weighted (0 ∷ 1 ∷ []) 1 ∷ weighted (1 ∷ []) 1 ∷ [], codes "milk" ∷ codes "bread" ∷ []) }
{}

/// A record of one field is a fault, but not before one that is no text.
pub fn an_id_needs_a_name()
    ensures short { pairs_of_csv 44 false [] (lines (codes "b,milk|a|")) ≡ Err (ShortRecord 2) }
    ensures text_first { pairs_of_csv 44 false [] (255 ∷ []) ≡ Err (NotText 1) }
{}

/// Known names keep their numbers, whether the input has them or not, and new ones come after them.
pub fn known_names_come_first()
    ensures baskets { baskets_of_csv 44 false false (codes "tea" ∷ codes "x" ∷ []) (lines (codes "y,x|")) ≡ Ok (weighted (1 ∷ 2 ∷ []) 1 ∷ [], codes "tea" ∷ codes "x" ∷ codes "y" ∷ []) }
    ensures pairs { pairs_of_csv 44 false (codes "tea" ∷ codes "x" ∷ []) (lines (codes "b,y|b,x|")) ≡ Ok (weighted (1 ∷ 2 ∷ []) 1 ∷ [], codes "tea" ∷ codes "x" ∷ codes "y" ∷ []) }
{}

/// A set has its count in the first field, which may be 0, and a record without names is the empty set.
pub fn a_count_heads_a_record()
    ensures empty { named_counts_of 44 false [] (codes "15") ≡ Ok (counted [] 15 1 ∷ [], []) }
    ensures two { named_counts_of 44 true [] (lines (codes "count,items|7,bread,milk|0,tea|")) ≡ Ok (counted (0 ∷ 1 ∷ []) 7 2 ∷ counted (2 ∷ []) 0 3 ∷ [], codes "bread" ∷ codes "milk" ∷ codes "tea" ∷ []) }
    ensures known { named_counts_of 44 false (codes "x" ∷ codes "tea" ∷ []) (codes " 3 , tea") ≡ Ok (counted (1 ∷ []) 3 1 ∷ [], codes "x" ∷ codes "tea" ∷ []) }
    ensures repeated { named_counts_of 44 false [] (codes "2,tea,bread,tea") ≡ Ok (counted (0 ∷ 1 ∷ []) 2 1 ∷ [], codes "tea" ∷ codes "bread" ∷ []) }
{}

/// A first field that is no count is a fault, but not before a field that is no text.
pub fn a_bad_count_is_a_fault()
    ensures word { named_counts_of 44 false [] (lines (codes "1,tea|bread,milk|")) ≡ Err (RecordCount 2) }
    ensures above { named_counts_of 44 false [] (codes "1099511627776,tea") ≡ Err (RecordCount 1) }
    ensures text_first { named_counts_of 44 false [] (120 ∷ 44 ∷ 255 ∷ []) ≡ Err (NotText 1) }
{}
