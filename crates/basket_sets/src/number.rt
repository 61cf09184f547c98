//! Whole numbers, written as digits.
ghost use Rattle.std.specs.Prelude.{◌≡◌, ◌≤◌, IfSome};
ghost use Rattle.basket_sets.specs.Database.{MOST_WEIGHT};
ghost use Rattle.basket_sets.specs.Number.{number_of};

/// The number that one or more digits write, if it is at most the bound. There are no signs and no
/// blanks.
#[tactic(auto, using(crate::proofs::NumberLemmas::too_large))]
pub fn parse_number(text: &[u8], bound: u64) -> Option<u64>
    requires { bound ≤ MOST_WEIGHT }
    ensures read { result ≡ number_of bound text.now }
    ensures within { IfSome result (λ value. value ≤ bound) }
{
    let mut value = 0;
    for byte in text {
        if !byte.is_ascii_digit() {
            return None;
        }
        value = value * 10 + u64::from(*byte - b'0');
        if value > bound {
            return None;
        }
    }
    (!text.is_empty()).then_some(value)
}
