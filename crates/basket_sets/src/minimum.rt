ghost use Rattle.std.specs.Prelude.{◌≡◌, ◌<◌, IfSome};
ghost use Rattle.basket_sets.specs.Minimum.{IsLeastPart, IsLeastSupport, IsMinimum, meets, minimum_of};

use crate::number::parse_number;
use crate::share::{Share, parse_share};

/// The greatest count of a minimum.
const MAX_COUNT: u64 = 1_099_511_627_775;

/// The least support that is asked for (Agrawal and Srikant 1994).
#[derive(Clone, Copy, Debug, PartialEq, Eq)]
pub enum Minimum {
    /// At least this weight.
    Count(u64),
    /// At least this share of the total weight.
    Share(Share),
}

impl Minimum {
    /// Whether a set of this support is frequent if all baskets together weigh `total`.
    pub fn met(&self, support: u64, total: u64) -> bool
        ensures { result ≡ meets self.now support total }
    {
        support >= 1
            && match self {
                Minimum::Count(least) => support >= *least,
                Minimum::Share(share) => {
                    u128::from(support) * u128::from(share.denominator())
                        >= u128::from(share.numerator()) * u128::from(total)
                }
            }
    }

    /// The least support that meets the minimum if all baskets together weigh `total`, so that a
    /// loop needs one comparison. If no support does, it is above the total.
    pub fn least(&self, total: u64) -> u64
        requires { total < u64.MAX }
        ensures { IsLeastSupport self.now total result }
    {
        let none = total + 1;
        let least = match self {
            Minimum::Count(least) => u128::from(*least),
            Minimum::Share(share) => least_part(*share, total),
        };
        least.max(1).min(u128::from(none)) as u64
    }
}

/// The least number whose product with the denominator is at least that of the numerator and the
/// total.
fn least_part(share: Share, total: u64) -> u128
    ensures { IsLeastPart share total result }
{
    let part = u128::from(share.numerator()) * u128::from(total);
    let denominator = u128::from(share.denominator());
    (part + (denominator - 1)) / denominator
}

/// Reads a count, as `2`, or a share, as `2/9` or `22%`. There are no signs and no blanks.
pub fn parse_minimum(text: &str) -> Option<Minimum>
    ensures read { result ≡ minimum_of text.now }
    ensures in_range { IfSome result IsMinimum }
{
    match parse_number(text.as_bytes(), MAX_COUNT) {
        Some(0) => None,
        Some(least) => Some(Minimum::Count(least)),
        None => Some(Minimum::Share(parse_share(text)?)),
    }
}
