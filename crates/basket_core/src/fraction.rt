//! Fractions in lowest terms.
ghost use Rattle.std.specs.Prelude.{◌≡◌, ◌≤◌, ◌++◌, ◌%◌, ◌∷◌, decimal, Some};
ghost use Rattle.std.specs.Int.{IsGcd};
ghost use Rattle.basket_core.specs.Fraction.{IsLowest, IsRatioOf, lowest};

use std::fmt;
use std::marker::Model;

/// A fraction in lowest terms. Zero is 0/1.
#[derive(Clone, Copy, Debug, PartialEq, Eq)]
pub struct Fraction {
    numerator: u128,
    denominator: u128,
}

impl Model for Fraction {
    ghost use Rattle.basket_core.specs.Fraction.{Ratio, IsLowest};

    ghost Value = { Ratio };

    ghost view = { λ f. record { numerator = f.numerator; denominator = f.denominator } };

    ghost inverse = { λ r. record { numerator = r.numerator; denominator = r.denominator } };

    ghost invariant = { λ f. IsLowest (record { numerator = f.numerator; denominator = f.denominator }) };
}

impl Fraction {
    /// The fraction in lowest terms.
    pub fn reduced(numerator: u128, denominator: u128) -> Self
        requires { 1 ≤ denominator }
        ensures value { result ≡ lowest numerator denominator }
        ensures same { IsRatioOf numerator denominator result }
        ensures lowest { IsLowest result }
    {
        let divisor = common_divisor(numerator, denominator);
        Fraction {
            numerator: numerator / divisor,
            denominator: denominator / divisor,
        }
    }

    pub fn numerator(&self) -> u128
        ensures { result ≡ self.now.numerator }
    {
        self.numerator
    }

    /// At least 1.
    pub fn denominator(&self) -> u128
        ensures value { result ≡ self.now.denominator }
        ensures some { 1 ≤ result }
    {
        self.denominator
    }
}

/// The greatest common divisor, by Euclid's algorithm.
fn common_divisor(a: u128, b: u128) -> u128
    ensures { IsGcd a b result }
{
    let most = u128::from(u64::MAX);
    if a <= most && b <= most {
        return u128::from(short_divisor(a as u64, b as u64));
    }
    let mut greater = a;
    let mut less = b;
    while less != 0 {
        let rest = greater % less;
        greater = less;
        less = rest;
    }
    greater
}

/// The greatest common divisor of numbers that the processor divides.
fn short_divisor(a: u64, b: u64) -> u64
    ensures { IsGcd a b result }
{
    let mut greater = a;
    let mut less = b;
    while less > 0 {
        let rest = greater % less;
        greater = less;
        less = rest;
    }
    greater
}

/// The numerator, a slash and the denominator.
impl fmt::Display for Fraction {
    ghost output = { λ fraction. Some (decimal fraction.numerator ++ 47 ∷ decimal fraction.denominator) };

    fn fmt<W: fmt::Write>(&self, f: &mut fmt::Formatter<W>) -> fmt::Result {
        write!(f, "{}/{}", self.numerator, self.denominator)
    }
}
