//! Shares of a whole.
ghost use Rattle.std.specs.Prelude.{◌≡◌, ◌≤◌, Some};
ghost use Rattle.basket_sets.specs.Share.{percentage_of, ratio_of, share_of};
ghost use Rattle.basket_sets.specs.Number.{number_of};

use crate::number::parse_number;
use std::marker::Model;

/// A fraction of a whole, from 0 to 1: a numerator and a denominator.
#[derive(Clone, Copy, Debug, PartialEq, Eq)]
pub struct Share {
    numerator: u32,
    denominator: u32,
}

impl Model for Share {
    ghost use Rattle.std.specs.Prelude.{ℕ};
    ghost use Rattle.basket_sets.specs.Share.{IsShare};

    ghost Value = { ℕ × ℕ };

    ghost view = { λ share. (share.numerator, share.denominator) };

    ghost invariant = { λ share. IsShare (share.numerator, share.denominator) };

    ghost inverse = { λ share. record { numerator = share.0; denominator = share.1 } };
}

impl Share {
    /// The share, unless the denominator is 0 or the numerator above it.
    pub fn new(numerator: u32, denominator: u32) -> Option<Self>
        ensures { result ≡ ratio_of (Some numerator) (Some denominator) }
    {
        if denominator == 0 || numerator > denominator {
            return None;
        }
        Some(Share {
            numerator,
            denominator,
        })
    }

    pub fn numerator(&self) -> u32
        ensures { result ≡ self.now.0 }
    {
        self.numerator
    }

    /// At least 1.
    pub fn denominator(&self) -> u32
        ensures value { result ≡ self.now.1 }
        ensures some { 1 ≤ result }
    {
        self.denominator
    }
}

/// Reads a share: `2/9`, or `22%` as 22 of 100.
pub fn parse_share(text: &str) -> Option<Share>
    ensures { result ≡ share_of text.now }
{
    match text.split_once('/') {
        Some((numerator, denominator)) => Share::new(part(numerator)?, part(denominator)?),
        None => percentage(text),
    }
}

fn percentage(text: &str) -> Option<Share>
    ensures { result ≡ percentage_of text.now }
{
    let (percent, rest) = text.split_once('%')?;
    if !rest.is_empty() {
        return None;
    }
    Share::new(part(percent)?, 100)
}

fn part(text: &str) -> Option<u32>
    ensures { result ≡ number_of u32.MAX text.now }
{
    parse_number(text.as_bytes(), u64::from(u32::MAX)).map(|value| value as u32)
}
