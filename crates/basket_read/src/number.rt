//! Numbers at the beginning of bytes.
ghost use Rattle.std.specs.Prelude.{◌≡◌, ◌≤◌, ◌<◌, ℕ, List, ◌++◌, length, take, true};
ghost use Rattle.std.specs.List.{list_all};
ghost use Rattle.basket_sets.specs.Number.{is_digit, value_of};
ghost use Rattle.basket_read.specs.Fimi.{MOST_NUMBER};
ghost use Rattle.basket_read.specs.Number.{number_with};

use crate::byte_class::{ByteClass, class_of};

/// This many digits are never above the bound.
const SHORT: usize = 8;

/// The leading digits of some bytes: how many, and the value of the number that ends with them.
#[derive(Clone, Copy)]
pub struct Digits {
    pub value: u32,
    pub count: usize,
}

/// The number at the beginning of the bytes, of as many digits as keep it from going above the
/// bound.
#[inline(always)]
pub fn number_at(bytes: &[u8]) -> Digits
    ensures within { result.count ≤ length bytes.now }
    ensures bound { result.value ≤ MOST_NUMBER }
    ensures digits { list_all is_digit (take result.count bytes.now) ≡ true }
    ensures value { value_of (take result.count bytes.now) ≡ result.value }
{
    if bytes.len() < SHORT {
        return with_digits(0, bytes);
    }
    let short = short_number(&bytes[..SHORT]);
    if short.count < SHORT {
        return short;
    }
    let more = with_digits(short.value, &bytes[SHORT..]);
    Digits {
        value: more.value,
        count: SHORT + more.count,
    }
}

/// The number at the beginning of bytes that are too few for it to go above the bound.
#[inline(always)]
fn short_number(bytes: &[u8]) -> Digits
    requires { length bytes.now ≡ SHORT }
    ensures within { result.count ≤ SHORT }
    ensures bound { result.value ≤ MOST_NUMBER }
    ensures digits { list_all is_digit (take result.count bytes.now) ≡ true }
    ensures value { value_of (take result.count bytes.now) ≡ result.value }
{
    let mut value = 0;
    for (index, byte) in bytes.iter().enumerate() {
        let ByteClass::Digit(digit) = class_of(*byte) else {
            return Digits {
                value,
                count: index,
            };
        };
        value = value * 10 + u32::from(digit);
    }
    Digits {
        value,
        count: SHORT,
    }
}

/// A number with the leading digits of the bytes appended, as many as keep it from going above the
/// bound.
#[inline(always)]
pub fn with_digits(before: u32, bytes: &[u8]) -> Digits
    ensures within { result.count ≤ length bytes.now }
    ensures bound { result.value ≤ MOST_NUMBER }
    ensures digits { list_all is_digit (take result.count bytes.now) ≡ true }
    ensures value { (word : List ℕ) → value_of word ≡ before → value_of (word ++ take result.count bytes.now) ≡ result.value }
{
    let mut value = before;
    for (index, byte) in bytes.iter().enumerate() {
        let ByteClass::Digit(digit) = class_of(*byte) else {
            return Digits {
                value,
                count: index,
            };
        };
        let Some(longer) = with_digit(value, digit) else {
            return Digits {
                value,
                count: index,
            };
        };
        value = longer;
    }
    Digits {
        value,
        count: bytes.len(),
    }
}

/// A number with one digit more, if it is not above the bound.
#[inline(always)]
pub fn with_digit(value: u32, digit: u8) -> Option<u32>
    requires { digit < 10 }
    ensures { result ≡ number_with value digit }
{
    let value = u64::from(value) * 10 + u64::from(digit);
    if value <= u64::from(u32::MAX) {
        Some(value as u32)
    } else {
        None
    }
}
