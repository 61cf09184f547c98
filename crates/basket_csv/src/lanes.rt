//! Bytes of a text that are looked at together.
ghost use Rattle.std.specs.Prelude.{◌≡◌, ◌≤◌, ◌<◌, ◌+◌, ◌==◌, ℕ, length, slice_index, true, false};
ghost use Rattle.basket_csv.specs.Field.{ends_field};

use std::simd::prelude::*;

/// How many bytes are looked at together.
pub const LANES: usize = 16;

/// How many of the bytes from an index on come before the first that is equal to one.
#[inline(always)]
fn bytes_before(text: &[u8], from: usize, byte: u8) -> usize
    requires { from + LANES ≤ length text.now }
    ensures within { result ≤ LANES }
    ensures before { (at : ℕ) → from ≤ at → at < from + result → (slice_index text.now at == byte) ≡ false }
    ensures found { result < LANES → (slice_index text.now (from + result) == byte) ≡ true }
{
    let lanes = u8x16::from_slice(&text[from..]);
    let equal = lanes.simd_eq(u8x16::splat(byte)).to_bitmask();
    if equal == 0 {
        LANES
    } else {
        equal.trailing_zeros() as usize
    }
}

/// How many of the bytes from an index on come before the first that ends a field without quotes.
#[inline(always)]
pub fn bytes_of_field(text: &[u8], from: usize, separator: u8) -> usize
    requires { from + LANES ≤ length text.now }
    ensures within { result ≤ LANES }
    ensures before { (at : ℕ) → from ≤ at → at < from + result → ends_field separator (slice_index text.now at) ≡ false }
    ensures found { result < LANES → ends_field separator (slice_index text.now (from + result)) ≡ true }
{
    let line = bytes_before(text, from, b'\n').min(bytes_before(text, from, b'\r'));
    line.min(bytes_before(text, from, separator))
}
