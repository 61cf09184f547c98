//! The fields of a record.
ghost use Rattle.std.specs.Prelude.{◌≡◌, ◌≤◌, ◌<◌, ◌-◌, ℕ, length, slice_index, MatchOption, true, false};
ghost use Rattle.std.specs.Str.{is_utf8};
ghost use Rattle.std.specs.List.{prefix_len, suffix_len};
ghost use Rattle.basket_csv.specs.Field.{ends_field, is_line_end, is_quoted, is_space, trimmed};

use crate::lanes::{LANES, bytes_of_field};
use std::str;

#[inline(always)]
fn is_space(byte: u8) -> bool
    ensures { result ≡ is_space byte }
{
    matches!(byte, b' ' | b'\t')
}

/// How many leading spaces and tabs there are.
#[inline]
#[tactic(auto, using(std::proofs::lemmas::Grind::common_steps, std::proofs::lemmas::List::Sums::prefix_len_is))]
fn leading_spaces(bytes: &[u8]) -> usize
    ensures value { result ≡ prefix_len is_space bytes.now }
    ensures within { result ≤ length bytes.now }
    ensures space { 0 < result → is_space (slice_index bytes.now (result - 1)) ≡ true }
{
    for (index, byte) in bytes.iter().enumerate() {
        if !is_space(*byte) {
            return index;
        }
    }
    bytes.len()
}

/// How many bytes there are before the spaces and tabs at the end.
#[inline]
#[tactic(auto, using(std::proofs::lemmas::Grind::common_steps, std::proofs::lemmas::List::Sums::suffix_len_is))]
fn end_spaces(bytes: &[u8]) -> usize
    ensures value { result ≡ length bytes.now - suffix_len is_space bytes.now }
    ensures within { result ≤ length bytes.now }
    ensures space { result < length bytes.now → is_space (slice_index bytes.now result) ≡ true }
{
    let mut end = bytes.len();
    while end > 0 && is_space(bytes[end - 1]) {
        end -= 1;
    }
    end
}

/// A text without the spaces and tabs at its two ends.
#[inline]
#[tactic(auto, using(std::proofs::lemmas::Grind::common_steps, crate::proofs::FieldLemmas::cut_after_spaces))]
pub fn trim(text: &str) -> &str
    ensures { result.now ≡ trimmed text.now }
{
    let rest = &text[leading_spaces(text.as_bytes())..];
    &rest[..end_spaces(rest.as_bytes())]
}

/// Whether a field is a name as it is: it is not empty, and has no spaces and tabs at its ends.
#[inline]
pub fn is_name(field: &[u8]) -> bool
    ensures trimmed { result ≡ true → trimmed field.now ≡ field.now }
    ensures some { result ≡ true → 0 < length field.now }
{
    let len = field.len();
    len > 0 && !is_space(field[0]) && !is_space(field[len - 1])
}

/// The text of a field, if it is UTF-8.
#[inline]
pub fn text_of(field: &[u8]) -> Option<&str>
    ensures { MatchOption result (is_utf8 field.now ≡ false) (λ text. (text.now ≡ field.now) × (is_utf8 field.now ≡ true)) }
{
    str::from_utf8(field).ok()
}

#[inline(always)]
pub fn is_line_end(byte: u8) -> bool
    ensures { result ≡ is_line_end byte }
{
    byte == b'\r' || byte == b'\n'
}

#[inline(always)]
fn ends_field(byte: u8, separator: u8) -> bool
    ensures { result ≡ ends_field separator byte }
{
    byte == separator || is_line_end(byte)
}

/// Where the field at the front of a text ends, if it has no quotes.
#[inline]
pub fn field_end(text: &[u8], separator: u8) -> usize
    ensures within { result ≤ length text.now }
    ensures inside { (at : ℕ) → at < result → ends_field separator (slice_index text.now at) ≡ false }
    ensures end { result < length text.now → ends_field separator (slice_index text.now result) ≡ true }
{
    let mut end = 0;
    'lanes: while text.len() - end >= LANES {
        let more = bytes_of_field(text, end, separator);
        if more < LANES {
            return end + more;
        }
        end += LANES;
    }
    last_end(text, end, separator)
}

/// Where a field that does not end before an index ends.
fn last_end(text: &[u8], from: usize, separator: u8) -> usize
    requires from { from ≤ length text.now }
    requires inside { (at : ℕ) → at < from → ends_field separator (slice_index text.now at) ≡ false }
    ensures within { result ≤ length text.now }
    ensures inside { (at : ℕ) → at < result → ends_field separator (slice_index text.now at) ≡ false }
    ensures end { result < length text.now → ends_field separator (slice_index text.now result) ≡ true }
{
    for index in from..text.len() {
        if ends_field(text[index], separator) {
            return index;
        }
    }
    text.len()
}

/// Whether the field at the front of a text has quotes.
#[inline(always)]
pub fn is_quoted(text: &[u8]) -> bool
    ensures { result ≡ is_quoted text.now }
{
    matches!(text.first(), Some(b'"'))
}
