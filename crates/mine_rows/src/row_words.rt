//! The words of a row of bits.
ghost use Rattle.std.specs.Prelude.{◌≡◌, ◌≢◌, ◌≤◌, ◌<◌, ◌/◌, ℕ, Bool, true, IfOk, OnOk, bit_and, length, replicate, slice_index};
ghost use Rattle.std.specs.Simd.Lanes.{zip2};
ghost use Rattle.mine_rows.specs.Bits.{MOST_WORDS, shared_bits, word_count, words_from};

use crate::bits::put_shared;
use smallvec::SmallVec;
use std::alloc::{AllocError, Global};

/// One or more words. One word is kept in place, so that up to 64 tids take no memory of their
/// own.
pub type RowWords = SmallVec<u64, { 1 }>;

/// How many words have a bit for each of this many tids: one or more.
fn words_for(tids: usize) -> usize
    ensures { result ≡ word_count tids }
{
    tids.div_ceil(64).max(1)
}

/// Words without ones, with a bit for each of this many tids.
pub fn zeros(alloc: Global, tids: usize) -> Result<RowWords, AllocError>
    ensures { IfOk result (λ words. words.items ≡ replicate (word_count tids) 0) }
{
    SmallVec::from_elem(alloc, 0, words_for(tids))
}

/// Sets the bit of a tid.
#[inline]
pub fn set(words: &mut RowWords, tid: usize)
    requires { tid / 64 < length words.old.items }
    ensures long { length words.new.items ≡ length words.old.items }
    ensures set { (test with_tid : ℕ → Bool) → words.old.items ≡ words_from test 0 (length words.old.items)
        → with_tid tid ≡ true → ((other : ℕ) → other ≢ tid → with_tid other ≡ test other)
        → words.new.items ≡ words_from with_tid 0 (length words.old.items) }
{
    let words = words.as_mut_slice();
    words[tid / 64] |= 1 << (tid % 64);
}

/// Becomes the words that two rows share. Returns how many ones they have.
#[inline]
pub fn share(words: &mut RowWords, x: &RowWords, y: &RowWords) -> Result<u64, AllocError>
    requires same { length x.now.items ≡ length y.now.items }
    requires few { length x.now.items ≤ MOST_WORDS }
    ensures words { OnOk result (words.new.items ≡ zip2 bit_and x.now.items y.now.items) }
    ensures ones { IfOk result (λ ones. ones ≡ shared_bits x.now.items y.now.items) }
{
    if words.len() != x.len() {
        words.clear();
        words.extend_from_slice(x.as_slice())?;
    }
    Ok(put_shared(words.as_mut_slice(), x.as_slice(), y.as_slice()))
}

/// The word at an index, or 0 if there is none.
fn word(words: &RowWords, at: usize) -> u64
    ensures { result ≡ slice_index words.now.items at }
{
    words.as_slice().get(at).copied().unwrap_or(0)
}

/// Whether the bit of a tid is one.
pub fn has_tid(words: &RowWords, tid: u32) -> bool
    ensures { (test : ℕ → Bool) (count : ℕ) → words.now.items ≡ words_from test 0 count → tid / 64 < count → result ≡ test tid }
{
    (word(words, tid as usize / 64) >> (tid % 64)) % 2 == 1
}
