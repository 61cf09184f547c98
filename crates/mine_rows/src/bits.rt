//! Bits that two lists of words share.
ghost use Rattle.std.specs.Prelude.{◌≡◌, ◌≤◌, ◌*◌, All, bit_and, length};
ghost use Rattle.std.specs.Simd.Lanes.{zip2};
ghost use Rattle.mine_rows.specs.Bits.{MOST_WORDS, shared_bits, shared_in_chunks};

use std::simd::prelude::*;

/// The bits that chunks of words share, counted by lanes.
#[tactic(auto, using(std::proofs::lemmas::Grind::common_steps, crate::proofs::BitLemmas::chunks_step, crate::proofs::BitLemmas::lanes_share, std::proofs::lemmas::Simd::adds_fit, crate::proofs::BitLemmas::lane_ones))]
fn shared_by_lanes(first: &[[u64; 4]], second: &[[u64; 4]]) -> u64
    requires same { length first.now ≡ length second.now }
    requires wide { All (λ words. length words ≡ 4) first.now × All (λ words. length words ≡ 4) second.now }
    requires few { shared_in_chunks first.now second.now ≤ MOST_WORDS * 64 }
    ensures { result ≡ shared_in_chunks first.now second.now }
{
    let mut lanes = u64x4::splat(0);
    for (at, words) in first.iter().enumerate() {
        let both = u64x4::from_array(*words) & u64x4::from_array(second[at]);
        lanes = lanes.strict_add(both.count_ones());
    }
    lanes.strict_reduce_sum()
}

/// The bits that words share, counted word by word.
#[tactic(auto, using(std::proofs::lemmas::Grind::common_steps, crate::proofs::BitLemmas::shared_most, crate::proofs::BitLemmas::shared_step))]
fn shared_by_words(first: &[u64], second: &[u64]) -> u64
    requires same { length first.now ≡ length second.now }
    requires few { length first.now ≤ MOST_WORDS }
    ensures ones { result ≡ shared_bits first.now second.now }
    ensures most { result ≤ length first.now * 64 }
{
    let mut count = 0;
    for (at, word) in first.iter().enumerate() {
        count += u64::from((word & second[at]).count_ones());
    }
    count
}

/// At how many bits two rows of words both have a one.
#[tactic(auto, using(std::proofs::lemmas::Grind::common_steps, crate::proofs::BitLemmas::chunks_wide))]
pub fn and_count(a: &[u64], b: &[u64]) -> u64
    requires same { length a.now ≡ length b.now }
    requires few { length a.now ≤ MOST_WORDS }
    ensures { result ≡ shared_bits a.now b.now }
{
    if a.len() < 4 {
        return shared_by_words(a, b);
    }
    let (chunks, rest) = a.as_chunks::<4>();
    let (other_chunks, other_rest) = b.as_chunks::<4>();
    shared_by_lanes(chunks, other_chunks) + shared_by_words(rest, other_rest)
}

/// Writes the bits that two rows of words share, and returns how many they are.
#[tactic(auto, using(std::proofs::lemmas::Grind::common_steps, crate::proofs::BitLemmas::shared_most, crate::proofs::BitLemmas::shared_step))]
pub fn put_shared(words: &mut [u64], x: &[u64], y: &[u64]) -> u64
    requires long { length words.old ≡ length x.now }
    requires same { length x.now ≡ length y.now }
    requires few { length x.now ≤ MOST_WORDS }
    ensures words { words.new ≡ zip2 bit_and x.now y.now }
    ensures ones { result ≡ shared_bits x.now y.now }
{
    let mut ones = 0;
    for at in 0..words.len() {
        let both = x[at] & y[at];
        words[at] = both;
        ones += u64::from(both.count_ones());
    }
    ones
}
