//! The tids of a block of baskets, as bits of words.
ghost use Rattle.std.specs.Prelude.{◌≡◌, ◌≤◌, ◌<◌, ◌+◌, ℕ, IfSome, OnOk, length, slice_index, slice_index_or, if◌then◌else◌};
ghost use Rattle.basket_sets.specs.Database.{MOST_WEIGHT};
ghost use Rattle.mine_supports.specs.TidWord.{AreKept, IsJoinable, has_tid, part_weight, shared_weight};

use std::alloc::AllocError;

/// How many tids have a bit in a word.
pub const WORD: usize = 64;

/// Tids of one weight that have their bits in one word.
#[derive(Clone, Copy)]
pub struct TidWord {
    pub word: usize,
    pub bits: u64,
    pub weight: u64,
}

/// The index of tids of the same word and weight, to which some more can be added. They are looked for from an index on.
fn joinable(tids: &[TidWord], start: usize, more: TidWord) -> Option<usize>
    ensures { IfSome result (λ at. (at < length tids.now) × IsJoinable (slice_index_or tids.now at more) more) }
{
    for at in start..tids.len() {
        let part = tids[at];
        if part.word == more.word && part.weight == more.weight && part.bits & more.bits == 0 {
            return Some(at);
        }
    }
    None
}

/// Adds some tids, to those from an index on that they can be added to.
#[tactic(auto, using(crate::proofs::TidLemmas::added_part))]
fn add_part(tids: &mut Vec<TidWord>, start: usize, more: TidWord) -> Result<(), AllocError>
    ensures { OnOk result ((row : ℕ → ℕ) → shared_weight row tids.new.items ≡ shared_weight row tids.old.items + part_weight row more) }
{
    match joinable(tids, start, more) {
        Some(at) => {
            let part = tids[at];
            tids[at] = TidWord {
                bits: part.bits | more.bits,
                ..part
            };
        }
        None => tids.push(more)?,
    }
    Ok(())
}

/// Adds a tid of a weight, bit by bit of the weight, so that most weights have their tids together.
#[tactic(auto, using(crate::proofs::TidLemmas::lowest_bit, crate::proofs::TidLemmas::rest_more, crate::proofs::TidLemmas::made_weight))]
pub fn add_tid(
    tids: &mut Vec<TidWord>,
    start: usize,
    tid: usize,
    weight: u64,
) -> Result<(), AllocError>
    ensures { OnOk result ((row : ℕ → ℕ) → shared_weight row tids.new.items ≡ shared_weight row tids.old.items + (if has_tid row tid then weight else 0)) }
{
    let (word, bits) = (tid / WORD, 1 << (tid % WORD));
    let mut rest = weight;
    while rest > 0 {
        let weight = 1 << rest.trailing_zeros();
        add_part(tids, start, TidWord { word, bits, weight })?;
        rest -= weight;
    }
    Ok(())
}

/// A word of a row, or 0 after its end.
#[inline]
fn word_of(row: &[u64], word: usize) -> u64
    ensures { result ≡ slice_index row.now word }
{
    row.get(word).copied().unwrap_or(0)
}

/// Adds some tids, if there are any.
fn push_some(tids: &mut Vec<TidWord>, more: TidWord) -> Result<(), AllocError>
    ensures { OnOk result ((row : ℕ → ℕ) → shared_weight row tids.new.items ≡ shared_weight row tids.old.items + part_weight row more) }
{
    if more.bits != 0 {
        tids.push(more)?;
    }
    Ok(())
}

/// Puts the tids into a list that a row has too. The memory of the list is used again.
pub fn put_kept(tids: &[TidWord], row: &[u64], kept: &mut Vec<TidWord>) -> Result<(), AllocError>
    ensures { OnOk result (AreKept row.now tids.now kept.new.items) }
{
    kept.clear();
    kept.reserve(tids.len())?;
    for part in tids {
        let bits = part.bits & word_of(row, part.word);
        push_some(kept, TidWord { bits, ..*part })?;
    }
    Ok(())
}

/// What the tids weigh that a row has too.
pub fn shared_weight(tids: &[TidWord], row: &[u64]) -> u64
    requires light { shared_weight (λ word. slice_index row.now word) tids.now ≤ MOST_WEIGHT }
    ensures { result ≡ shared_weight (λ word. slice_index row.now word) tids.now }
{
    let mut weight = 0;
    for part in tids {
        let bits = part.bits & word_of(row, part.word);
        weight += u64::from(bits.count_ones()) * part.weight;
    }
    weight
}

/// How many tids there are, or `usize::MAX` if there are more. A tid counts once for each bit of its weight.
pub fn count_tids(tids: &[TidWord]) -> usize {
    let mut count: usize = 0;
    for part in tids {
        count = count.saturating_add(part.bits.count_ones() as usize);
    }
    count
}
