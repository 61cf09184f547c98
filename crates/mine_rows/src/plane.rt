//! A bit of the weights of tids.
ghost use Rattle.std.specs.Prelude.{◌≡◌, ◌≤◌, All, drop, length};
ghost use Rattle.std.proofs.Props.{props};
ghost use Rattle.mine_rows.specs.Bits.{MOST_WORDS, shared_bits};

use crate::bits::and_count;
use crate::row_words::RowWords;

/// The tids whose weights have a bit, as a row of bits.
#[derive(Drop)]
pub struct Plane {
    pub bit: u32,
    pub words: RowWords,
    /// How many words there are up to the last that has a one: few if heavy tids come first.
    used: usize,
    ghost within: { used ≤ length words.items },
    ghost ended: { All (λ word. word ≡ 0) (drop used words.items) } by { Prim.hlevel props },
}

impl Plane {
    /// The plane of a bit with these words.
    pub fn of(bit: u32, words: RowWords) -> Self
        ensures bit { result.bit ≡ bit }
        ensures words { result.words.items ≡ words.items }
    {
        let used = used_words(words.as_slice());
        Plane { bit, words, used }
    }

    /// At how many tids a row of as many words has a one, as the plane has.
    pub fn count(&self, words: &RowWords) -> u64
        requires same { length self.now.words.items ≡ length words.now.items }
        requires few { length words.now.items ≤ MOST_WORDS }
        ensures { result ≡ shared_bits words.now.items self.now.words.items }
    {
        and_count(
            &words.as_slice()[..self.used],
            &self.words.as_slice()[..self.used],
        )
    }
}

/// How many words there are up to the last that has a one.
fn used_words(words: &[u64]) -> usize
    ensures within { result ≤ length words.now }
    ensures ended { All (λ word. word ≡ 0) (drop result words.now) }
{
    let mut used = words.len();
    while used > 0 && words[used - 1] == 0 {
        used -= 1;
    }
    used
}
