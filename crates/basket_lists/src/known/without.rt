//! Finds packed sets without one of their items.
ghost use Rattle.std.specs.Prelude.{◌≡◌, ◌<◌, All, List, map};
ghost use Rattle.basket_lists.specs.Known.{shorter_number};
ghost use Rattle.basket_lists.specs.Packed.{IsKept, IsPacked, kept, unpacked};
ghost use Rattle.basket_lists.specs.Without.{AreIndexesWithout};
ghost use Rattle.basket_sets.specs.declared.counted.Counted.{Counted as Set};

use crate::known::{KnownItems, MOST_ITEMS, low_bits};
use crate::packed::{Packed, code_hash, find_code};
use basket_order::IndexTable;

impl KnownItems {
    /// The hash of a packed set, whatever its count is.
    pub fn hash(&self, packed: &Packed) -> u64 {
        code_hash(self.code(packed))
    }

    /// Where the words have a packed set without one of its items, as far as the table knows it.
    pub fn indexes_without(
        &self,
        words: &[Packed],
        table: &IndexTable,
        packed: &Packed,
        found: &mut [u32; MOST_ITEMS],
    )
        requires { IsPacked self.now packed.now }
        ensures { (plain : List Set) → All (IsKept self.now plain) words.now
            → AreIndexesWithout (map (kept self.now plain) words.now) (unpacked self.now packed.now).set MOST_ITEMS found.new }
    {
        let size = self.code_size(packed);
        let number = self.number(packed);
        let mut after = 0;
        while after < size {
            let shorter = self.without_digit(number, after * self.item_bits);
            let shorter = self.word(size - 1, shorter, 0);
            let index = find_code(words, table, self.code(&shorter), self.count_bits);
            after += 1;
            found[(size - after) as usize] = index;
        }
    }

    /// A number without the digit before the last bits.
    fn without_digit(&self, number: u128, last_bits: u32) -> u128
        requires last { last_bits < 128 }
        ensures { result ≡ shorter_number self.now.item_bits number last_bits }
    {
        (((number >> last_bits) >> self.item_bits) << last_bits) + low_bits(number, last_bits)
    }
}
