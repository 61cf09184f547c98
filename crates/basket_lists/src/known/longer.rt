//! Makes words of sets, item by item.
ghost use Rattle.std.specs.Prelude.{◌≡◌, ◌<◌, ◌^◌, [], IfSome, IsTrue, length, map, slice_index_or};
ghost use Rattle.basket_lists.specs.Known.{FitsWord, IsBetween, IsWordOf, longer_number};
ghost use Rattle.basket_lists.specs.Packed.{IsLonger, IsPacked, digits, unpacked};
ghost use Rattle.basket_sets.specs.Itemset.{AllBelow, IsRising, rising};

use crate::known::{KnownItems, bits_of, low_bits};
use crate::packed::{Packed, SIZE_AT};
use basket_sets::Itemset;

impl KnownItems {
    /// The empty set, or none if a word has no room for the count.
    fn no_items(&self, count: u64) -> Option<Packed>
        ensures packed { IfSome result (IsPacked self.now) }
        ensures same { IfSome result (λ packed. unpacked self.now packed ≡ record { set = []; count = count }) }
    {
        if !self.has_room(count) {
            return None;
        }
        Some(self.word(0, 0, count))
    }

    /// A set as a word, or none if an item isn't known, or a word has no room.
    pub fn pack(&self, set: &Itemset, count: u64) -> Option<Packed>
        ensures packed { IfSome result (IsPacked self.now) }
        ensures same { IfSome result (λ packed. unpacked self.now packed ≡ record { set = set.now; count = count }) }
    {
        let mut packed = self.no_items(count)?;
        for item in set.items() {
            packed = self.longer(&packed, *item, count)?;
        }
        Some(packed)
    }

    /// The set of the names of some numbers as a word, or none if one isn't known, two are one, or
    /// a word has no room. The list has the name of a number at the index of that number.
    pub fn pack_renamed(&self, numbers: &Itemset, names: &[u32], count: u64) -> Option<Packed>
        requires { AllBelow (length names.now) numbers.now }
        ensures packed { IfSome result (IsPacked self.now) }
        ensures same { IfSome result (λ packed. unpacked self.now packed
            ≡ record { set = rising (map (λ number. slice_index_or names.now number 0) numbers.now); count = count }) }
    {
        let mut packed = self.no_items(count)?;
        let items = numbers.items();
        let mut left = items.len();
        while left > 0 {
            left -= 1;
            packed = self.longer(&packed, names[items[left] as usize], count)?;
        }
        Some(packed)
    }

    /// A packed set with one more item and a count of its own, or none if the item isn't known, or
    /// is in the set, or the word has no room.
    #[inline(always)]
    pub fn longer(&self, packed: &Packed, item: u32, count: u64) -> Option<Packed>
        requires { IsPacked self.now packed.now }
        ensures { IfSome result (IsLonger self.now packed.now item count) }
    {
        let size = self.code_size(packed);
        if size >= self.most || !self.has_room(count) {
            return None;
        }
        let index = self.index_of(item)? as u128;
        let number = self.number(packed);
        let above = self.digits_above(number, size, index)?;
        let longer = self.with_digit(number, index, above * self.item_bits);
        Some(self.word(size + 1, longer, count))
    }

    /// How many of the indexes that are digits of a number are greater than another, or none if that is
    /// among them.
    fn digits_above(&self, number: u128, size: u32, index: u128) -> Option<u32>
        requires { IsRising (digits self.now.item_bits size number) }
        ensures { IfSome result (IsBetween self.now.item_bits size number index) }
    {
        let mut rest = number;
        let mut above = 0;
        while above < size {
            let last = low_bits(rest, self.item_bits);
            if last == index {
                return None;
            }
            if last < index {
                return Some(above);
            }
            rest >>= self.item_bits;
            above += 1;
        }
        Some(above)
    }

    /// A number with one more digit before the last bits.
    fn with_digit(&self, number: u128, index: u128, last_bits: u32) -> u128
        requires last { last_bits < 128 }
        requires index { index < 2 ^ self.now.item_bits }
        requires room { longer_number self.now.item_bits number index last_bits < 2 ^ 121 }
        ensures { result ≡ longer_number self.now.item_bits number index last_bits }
    {
        let first = number >> last_bits;
        let last = number - (first << last_bits);
        (((first << self.item_bits) + index) << last_bits) + last
    }

    /// The word of a set of this size, whose indexes are the digits of the number.
    pub fn word(&self, size: u32, number: u128, count: u64) -> Packed
        requires fits { FitsWord self.now size number count }
        ensures { IsWordOf self.now size number count result }
    {
        // Nothing is read here: it brings what holds of the bits.
        let _ = &self.items;
        Packed {
            word: (u128::from(size) << SIZE_AT) + (number << self.count_bits) + u128::from(count),
        }
    }

    /// Whether a word has room for a count.
    fn has_room(&self, count: u64) -> bool
        ensures { IsTrue result → count < 2 ^ self.now.count_bits }
    {
        bits_of(count) <= self.count_bits
    }
}
