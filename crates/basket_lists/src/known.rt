//! The items that sets are known to have.
ghost use Rattle.std.specs.Prelude.{◌≡◌, ◌<◌, ◌≤◌, ◌-◌, ◌^◌, ◌%◌, [], IfOk, IfSome, IsTrue, length, slice_index_or, take};
ghost use Rattle.std.specs.Arc.{arc_slice_items};
ghost use Rattle.basket_lists.specs.Packed.{IsCoding, IsPacked, code_of, number_of, size_of, unpacked};
ghost use Rattle.basket_sets.specs.Itemset.{IsRising};

mod longer;
mod without;

use crate::packed::{Packed, SIZE_AT, SIZE_BITS};
use basket_sets::is_rising;
use std::alloc::{AllocError, Global};
use std::marker::Model;
use std::sync::ArcSlice;

/// A set that is kept as a word has no more items.
pub const MOST_ITEMS: usize = 63;

/// Items in rising order, which lists share, and how sets of them are put into words.
#[derive(Debug, Drop)]
pub struct KnownItems {
    items: ArcSlice<u32>,
    /// The indexes of items in that list, each by its lowest bits. Another item may have the same.
    slots: ArcSlice<usize>,
    /// How many bits of a word an index has.
    item_bits: u32,
    /// How many items a word takes.
    most: u32,
    /// How many bits of a word are those of the count.
    count_bits: u32,
}

impl Model for KnownItems {
    ghost use Rattle.std.specs.Arc.{arc_slice_items};
    ghost use Rattle.basket_lists.specs.Packed.{Coding, IsCoding};

    ghost Value = { Coding };

    ghost view = { λ known. record { items = arc_slice_items known.items; item_bits = known.item_bits; most = known.most; count_bits = known.count_bits } };

    ghost invariant = { λ known. IsCoding (record { items = arc_slice_items known.items; item_bits = known.item_bits; most = known.most; count_bits = known.count_bits }) };
}

/// The items in rising order, or none if one comes twice.
fn rising_items(alloc: Global, items: &[u32]) -> Result<ArcSlice<u32>, AllocError>
    ensures { IfOk result (λ rising. IsRising (arc_slice_items rising)) }
{
    let mut items = items.to_vec(alloc)?;
    items.sort_unstable();
    if !is_rising(&items) {
        items.clear();
    }
    ArcSlice::from_vec(items)
}

/// The indexes of items, each in the slot of its lowest bits. There are at least twice as many slots as
/// items.
fn slots_of(alloc: Global, items: &[u32]) -> Result<ArcSlice<usize>, AllocError> {
    let count = items.len().saturating_mul(2).checked_next_power_of_two();
    let mut slots = vec![in alloc; 0usize; count.unwrap_or(1)]?;
    put_indexes(&mut slots, items);
    ArcSlice::from_vec(slots)
}

/// Puts the index of each item into the slot of its lowest bits.
fn put_indexes(slots: &mut [usize], items: &[u32]) {
    for index in 0..items.len() {
        let slot = items[index] as usize & slots.len().saturating_sub(1);
        if slot < slots.len() {
            slots[slot] = index;
        }
    }
}

/// How many bits a number takes, at least one.
fn bits_of(number: u64) -> u32
    ensures least { 1 ≤ result }
    ensures most { result ≤ 64 }
    ensures fits { number < 2 ^ result }
{
    number.max(1).ilog2() + 1
}

/// The lowest bits of a number.
#[tactic(auto, using(std::proofs::lemmas::Grind::common_steps, std::proofs::lemmas::Nat::one_shl, std::proofs::lemmas::Nat::and_mask))]
fn low_bits(number: u128, bits: u32) -> u128
    requires { bits < 128 }
    ensures { result ≡ number % 2 ^ bits }
{
    number & ((1 << bits) - 1)
}

impl KnownItems {
    /// The items, which come in any order, or none if one comes twice. Counts up to the greatest fit into
    /// a word.
    pub fn of(alloc: Global, items: &[u32], most: u64) -> Result<Self, AllocError>
        ensures { IfOk result IsCoding }
    {
        let items = rising_items(alloc, items)?;
        let slots = slots_of(alloc, &items)?;
        let count_bits = bits_of(most);
        let item_bits = bits_of(items.len().saturating_sub(1) as u64);
        Ok(KnownItems {
            items,
            slots,
            item_bits,
            most: ((SIZE_AT - count_bits) / item_bits).min(MOST_ITEMS as u32),
            count_bits,
        })
    }

    /// The same items, which are shared, and the same words.
    pub fn shared(&self) -> Result<Self, AllocError>
        ensures { IfOk result (λ known. known ≡ self.now) }
    {
        Ok(KnownItems {
            items: self.items.clone()?,
            slots: self.slots.clone()?,
            item_bits: self.item_bits,
            most: self.most,
            count_bits: self.count_bits,
        })
    }

    /// How many items are known.
    pub fn len(&self) -> usize {
        self.items.len()
    }

    /// The greatest item, or 0.
    pub fn greatest(&self) -> u32 {
        self.items.last().copied().unwrap_or(0)
    }

    /// Whether sets are put into words as with others.
    pub fn is_same(&self, other: &KnownItems) -> bool
        ensures { IsTrue result → self.now ≡ other.now }
    {
        self.count_bits == other.count_bits
            && self.item_bits == other.item_bits
            && self.most == other.most
            && self.items == other.items
    }

    /// The bits of a word above those of the count.
    fn code(&self, packed: &Packed) -> u128
        ensures { result ≡ code_of self.now packed.now }
    {
        packed.code(self.count_bits)
    }

    /// The number whose digits are the indexes of the items of a packed set.
    fn number(&self, packed: &Packed) -> u128
        ensures { result ≡ number_of self.now (code_of self.now packed.now) }
    {
        // Nothing is read here: it brings what holds of the bits.
        let _ = &self.items;
        (packed.word << SIZE_BITS) >> (SIZE_BITS + self.count_bits)
    }

    /// How many items the code of a packed set has.
    #[tactic(auto, using(std::proofs::lemmas::Grind::common_steps, crate::proofs::WordLemmas::size_is))]
    fn code_size(&self, packed: &Packed) -> u32
        ensures { result ≡ size_of self.now (code_of self.now packed.now) }
    {
        // Nothing is read here: it brings what holds of the bits.
        let _ = &self.items;
        (packed.word >> SIZE_AT) as u32
    }

    /// How many items a packed set has.
    pub fn size(&self, packed: &Packed) -> usize
        requires { IsPacked self.now packed.now }
        ensures { result ≡ length (unpacked self.now packed.now).set }
    {
        self.code_size(packed) as usize
    }

    /// The count of a packed set.
    pub fn count(&self, packed: &Packed) -> u64
        requires { IsPacked self.now packed.now }
        ensures { result ≡ (unpacked self.now packed.now).count }
    {
        low_bits(packed.word, self.count_bits) as u64
    }

    /// The index of an item, if it is known.
    fn index_of(&self, item: u32) -> Option<usize>
        ensures within { IfSome result (λ index. index < length self.now.items) }
        ensures is { IfSome result (λ index. slice_index_or self.now.items index 0 ≡ item) }
    {
        let slot = item as usize & self.slots.len().saturating_sub(1);
        if let Some(index) = self.slots.get(slot) {
            let index = *index;
            if index < self.items.len() && self.items[index] == item {
                return Some(index);
            }
        }
        self.items.binary_search(&item).ok()
    }

    /// Writes the items of a packed set, which rise, to the beginning of the room, and returns how
    /// many they are.
    #[tactic(auto, using(std::proofs::lemmas::Grind::common_steps, crate::proofs::LongerLemmas::digit_known, crate::proofs::LongerLemmas::digit_item, crate::proofs::LongerLemmas::rest_next, std::proofs::lemmas::Bool::cases_eq))]
    pub fn put(&self, packed: &Packed, room: &mut [u32; MOST_ITEMS]) -> usize
        requires { IsPacked self.now packed.now }
        ensures items { take result room.new ≡ (unpacked self.now packed.now).set }
        ensures within { result ≤ MOST_ITEMS }
    {
        let items: &[u32] = &self.items;
        let size = self.code_size(packed) as usize;
        let mut rest = self.number(packed);
        let mut left = size;
        while left > 0 {
            left -= 1;
            room[left] = items[low_bits(rest, self.item_bits) as usize];
            rest >>= self.item_bits;
        }
        size
    }
}
