//! Where elements of a list may be, by hashes. Nothing is claimed of the indexes: callers compare
//! the elements.

use std::alloc::{AllocError, Global};

/// No index.
pub const NOWHERE: u32 = u32::MAX;

/// How many slots are looked at for one hash.
pub const MOST_STEPS: usize = 16;

/// How many slots there are at least for each element: most elements are then in the first slot that is
/// looked at.
const SLOTS: usize = 4;

/// Odd numbers whose bits look random.
const MULTIPLIER: u64 = 0x9E37_79B9_7F4A_7C15;

const OTHER_MULTIPLIER: u64 = 0xD1B5_4A32_D192_ED03;

/// The indexes of elements, each in the first free slot from that of its hash on. The hash has no key: an
/// element that finds no free slot nearby isn't kept, and has to be searched for in the list.
#[derive(Drop)]
pub struct IndexTable {
    slots: Vec<u32>,
}

impl IndexTable {
    /// Nothing is kept, and nothing is allocated.
    pub fn none(alloc: Global) -> Self {
        IndexTable {
            slots: Vec::new(alloc),
        }
    }

    /// Nothing is kept, but there is room for this many elements.
    pub fn with_room(alloc: Global, elements: usize) -> Result<Self, AllocError> {
        let slots = elements
            .saturating_mul(SLOTS)
            .checked_next_power_of_two()
            .unwrap_or(1);
        Ok(IndexTable {
            slots: vec![in alloc; NOWHERE; slots]?,
        })
    }

    /// The index that is kept this many slots after that of the hash.
    pub fn at(&self, hash: u64, step: usize) -> u32 {
        match self.slots.get(self.slot(hash, step)) {
            Some(index) => *index,
            None => NOWHERE,
        }
    }

    /// Keeps the index of an element with this hash, if there is a free slot for it.
    pub fn keep(&mut self, hash: u64, index: usize) {
        let Ok(index) = u32::try_from(index) else {
            return;
        };
        for step in 0..MOST_STEPS {
            let slot = self.slot(hash, step);
            if slot < self.slots.len() && self.slots[slot] == NOWHERE {
                self.slots[slot] = index;
                return;
            }
        }
    }

    fn slot(&self, hash: u64, step: usize) -> usize {
        (hash as usize).wrapping_add(step) & self.slots.len().saturating_sub(1)
    }
}

/// The hash of a word, in two halves.
pub fn word_hash(high: u64, low: u64) -> u64 {
    let sum = low
        .wrapping_mul(MULTIPLIER)
        .wrapping_add(high.wrapping_mul(OTHER_MULTIPLIER));
    (sum ^ (sum >> 32)).wrapping_mul(MULTIPLIER) >> 24
}

/// The hash of a list of items: the sum of those of the items.
pub fn items_hash(items: &[u32]) -> u64 {
    let mut sum: u64 = 0;
    for item in items {
        sum = sum.wrapping_add(item_hash(*item));
    }
    sum
}

/// The hash of an item.
pub fn item_hash(item: u32) -> u64 {
    word_hash(0, u64::from(item) + 1)
}
