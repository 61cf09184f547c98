//! The numbers of names that were found recently, which save most look-ups in the map.
ghost use Rattle.std.specs.Prelude.{◌≡◌, ℕ, List, IsTrue, IfSome};
ghost use Rattle.basket_names.specs.Recent.{IsNumberAt, KeepsKnown};

use crate::key::{Key, LONG};
use std::alloc::{AllocError, Global};

/// How many buckets there are at first, and at most. They grow fourfold.
const FEWEST: usize = 4_096;

const MOST: usize = 262_144;

/// How many bits of a hash are left out: all but the upper ones that a bucket may need.
const LEFT_OUT: u32 = 46;

/// A name that was found: its key and its number.
#[derive(Clone, Copy)]
pub struct RecentName {
    front: u64,
    back: u64,
    len: u32,
    pub number: u32,
}

/// A slot without a name. Whoever finds it compares the names, as for a long one.
pub const FREE: RecentName = RecentName {
    front: 0,
    back: 0,
    len: LONG,
    number: 0,
};

impl RecentName {
    #[inline]
    pub fn new(key: &Key, number: u32) -> Self
        ensures { result ≡ record { front = key.now.front; back = key.now.back; len = key.now.len; number = number } }
    {
        RecentName {
            front: key.front,
            back: key.back,
            len: key.len,
            number,
        }
    }

    /// Whether this is the slot of a key.
    #[inline(always)]
    pub fn has(&self, key: &Key) -> bool
        ensures { IsTrue result → (self.now.front ≡ key.now.front) × (self.now.back ≡ key.now.back) × (self.now.len ≡ key.now.len) }
    {
        self.front == key.front && self.back == key.back && self.len == key.len
    }
}

/// The two names of some hashes that were found last.
#[derive(Clone, Copy)]
struct Bucket {
    newer: RecentName,
    older: RecentName,
}

/// The numbers of names that were found recently. Some upper bits of a name's hash are its bucket.
#[derive(Drop)]
pub struct Recent {
    buckets: Vec<Bucket>,
    /// The bits of these that are its bucket.
    mask: usize,
}

impl Recent {
    /// Nothing is kept yet, and nothing is allocated.
    pub fn new(alloc: Global) -> Self
        ensures { (names : List (List ℕ)) → KeepsKnown names result }
    {
        Recent {
            buckets: Vec::new(alloc),
            mask: 0,
        }
    }

    /// The bucket of a name.
    #[inline(always)]
    fn index(&self, key: &Key, name: &[u8]) -> usize {
        (key.hash(name) >> LEFT_OUT) as usize & self.mask
    }

    /// The number that a name of this key has, or may have if the name is long.
    #[inline(always)]
    pub fn number(&self, key: &Key, name: &[u8]) -> Option<u32>
        ensures { (names : List (List ℕ)) → KeepsKnown names self.now → IfSome result (IsNumberAt names key.now) }
    {
        let bucket = self.buckets.get(self.index(key, name))?;
        if bucket.newer.has(key) {
            return Some(bucket.newer.number);
        }
        bucket.older.has(key).then_some(bucket.older.number)
    }

    /// Keeps the number of a name of this key.
    #[inline]
    pub fn keep(&mut self, key: &Key, name: &[u8], number: u32)
        ensures { (names : List (List ℕ)) → IsNumberAt names key.now number → KeepsKnown names self.old → KeepsKnown names self.new }
    {
        let index = self.index(key, name);
        if let Some(bucket) = self.buckets.get_mut(index) {
            *bucket = Bucket {
                newer: RecentName::new(key, number),
                older: bucket.newer,
            };
        }
    }

    /// Makes room if nothing was kept yet, or if a known name wasn't found among more names than
    /// there are buckets; but no more slots than there can be. What was kept is then forgotten.
    #[inline]
    pub fn make_room(&mut self, alloc: Global, names: usize, missed: bool) -> Result<(), AllocError>
        ensures { (all : List (List ℕ)) → KeepsKnown all self.old → KeepsKnown all self.new }
    {
        let count = self.buckets.len();
        if count == 0 {
            return self.forget(alloc, FEWEST);
        }
        if missed && names > count && names <= 2 * MOST && count < MOST {
            return self.forget(alloc, 4 * count);
        }
        Ok(())
    }

    /// Forgets all names, and makes this many buckets.
    fn forget(&mut self, alloc: Global, count: usize) -> Result<(), AllocError>
        ensures { (names : List (List ℕ)) → KeepsKnown names self.old → KeepsKnown names self.new }
    {
        let free = Bucket {
            newer: FREE,
            older: FREE,
        };
        self.buckets = vec![in alloc; free; count]?;
        self.mask = count.saturating_sub(1);
        Ok(())
    }
}
