//! What a name is looked up by.
ghost use Rattle.std.specs.Prelude.{◌≡◌, ◌≤◌, ◌<◌, ◌-◌, ◌↔◌, length, take, drop, IsTrue, MatchOption};
ghost use Rattle.std.specs.Int.{w16, w32, w64, to_le_bytes};
ghost use Rattle.basket_names.specs.Key.{name_with, IsKeyOf};

use std::hash::{FoldHasher, Hasher};

/// The greatest length of a name that its key has whole.
const WHOLE: u32 = 16;

/// Replaces the length of a longer name.
pub const LONG: u32 = 17;

/// What the halves of a key are mixed with before they are multiplied, so that neither is 0 for a
/// short name. About half of the bits are ones.
const FRONT_MASK: u64 = 0x9e37_79b9_7f4a_7c15;

const BACK_MASK: u64 = 0xd1b5_4a32_d192_ed03;

/// The hash of a name of any length.
fn hash_of(name: &[u8]) -> u64 {
    let mut hasher = FoldHasher::default();
    hasher.write(name);
    hasher.finish()
}

/// The number whose bytes these are, the lowest first.
#[inline(always)]
fn u64_of(bytes: [u8; 8]) -> u64
    ensures { to_le_bytes w64 result ≡ bytes }
{
    u64::from_le_bytes(bytes)
}

#[inline(always)]
fn u32_of(bytes: [u8; 4]) -> u32
    ensures { to_le_bytes w32 result ≡ bytes }
{
    u32::from_le_bytes(bytes)
}

#[inline(always)]
fn u16_of(bytes: [u8; 2]) -> u16
    ensures { to_le_bytes w16 result ≡ bytes }
{
    u16::from_le_bytes(bytes)
}

/// The first and the last bytes of a name, this many each, if it has as many.
#[inline(always)]
fn chunks<const N: usize>(name: &[u8]) -> Option<(&[u8; N], &[u8; N])>
    ensures { MatchOption result (length name.now < N) (λ ends. (N ≤ length name.now)
        × (ends.0.now ≡ take N name.now) × (ends.1.now ≡ drop (length name.now - N) name.now)) }
{
    Some((name.first_chunk()?, name.last_chunk()?))
}

/// The first and the last bytes of a name, as many as fit.
#[inline(always)]
fn ends_of(name: &[u8]) -> (u64, u64)
    ensures { length name.now ≤ 16 → name_with (length name.now) result.0 result.1 ≡ name.now }
{
    if let Some((front, back)) = chunks::<8>(name) {
        return (u64_of(*front), u64_of(*back));
    }
    if let Some((front, back)) = chunks::<4>(name) {
        return (u64::from(u32_of(*front)), u64::from(u32_of(*back)));
    }
    if let Some((front, back)) = chunks::<2>(name) {
        return (u64::from(u16_of(*front)), u64::from(u16_of(*back)));
    }
    match name.first() {
        Some(byte) => (u64::from(*byte), 0),
        None => (0, 0),
    }
}

/// The length of a name, and its first and its last bytes. They distinguish a name of up to 16
/// bytes from all others.
#[derive(Clone, Copy)]
pub struct Key {
    pub front: u64,
    pub back: u64,
    pub len: u32,
}

impl Key {
    #[inline(always)]
    pub fn of(name: &[u8]) -> Self
        ensures { IsKeyOf result name.now }
    {
        let (front, back) = ends_of(name);
        Key {
            front,
            back,
            len: name.len().min(LONG as usize) as u32,
        }
    }

    /// A hash of the name, each half of which depends on all bytes of a short name: it is both halves
    /// of a product, folded. It has no secret: names that are chosen to have one hash push one another
    /// out of their bucket, and are then looked up in the map like names that aren't kept.
    #[inline(always)]
    pub fn hash(&self, name: &[u8]) -> u64 {
        if self.is_whole() {
            let front = self.front ^ FRONT_MASK;
            let (low, high) = front.carrying_mul(self.back ^ BACK_MASK, 0);
            low ^ high
        } else {
            hash_of(name)
        }
    }

    /// Whether the key distinguishes its name from all others.
    #[inline(always)]
    pub fn is_whole(&self) -> bool
        ensures { IsTrue result ↔ (self.now.len ≤ WHOLE) }
    {
        self.len <= WHOLE
    }
}
