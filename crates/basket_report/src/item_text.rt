//! The text of an item.
ghost use Rattle.std.specs.Prelude.{◌≡◌, ◌≤◌, ◌++◌, [], ◌∷◌, decimal, take};

use itoa::write_digits;

/// How many digits an item has at most.
const MOST_DIGITS: usize = 10;

/// The room of a text and a space.
pub const ITEM_TEXT_ROOM: usize = 16;

/// Where a text is made: at the end of the digits, and a room more after its start.
const SCRATCH: usize = MOST_DIGITS + ITEM_TEXT_ROOM;

/// An item, and its text followed by a space, at the beginning of a room.
#[derive(Drop)]
pub struct ItemText {
    pub item: u32,
    pub length: usize,
    pub bytes: [u8; ITEM_TEXT_ROOM],
    ghost within: { length ≤ 16 },
    ghost is: { take length bytes ≡ decimal item ++ 32 ∷ [] },
}

impl ItemText {
    pub fn new(item: u32) -> Self
        ensures { result.item ≡ item }
    {
        let mut scratch = [b' '; SCRATCH];
        let start = write_digits(u64::from(item), &mut scratch, MOST_DIGITS);
        let mut bytes = [0; ITEM_TEXT_ROOM];
        bytes.copy_from_slice(&scratch[start..start + ITEM_TEXT_ROOM]);
        ItemText {
            item,
            length: MOST_DIGITS + 1 - start,
            bytes,
        }
    }
}
