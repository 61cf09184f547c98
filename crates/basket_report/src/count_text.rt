//! The text of a count.
ghost use Rattle.std.specs.Prelude.{◌≡◌, ◌<◌, ◌+◌, ◌++◌, [], ◌∷◌, decimal, take};

use itoa::write_digits;

/// How many digits a count has at most.
const MOST_DIGITS: usize = 20;

/// The room of a text, two parentheses and a line feed.
pub const COUNT_TEXT_ROOM: usize = 32;

/// Where a text is made: from the first parenthesis to the end of the digits, and a room more after
/// its start.
const SCRATCH: usize = 1 + MOST_DIGITS + COUNT_TEXT_ROOM;

/// A count, and its text in parentheses followed by a line feed, at the beginning of a room. The
/// length is that of the text without the line feed.
#[derive(Clone, Copy)]
pub struct CountText {
    pub count: u64,
    pub length: usize,
    pub bytes: [u8; COUNT_TEXT_ROOM],
    ghost within: { length < 32 },
    ghost is: { take length bytes ≡ 40 ∷ decimal count ++ 41 ∷ [] },
    ghost ended: { take (length + 1) bytes ≡ 40 ∷ decimal count ++ 41 ∷ 10 ∷ [] },
}

impl CountText {
    /// It is a call, since its locals would cost time for a count whose text is made already.
    #[inline(never)]
    pub fn new(count: u64) -> Self
        ensures { result.count ≡ count }
    {
        let mut scratch = [b'\n'; SCRATCH];
        scratch[1 + MOST_DIGITS] = b')';
        let start = write_digits(count, &mut scratch, 1 + MOST_DIGITS) - 1;
        scratch[start] = b'(';
        let mut bytes = [0; COUNT_TEXT_ROOM];
        bytes.copy_from_slice(&scratch[start..start + COUNT_TEXT_ROOM]);
        CountText {
            count,
            length: MOST_DIGITS + 2 - start,
            bytes,
        }
    }

    /// Makes it the text of this count, if it isn't yet.
    pub fn set(&mut self, count: u64)
        ensures { self.new.count ≡ count }
    {
        if self.count != count {
            *self = CountText::new(count);
        }
    }
}
