ghost use Rattle.std.specs.Prelude.{◌≡◌, ◌<◌, List, ℕ, true};
ghost use Rattle.basket_counts.specs.Counts.{is_tail};
ghost use Rattle.basket_counts.specs.Line.{count_with};

use basket_read::{ByteClass, ReadFault, class_of};

/// The greatest count.
const MAX_COUNT: u64 = 1_099_511_627_775;

/// What has been read of a line after its numbers.
#[derive(Clone, Copy, Debug)]
pub enum CountSuffix {
    /// Nothing.
    Absent,
    /// The parenthesis before a count.
    Opened,
    /// The count so far.
    Count(u64),
    /// The count and the parenthesis after it.
    Closed(u64),
}

impl CountSuffix {
    ghost use Rattle.basket_counts.specs.Line.{tail_at, tail_with, is_there, count_in, digit_fault_in};

    /// The tail after one more byte, if it can stand there.
    pub fn with(self, byte: u8) -> Option<Self>
        ensures { (tail : List ℕ) → is_tail tail ≡ true → self ≡ tail_at tail → result ≡ tail_with tail byte }
    {
        match (self, class_of(byte)) {
            (CountSuffix::Opened, ByteClass::Digit(digit)) => {
                Some(CountSuffix::Count(u64::from(digit)))
            }
            (CountSuffix::Count(count), ByteClass::Digit(digit)) => with_digit(count, digit),
            (CountSuffix::Count(count), ByteClass::Other) if byte == b')' => {
                Some(CountSuffix::Closed(count))
            }
            (CountSuffix::Closed(_), ByteClass::Blank) => Some(self),
            _ => None,
        }
    }

    /// Whether the line has the parenthesis before a count.
    pub fn is_there(self) -> bool
        ensures { result ≡ is_there self }
    {
        !matches!(self, CountSuffix::Absent)
    }

    /// The count that has ended.
    pub fn count(self) -> Option<u64>
        ensures { result ≡ count_in self }
    {
        match self {
            CountSuffix::Closed(count) => Some(count),
            _ => None,
        }
    }

    /// The fault of a digit that can't follow, by the number of the line.
    pub fn digit_fault(self, line: u32, byte: u8) -> ReadFault
        ensures { result ≡ digit_fault_in self line byte }
    {
        match self {
            CountSuffix::Absent => ReadFault::Number { line },
            CountSuffix::Opened | CountSuffix::Count(_) => ReadFault::Count { line },
            CountSuffix::Closed(_) => ReadFault::Byte { line, byte },
        }
    }
}

/// A count with one digit more, if it is not above the bound.
fn with_digit(count: u64, digit: u8) -> Option<CountSuffix>
    requires { digit < 10 }
    ensures { result ≡ count_with count digit }
{
    if count > MAX_COUNT / 10 {
        return None;
    }
    let count = count * 10 + u64::from(digit);
    if count <= MAX_COUNT {
        Some(CountSuffix::Count(count))
    } else {
        None
    }
}
