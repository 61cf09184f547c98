//! What a byte can be among numbers, and runs of blanks.
ghost use Rattle.std.specs.Prelude.{◌≡◌, ◌≤◌, length, take, true};
ghost use Rattle.std.specs.List.{list_all};
ghost use Rattle.basket_read.specs.Fimi.{is_blank};
ghost use Rattle.basket_read.specs.Numbers.{IsClass};

/// What a byte can be among numbers.
#[derive(Clone, Copy)]
pub enum ByteClass {
    /// A digit, by its value.
    Digit(u8),
    Blank,
    Other,
}

/// Whether a byte ends a number and does nothing else.
#[inline(always)]
fn is_blank(byte: u8) -> bool
    ensures { result ≡ is_blank byte }
{
    matches!(byte, b' ' | b'\t' | b'\r')
}

#[inline(always)]
pub fn class_of(byte: u8) -> ByteClass
    ensures { IsClass result byte }
{
    // The digits first, since most bytes are.
    if byte.is_ascii_digit() {
        return ByteClass::Digit(byte - b'0');
    }
    match byte {
        b' ' | b'\t' | b'\r' => ByteClass::Blank,
        _ => ByteClass::Other,
    }
}

/// How many blanks to take from the beginning of the bytes. After a number that is at most one,
/// since mostly another number follows.
#[inline(always)]
pub(crate) fn blanks_after(number: bool, bytes: &[u8]) -> usize
    ensures within { result ≤ length bytes.now }
    ensures blanks { list_all is_blank (take result bytes.now) ≡ true }
{
    if !number {
        return blanks_at(bytes);
    }
    match bytes.first() {
        Some(byte) if is_blank(*byte) => 1,
        _ => 0,
    }
}

/// How many blanks the bytes begin with.
#[inline(always)]
fn blanks_at(bytes: &[u8]) -> usize
    ensures within { result ≤ length bytes.now }
    ensures blanks { list_all is_blank (take result bytes.now) ≡ true }
{
    for (index, byte) in bytes.iter().enumerate() {
        if !is_blank(*byte) {
            return index;
        }
    }
    bytes.len()
}
