//! A line of which not all has been read.
ghost use Rattle.std.specs.Prelude.{◌≡◌, ◌≤◌, ℕ, List, [], ◌∷◌, ◌++◌, false, length, take, IfOk, OnOk};

use crate::tail::CountSuffix;
use basket_read::Numbers;
use std::alloc::{AllocError, Global};

/// What has been read of a line: its numbers, and what follows them.
#[derive(Debug, Drop)]
pub struct SetLine {
    numbers: Numbers,
    tail: CountSuffix,
}

impl SetLine {
    ghost use Rattle.basket_counts.specs.Line.{line_state, line_at, line_ended, IsLineSoFar, IsTaken};

    pub fn new(alloc: Global) -> Self
        ensures { line_state result ≡ line_at [] }
    {
        SetLine {
            numbers: Numbers::new(alloc),
            tail: CountSuffix::Absent,
        }
    }

    /// Takes a byte, if it can stand here.
    #[inline(always)]
    pub fn take(&mut self, byte: u8) -> Result<bool, AllocError>
        ensures line { (line : List ℕ) → IsLineSoFar self.old line →
            IfOk result (λ taken. IsTaken taken self.new (line ++ byte ∷ [])) }
        ensures refused { IfOk result (λ taken. taken ≡ false → (line_state self.new).tail ≡ (line_state self.old).tail) }
    {
        if self.tail.is_there() {
            return match self.tail.with(byte) {
                Some(tail) => {
                    self.tail = tail;
                    Ok(true)
                }
                None => Ok(false),
            };
        }
        if byte == b'(' {
            self.numbers.end()?;
            self.tail = CountSuffix::Opened;
            return Ok(true);
        }
        self.numbers.take(byte)
    }

    /// Takes digits and blanks of numbers from the beginning of the bytes, as `Numbers::take_run` does.
    #[inline(always)]
    #[tactic(auto, using(std::proofs::lemmas::Grind::common_steps, crate::proofs::LineLemmas::numbers_on))]
    pub fn take_run(&mut self, bytes: &[u8]) -> Result<usize, AllocError>
        ensures within { IfOk result (λ taken. taken ≤ length bytes.now) }
        ensures line { (line : List ℕ) → IsLineSoFar self.old line →
            IfOk result (λ taken. IsLineSoFar self.new (line ++ take taken bytes.now)) }
    {
        if self.tail.is_there() {
            return Ok(0);
        }
        self.numbers.take_run(bytes)
    }

    /// Ends the number that has begun, if one has.
    #[inline(always)]
    pub fn end(&mut self) -> Result<(), AllocError>
        ensures { OnOk result (line_state self.new ≡ line_ended (line_state self.old)) }
    {
        self.numbers.end()
    }

    /// The numbers that have ended.
    pub fn numbers(&self) -> &[u32]
        ensures { result.now ≡ (line_state self.now).numbers.ended }
    {
        self.numbers.ended()
    }

    /// What follows the numbers.
    pub fn tail(&self) -> CountSuffix
        ensures { result ≡ (line_state self.now).tail }
    {
        self.tail
    }

    /// Begins a new line.
    pub fn clear(&mut self)
        ensures { line_state self.new ≡ line_at [] }
    {
        self.numbers.clear();
        self.tail = CountSuffix::Absent;
    }
}
