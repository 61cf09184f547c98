//! Blanks and numbers of which not all have been read.
ghost use Rattle.std.specs.Prelude.{◌≡◌, ◌≤◌, ℕ, List, [], ◌∷◌, ◌++◌, length, take, nat_lt, if◌then◌else◌, None, Some, IfOk, OnOk};

use crate::byte_class::{ByteClass, blanks_after, class_of};
use crate::number::{Digits, number_at, with_digit, with_digits};
use std::alloc::{AllocError, Global};

/// Blanks and numbers of which not all have been read: the numbers that have ended, and the one
/// that has begun.
#[derive(Debug, Drop)]
pub struct Numbers {
    ended: Vec<u32>,
    begun: Option<u32>,
}

impl Numbers {
    ghost use Rattle.std.specs.Prelude.{◌<◌};
    ghost use Rattle.basket_read.specs.Numbers.{numbers_state, number_ended, lone_number, IsClass, IsNumbersSoFar, AreTaken};

    pub fn new(alloc: Global) -> Self
        ensures { IsNumbersSoFar result [] }
    {
        Numbers {
            ended: Vec::new(alloc),
            begun: None,
        }
    }

    /// Takes a byte, if it is a blank, or a digit that takes no number above the bound.
    #[inline(always)]
    pub fn take(&mut self, byte: u8) -> Result<bool, AllocError>
        ensures { (text : List ℕ) → IsNumbersSoFar self.old text →
            IfOk result (λ taken. AreTaken taken self.new (text ++ byte ∷ [])) }
    {
        match class_of(byte) {
            ByteClass::Digit(digit) => Ok(self.add_digit(digit)),
            ByteClass::Blank => {
                self.end()?;
                Ok(true)
            }
            ByteClass::Other => Ok(false),
        }
    }

    /// Takes a digit, unless it takes a number above the bound.
    #[inline(always)]
    fn add_digit(&mut self, digit: u8) -> bool
        requires { digit < 10 }
        ensures { (text : List ℕ) (byte : ℕ) → IsClass (ByteClass.Digit digit) byte → IsNumbersSoFar self.old text →
            AreTaken result self.new (text ++ byte ∷ []) }
    {
        let Some(value) = with_digit(self.begun.unwrap_or(0), digit) else {
            return false;
        };
        self.begun = Some(value);
        true
    }

    /// Takes digits and blanks from the beginning of the bytes, up to another byte or to a digit
    /// that takes a number above the bound, and returns how many. After a number that began before
    /// them it takes no more than its digits.
    #[inline(always)]
    pub fn take_run(&mut self, bytes: &[u8]) -> Result<usize, AllocError>
        ensures within { IfOk result (λ taken. taken ≤ length bytes.now) }
        ensures numbers { (text : List ℕ) → IsNumbersSoFar self.old text →
            IfOk result (λ taken. IsNumbersSoFar self.new (text ++ take taken bytes.now)) }
    {
        if let Some(value) = self.begun {
            let digits = with_digits(value, bytes);
            self.begun = Some(digits.value);
            return Ok(digits.count);
        }
        let mut taken = 0;
        loop {
            let digits = number_at(&bytes[taken..]);
            taken += digits.count;
            let blanks = blanks_after(digits.count > 0, &bytes[taken..]);
            if blanks == 0 {
                self.begin(digits);
                return Ok(taken);
            }
            self.add(digits)?;
            taken += blanks;
        }
    }

    /// Begins the number of these digits, if there are any.
    #[inline(always)]
    fn begin(&mut self, digits: Digits)
        ensures { numbers_state self.new ≡ (if nat_lt 0 digits.count then record { begun = Some digits.value; ended = (numbers_state self.old).ended } else numbers_state self.old) }
    {
        if digits.count > 0 {
            self.begun = Some(digits.value);
        }
    }

    /// Adds the number of these digits, if there are any.
    #[inline(always)]
    fn add(&mut self, digits: Digits) -> Result<(), AllocError>
        ensures { OnOk result (numbers_state self.new ≡ (if nat_lt 0 digits.count then record { begun = (numbers_state self.old).begun; ended = (numbers_state self.old).ended ++ digits.value ∷ [] } else numbers_state self.old)) }
    {
        if digits.count > 0 {
            self.ended.push(digits.value)?;
        }
        Ok(())
    }

    /// Ends the number that has begun, if one has.
    #[inline(always)]
    pub fn end(&mut self) -> Result<(), AllocError>
        ensures { OnOk result (numbers_state self.new ≡ number_ended (numbers_state self.old)) }
    {
        if let Some(value) = self.begun {
            self.ended.push(value)?;
            self.begun = None;
        }
        Ok(())
    }

    /// The numbers that have ended.
    #[inline(always)]
    pub fn ended(&self) -> &[u32]
        ensures { result.now ≡ (numbers_state self.now).ended }
    {
        &self.ended
    }

    /// The number that has begun, if none has ended before it.
    pub fn lone(&self) -> Option<u32>
        ensures { result ≡ lone_number (numbers_state self.now) }
    {
        if self.ended.is_empty() {
            self.begun
        } else {
            None
        }
    }

    /// Makes the numbers the same as others.
    pub fn copy_from(&mut self, other: &Numbers) -> Result<(), AllocError>
        ensures { OnOk result (numbers_state self.new ≡ numbers_state other.now) }
    {
        self.ended.clear();
        self.ended.extend_from_slice(&other.ended)?;
        self.begun = other.begun;
        Ok(())
    }

    /// Begins anew.
    #[inline(always)]
    pub fn clear(&mut self)
        ensures { IsNumbersSoFar self.new [] }
    {
        self.ended.clear();
        self.begun = None;
    }
}
