//! A line of which not all has been read.
ghost use Rattle.std.specs.Prelude.{◌≡◌, ◌≤◌, ℕ, List, [], ◌∷◌, ◌++◌, length, take, true, unwrap_or, IfOk, OnOk};
ghost use Rattle.std.specs.Option.{ForSome};
ghost use Rattle.basket_read.specs.Fimi.{is_times};

use crate::numbers::Numbers;
use std::alloc::{AllocError, Global};

/// What has been read of a line: its weight, if it has one, and the numbers after that.
#[derive(Debug, Drop)]
pub struct Line {
    weight: Option<u32>,
    numbers: Numbers,
    ghost weighs: { ForSome weight (λ w. 1 ≤ w) },
}

impl Line {
    ghost use Rattle.basket_read.specs.Line.{line_state, line_at, line_ended, IsLineSoFar, IsTaken};

    pub fn new(alloc: Global) -> Self
        ensures { line_state result ≡ line_at [] }
    {
        Line {
            weight: None,
            numbers: Numbers::new(alloc),
        }
    }

    /// Takes a byte, if it can stand here.
    #[inline(always)]
    pub fn take(&mut self, byte: u8) -> Result<bool, AllocError>
        ensures { (line : List ℕ) → IsLineSoFar self.old line →
            IfOk result (λ taken. IsTaken taken self.new (line ++ byte ∷ [])) }
    {
        if byte == b'x' {
            return Ok(self.add_times());
        }
        self.numbers.take(byte)
    }

    /// Takes the `x` after a weight, if it can stand here.
    #[inline(always)]
    fn add_times(&mut self) -> bool
        ensures { (line : List ℕ) (byte : ℕ) → is_times byte ≡ true → IsLineSoFar self.old line →
            IsTaken result self.new (line ++ byte ∷ []) }
    {
        if let Some(_) = self.weight {
            return false;
        }
        let weight = self.numbers.lone().unwrap_or(0);
        if weight == 0 {
            return false;
        }
        self.weight = Some(weight);
        self.numbers.clear();
        true
    }

    /// Takes digits and blanks from the beginning of the bytes, as `Numbers::take_run` does.
    #[inline(always)]
    #[tactic(auto, using(std::proofs::lemmas::Grind::common_steps, crate::proofs::LineLemmas::numbers_on))]
    pub fn take_run(&mut self, bytes: &[u8]) -> Result<usize, AllocError>
        ensures within { IfOk result (λ taken. taken ≤ length bytes.now) }
        ensures line { (line : List ℕ) → IsLineSoFar self.old line →
            IfOk result (λ taken. IsLineSoFar self.new (line ++ take taken bytes.now)) }
    {
        self.numbers.take_run(bytes)
    }

    /// Ends the number that has begun, if one has.
    #[inline(always)]
    pub fn end(&mut self) -> Result<(), AllocError>
        ensures { OnOk result (line_state self.new ≡ line_ended (line_state self.old)) }
    {
        self.numbers.end()
    }

    /// The numbers that have ended.
    pub fn numbers(&self) -> &[u32]
        ensures { result.now ≡ (line_state self.now).numbers.ended }
    {
        self.numbers.ended()
    }

    pub fn weight(&self) -> u32
        ensures weight { result ≡ unwrap_or (line_state self.now).weight 1 }
        ensures weighs { 1 ≤ result }
    {
        self.weight.unwrap_or(1)
    }

    /// Makes the line the same as another. The numbers stay in the memory of this line, so that no
    /// other thread has memory beside them.
    pub fn copy_from(&mut self, other: &Line) -> Result<(), AllocError>
        ensures { OnOk result (line_state self.new ≡ line_state other.now) }
    {
        self.numbers.copy_from(&other.numbers)?;
        self.weight = other.weight;
        Ok(())
    }

    /// Begins a new line.
    pub fn clear(&mut self)
        ensures { line_state self.new ≡ line_at [] }
    {
        self.weight = None;
        self.numbers.clear();
    }
}
