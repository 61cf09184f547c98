//! A FIMI input that comes in pieces.
ghost use Rattle.std.specs.Prelude.{◌≡◌, ◌≢◌, ℕ, List, [], ◌++◌, None, Some, IfSome, Ok, Err, MatchResult, OnOk, IfErr};
ghost use Rattle.basket_read.specs.declared.fault.ReadFault.TheVariants.{Memory};
ghost use Rattle.basket_read.specs.Fimi.{settled_fault, fimi_of};
ghost use Rattle.basket_read.specs.Fault.{Returns, ReturnsFault};

use crate::fault::ReadFault;
use crate::input::Input;
use crate::item_counts::ItemCounts;
use crate::line_reader::Alone;
use basket_sets::Database;
use std::alloc::Global;

/// What has been read of a FIMI input that comes in pieces.
#[derive(Debug, Drop)]
pub struct FimiParts {
    input: Input,
    refusal: Option<ReadFault>,
}

impl FimiParts {
    ghost use Rattle.basket_read.specs.Parts.{IsFed, refusal_of};

    /// The parts of an input of which nothing has come.
    pub fn new(alloc: Global) -> Self
        ensures fed { IsFed result [] }
        ensures refusal { refusal_of result ≡ None }
    {
        FimiParts {
            input: Input::new(alloc, false),
            refusal: None,
        }
    }

    /// Takes the next piece. After an `Err` the parts return the same fault from then on.
    pub fn feed(&mut self, piece: &[u8]) -> Result<(), ReadFault>
        // It refuses exactly the bytes that have a fault whatever follows, and returns that fault.
        ensures exact { (bytes : List ℕ) → IsFed self.old bytes →
            MatchResult result (λ _. settled_fault (bytes ++ piece.now) ≡ None) (λ fault. ReturnsFault fault (settled_fault (bytes ++ piece.now))) }
        // The bytes so far are those of all pieces.
        ensures fed { (bytes : List ℕ) → IsFed self.old bytes → result ≢ Err Memory → IsFed self.new (bytes ++ piece.now) }
        // A fault is returned from then on.
        ensures ok { OnOk result (refusal_of self.new ≡ None) }
        ensures refused { IfErr result (λ fault. refusal_of self.new ≡ Some fault) }
        ensures again { IfSome (refusal_of self.old) (λ fault. result ≡ Err fault) }
    {
        if let Some(fault) = self.refusal {
            return Err(fault);
        }
        match self.input.take(&Alone, piece) {
            Ok(()) => Ok(()),
            Err(fault) => {
                self.refusal = Some(fault);
                Err(fault)
            }
        }
    }

    /// The baskets of all pieces together, or their first fault.
    pub fn finish(self) -> Result<Database, ReadFault>
        ensures exact { (bytes : List ℕ) → IsFed self bytes → Returns result (fimi_of bytes) }
        ensures again { IfSome (refusal_of self) (λ fault. result ≡ Err fault) }
    {
        if let Some(fault) = self.refusal {
            return Err(fault);
        }
        let FimiParts { input, .. } = self;
        input.finish().map(ItemCounts::into_rest)
    }
}
