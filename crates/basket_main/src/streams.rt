//! What a program opens, and where it says why it ends.
ghost use Rattle.std.specs.Prelude.{◌≡◌, ◌≤◌, ◌+◌, [], ◌∷◌, false, IfOk, List, Option, ℕ};
ghost use Rattle.basket_main.specs.Log.{Grows, Opening, refusal_of};
ghost use Rattle.basket_main.specs.declared.ending.Ending.{Ending as End};

use crate::ending::Ending;
use basket::{Origin, Source};
use std::io;

/// Files and standard input. The origin of a file is its path, and that of standard input is none.
pub trait Inputs {
    type Input: Source + Drop;

    // The sets that are counted have readers of their own, so that a fault of one reader can't be
    // told of the other.
    type Sets: Source + Drop;

    // The bytes of each origin, or nothing if they are not reported.
    ghost bytes: { Self → Option (List ℕ) → Option (List ℕ) };

    // What was to be opened, in this order, and what came of it, or nothing if that is not reported.
    ghost opened: { Self → Option (List Opening) };

    // How often something can still be opened, so that what was opened can be kept.
    ghost room: { Self → ℕ };

    fn open(&mut self, origin: &Origin) -> io::Result<Self::Input>
        requires { 1 ≤ room self.old }
        ensures fresh { IfOk result (λ input. Self.Input.has_failed input ≡ false) }
        ensures open { IfOk result (λ input. Self.Input.at_end input ≡ false) }
        ensures left { IfOk result (λ input. Self.Input.left input ≡ bytes self.old origin.now) }
        ensures same { (other : Option (List ℕ)) → bytes self.new other ≡ bytes self.old other }
        ensures opened { Grows (opened self.old) (opened self.new) ((origin.now, refusal_of result) ∷ []) }
        ensures room { room self.old ≤ room self.new + 1 };

    fn open_sets(&mut self, origin: &Origin) -> io::Result<Self::Sets>
        requires { 1 ≤ room self.old }
        ensures fresh { IfOk result (λ sets. Self.Sets.has_failed sets ≡ false) }
        ensures open { IfOk result (λ sets. Self.Sets.at_end sets ≡ false) }
        ensures left { IfOk result (λ sets. Self.Sets.left sets ≡ bytes self.old origin.now) }
        ensures same { (other : Option (List ℕ)) → bytes self.new other ≡ bytes self.old other }
        ensures opened { Grows (opened self.old) (opened self.new) ((origin.now, refusal_of result) ∷ []) }
        ensures room { room self.old ≤ room self.new + 1 };
}

/// Standard error.
pub trait ErrorStream {
    // What was explained, in this order, or nothing if that is not reported.
    ghost explained: { Self → Option (List End) };

    // How often something can still be explained, so that what was explained can be kept.
    ghost room: { Self → ℕ };

    /// Prints why a program ends. It may fail, and nothing depends on it.
    fn explain(&mut self, ending: &Ending)
        requires { 1 ≤ room self.old }
        ensures explained { Grows (explained self.old) (explained self.new) (ending.now ∷ []) }
        ensures room { room self.old ≤ room self.new + 1 };
}
