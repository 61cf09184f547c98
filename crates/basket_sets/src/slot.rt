//! The support of an item while items are counted.
ghost use Rattle.std.specs.Prelude.{◌≡◌, ◌<◌, ◌+◌, ◌^◌, None, unwrap_or};
ghost use Rattle.basket_sets.specs.Slot.{slot_with};

use std::marker::Model;

/// The support of an item so far, or nothing if it was not seen. It is one number, so that a table
/// of slots is half as large as one of `Option<u64>`.
#[derive(Clone, Copy, Debug)]
pub struct Slot {
    /// One more than the support, or 0.
    above: u64,
}

impl Model for Slot {
    ghost use Rattle.std.specs.Prelude.{ℕ, Option};
    ghost use Rattle.basket_sets.specs.Slot.{above_of, above_of-support_in, support_in};

    ghost Value = { Option ℕ };

    ghost view = { λ slot. support_in slot.above };

    ghost inverse = { λ support. record { above = above_of support } };

    ghost inverse_ok = { λ slot h. λ i. record { above = above_of-support_in slot.above i } };
}

impl Slot {
    /// The slot of an item that was not seen.
    pub fn empty() -> Self
        ensures { result ≡ None }
    {
        Slot { above: 0 }
    }

    /// Adds a weight of the item.
    pub fn add(&mut self, weight: u64)
        requires { unwrap_or self.old 0 + weight + 1 < 2 ^ 64 }
        ensures { self.new ≡ slot_with weight self.old }
    {
        self.above += weight + u64::from(self.above == 0);
    }

    /// The support, if the item was seen.
    pub fn support(self) -> Option<u64>
        ensures { result ≡ self }
    {
        if self.above == 0 {
            None
        } else {
            Some(self.above - 1)
        }
    }
}
