ghost use Rattle.std.specs.Prelude.{◌≡◌, ◌+◌, ℕ, Bool, false, not, nat_lt};

use std::marker::Model;

/// Counts the sets that a miner finds, up to a limit.
pub trait Tally {
    ghost limit_of: { Self → ℕ };

    ghost told_of: { Self → ℕ };

    ghost is_over: { Self → Bool };

    /// How many sets there may be.
    fn limit(&self) -> u32
        ensures { result ≡ limit_of self.now };

    /// How many sets were reported to this tally.
    fn told(&self) -> u64
        ensures { result ≡ told_of self.now };

    /// Whether there are more sets than the limit.
    fn over(&self) -> bool
        ensures { result ≡ is_over self.now };

    /// Counts a set, and returns whether there may be another.
    fn tell(&mut self) -> bool
        requires { is_over self.old ≡ false }
        ensures limit { limit_of self.new ≡ limit_of self.old }
        ensures told { told_of self.new ≡ told_of self.old + 1 }
        ensures over { result ≡ not (is_over self.new) };
}

/// The tally of one miner alone, which is over once more sets than its limit were reported.
#[derive(Drop)]
pub struct Limit {
    limit: u32,
    told: u64,
}

impl Model for Limit {
    ghost use Rattle.std.specs.Prelude.{◌≤◌, ◌+◌};
    ghost use Rattle.mine_limit.specs.Tally.{Told};

    ghost Value = { Told };

    ghost view = { λ limit. record { limit = limit.limit; told = limit.told } };

    ghost invariant = { λ limit. limit.told ≤ limit.limit + 1 };

    ghost inverse = { λ told. record { limit = told.limit; told = told.told } };
}

impl Limit {
    pub fn new(limit: u32) -> Self
        ensures { result ≡ record { limit = limit; told = 0 } }
    {
        Limit { limit, told: 0 }
    }
}

impl Tally for Limit {
    ghost limit_of = { λ t. t.limit };

    ghost told_of = { λ t. t.told };

    ghost is_over = { λ t. nat_lt t.limit t.told };

    fn limit(&self) -> u32 {
        self.limit
    }

    fn told(&self) -> u64 {
        self.told
    }

    fn over(&self) -> bool {
        self.told > u64::from(self.limit)
    }

    fn tell(&mut self) -> bool {
        self.told += 1;
        !self.over()
    }
}
