ghost use Rattle.std.specs.Prelude.{nat_lt};

mod classes;
mod growth;
mod levels;
mod rules;

use basket_core::{Coded, Minimum};
use mine_limit::Tally;
use mine_plain::{NINE_BASKETS, Row, database};
use std::alloc::Global;
use std::process::Abort;
use std::test::Fail;

/// Asserts that a text is the one that is wanted.
fn assert_text(rt: &impl Abort, found: &str, wanted: &str) {
    assert_eq!(rt; found, wanted);
}

/// The baskets as ranks of the items that are in at least so many.
fn coded(alloc: Global, baskets: &[(&[u32], u64)], least: u64) -> Result<Coded, Fail> {
    let database = database(alloc, baskets)?;
    Ok(Coded::of(alloc, &database, Minimum::Count(least))?)
}

/// A tally that is over with the first set, as when others have found many.
#[derive(Drop)]
struct Early {
    told: u64,
}

impl Tally for Early {
    ghost limit_of = { λ _. 1000 };

    ghost told_of = { λ t. t.told };

    ghost is_over = { λ t. nat_lt 0 t.told };

    fn limit(&self) -> u32 {
        1_000
    }

    fn told(&self) -> u64 {
        self.told
    }

    fn over(&self) -> bool {
        self.told > 0
    }

    fn tell(&mut self) -> bool {
        self.told += 1;
        false
    }
}
