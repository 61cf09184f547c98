//! The second phase of Apriori, which finds the frequent pairs of ranks. They are counted where they
//! occur, and no list of all pairs is made.
ghost use Rattle.std.specs.Prelude.{◌≡◌, IfOk};
ghost use Rattle.mine_pairs.specs.Pairs.{lists_of, pairs_by_greater, pairs_of};

use mine_pairs::{Runs, Sums};
use mine_pieces::{Cutting, Gate, PartWork, Phase, by_pieces};
use std::alloc::{AllocError, Global};
use std::thread::Threads;

/// The number of the phase that finds the pairs.
pub const PHASE: u32 = 2;

/// The ranks below a rank that are frequent together with it, rising, each with the support of the pair.
pub type Pairs = Vec<(u32, u64)>;

/// Runs whose pairs are found, rank by rank.
#[derive(Drop)]
struct Pairing<'a> {
    runs: &'a Runs,
    least: u64,
}

impl PartWork<Pairs> for Pairing<'_> {
    type Tools = Sums;

    ghost part_count = { λ work. work.runs.now.ranks };

    ghost are_tools = { λ work sums. sums ≡ work.runs.now.ranks };

    ghost is_value = { λ work rank pairs. pairs.items ≡ pairs_of work.runs.now.baskets work.least rank };

    fn parts(&self) -> u32 {
        self.runs.ranks()
    }

    fn tools(&self, alloc: Global) -> Result<Sums, AllocError> {
        Sums::new(alloc, self.runs.ranks())
    }

    fn value(&self, alloc: Global, sums: &mut Sums, rank: u32) -> Result<Pairs, AllocError> {
        self.runs.pairs(alloc, sums, rank, self.least)
    }
}

/// For each rank the ranks below it that are frequent together with it, by a least support, rising,
/// each with the support of the pair, found by a number of workers over parts of the ranks. The
/// only error is out of memory.
pub fn count_pairs<R: Threads + Sync, G: Gate + Sync>(
    rt: &R,
    alloc: Global,
    runs: &Runs,
    least: u64,
    cutting: Cutting,
    gate: &G,
) -> Result<Vec<Vec<(u32, u64)>>, AllocError>
    ensures { IfOk result (λ pairs. lists_of pairs.items ≡ pairs_by_greater runs.now.baskets least runs.now.ranks) }
{
    let pairing = Pairing { runs, least };
    by_pieces(rt, alloc, &pairing, &Phase::new(PHASE, cutting, gate))
}
