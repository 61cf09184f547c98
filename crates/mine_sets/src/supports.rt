//! Phases that count the supports of sets, each of which has a counter that the workers share.
ghost use Rattle.std.specs.Prelude.{◌≡◌, ◌≤◌, ◌<◌, IfOk, length, map};
ghost use Rattle.basket_sets.specs.Database.{MOST_WEIGHT};
ghost use Rattle.basket_sets.specs.Support.{support_of, total_of};
ghost use Rattle.mine_sets.specs.Supports.{AddsSupports, IsSupportShare};
ghost use Rattle.mine_round.specs.Record.{unused};
ghost use Rattle.mine_supports.specs.Extensions.{sets_of};

use basket_ranks::shard;
use basket_sets::Weighted;
use mine_limit::MineFault;
use mine_pieces::{Cutting, Gate, Phase, WorkerResult, add_counts, by_workers, claim_piece};
use mine_round::{Round, RoundSeat};
use mine_supports::{Extensions, RowCounter, count_extensions};
use std::alloc::{AllocError, Global};
use std::thread::Threads;

/// A part has about this many baskets at least, or a worker would have no part: to find the rows of a set takes
/// as long as some words of them.
const LEAST_PART: usize = 4_096;

/// The phase as its workers see it.
#[derive(Drop)]
struct SetCounting<'r, 'b, 'c, 's, 'p, G> {
    round: &'r Round,
    baskets: &'b [Weighted],
    counter: &'c RowCounter<'s>,
    phase: &'r Phase<'p, G>,
}

impl<G: Gate> SetCounting<'_, '_, '_, '_, '_, G> {
    /// What a worker does: it counts the sets in each part of the baskets that it claims, and adds
    /// its counts to the shared counters once no part is left.
    fn share(&self, alloc: Global, worker: u32, mut seat: RoundSeat) -> WorkerResult<()>
        requires own { seat.round ≡ self.now.round.now.id }
        requires unused { seat.held ≡ unused 1 (length self.now.counter.now) }
        requires pieces { self.now.round.now.pieces ≡ self.now.phase.now.cutting.pieces }
        requires counters { self.now.round.now.counters ≡ length self.now.counter.now }
        requires light { total_of self.now.baskets.now ≤ MOST_WEIGHT }
        ensures { IsSupportShare self.now.round.now self.now.baskets.now self.now.phase.now.cutting.pieces self.now.counter.now result }
    {
        let values = match self.add_supports(alloc, worker, &mut seat) {
            Ok(()) => Ok(()),
            Err(AllocError) => Err(MineFault::Memory),
        };
        WorkerResult { seat, values }
    }

    fn add_supports(
        &self,
        alloc: Global,
        worker: u32,
        seat: &mut RoundSeat,
    ) -> Result<(), AllocError>
        requires own { seat.old.round ≡ self.now.round.now.id }
        requires unused { seat.old.held ≡ unused 1 (length self.now.counter.now) }
        requires pieces { self.now.round.now.pieces ≡ self.now.phase.now.cutting.pieces }
        requires counters { self.now.round.now.counters ≡ length self.now.counter.now }
        requires light { total_of self.now.baskets.now ≤ MOST_WEIGHT }
        ensures own { seat.new.round ≡ seat.old.round }
        ensures added { IfOk result (λ _. AddsSupports self.now.baskets.now self.now.phase.now.cutting.pieces self.now.counter.now seat.new) }
    {
        let phase = self.phase;
        let pieces = phase.cutting.pieces;
        let mut counts = vec![in alloc; 0; self.counter.len()]?;
        while let Some(piece) = claim_piece(self.round, seat, phase.gate, phase.number, worker) {
            let (start, end) = shard(piece, pieces, self.baskets.len());
            self.counter
                .add(alloc, &self.baskets[start..end], &mut counts)?;
        }
        add_counts(self.round, seat, &counts);
        Ok(())
    }
}

/// The support of each set in the baskets, counted by a number of workers over parts of the baskets. The
/// number of the phase is the size of the first set. One worker has no phase and one counter a set.
pub fn count_candidates<R: Threads + Sync, G: Gate + Sync>(
    rt: &R,
    alloc: Global,
    baskets: &[Weighted],
    sets: &Extensions,
    cutting: Cutting,
    gate: &G,
) -> Result<Vec<u64>, AllocError>
    requires light { total_of baskets.now ≤ MOST_WEIGHT }
    ensures { IfOk result (λ counts. counts.items ≡ map (support_of baskets.now) (sets_of sets.now)) }
{
    if cutting.workers == 1 {
        return count_extensions(alloc, baskets, sets);
    }
    let size = match sets.prefixes().first() {
        Some(prefix) => prefix.len().saturating_add(1),
        None => 0,
    };
    let number = u32::try_from(size).unwrap_or(u32::MAX);
    let counter = RowCounter::of(alloc, sets)?;
    count_supports(
        rt,
        alloc,
        baskets,
        &counter,
        &Phase::new(number, cutting, gate),
    )
}

/// The support of each set in the baskets, counted by the workers of a phase over parts of the baskets.
fn count_supports<'b, 'c, 's, 'p, R: Threads + Sync, G: Gate + Sync>(
    rt: &R,
    alloc: Global,
    baskets: &'b [Weighted],
    counter: &'c RowCounter<'s>,
    phase: &Phase<'p, G>,
) -> Result<Vec<u64>, AllocError>
    requires light { total_of baskets.now ≤ MOST_WEIGHT }
    ensures { IfOk result (λ supports. supports.items ≡ map (support_of baskets.now) counter.now) }
{
    let parts = (baskets.len() / LEAST_PART).max(phase.cutting.workers as usize);
    let phase = phase.for_parts(parts);
    let cutting = phase.cutting;
    let (round, seats) = Round::new(alloc, cutting.pieces, counter.len(), cutting.workers)?;
    let counting = SetCounting {
        round: &round,
        baskets,
        counter,
        phase: &phase,
    };
    let lent = &counting;
    let (seats, ended) = by_workers(
        rt,
        alloc,
        seats,
        &|job: (u32, RoundSeat)| -> WorkerResult<()>
            requires { (job.1.round ≡ lent.now.round.now.id) × (job.1.held ≡ unused 1 (length lent.now.counter.now))
                × (lent.now.round.now.pieces ≡ lent.now.phase.now.cutting.pieces) × (lent.now.round.now.counters ≡ length lent.now.counter.now)
                × (total_of lent.now.baskets.now ≤ MOST_WEIGHT) }
            ensures { IsSupportShare lent.entry.now.round.now lent.entry.now.baskets.now lent.entry.now.phase.now.cutting.pieces lent.entry.now.counter.now result }
        { lent.share(alloc, job.0, job.1) },
    )?;
    let Ok(totals) = round.close(seats) else {
        unreachable!()
    };
    match ended {
        Ok(_) => Ok(totals.counters),
        Err(_) => Err(AllocError),
    }
}
