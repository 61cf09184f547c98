//! The phase that mines class by class, with one limit over all workers.
ghost use Rattle.std.specs.Prelude.{◌≡◌, ◌≤◌, ◌<◌, ◌+◌, ◌++◌, ◌⊎◌, ℕ, Err, IfOk, IsTrue, OnOk, false, length, slice_index};
ghost use Rattle.mine_limit.specs.declared.fault.MineFault.TheVariants.{TooMany};
ghost use Rattle.std.specs.List.{range_with_len, sum_by};
ghost use Rattle.basket_ranks.specs.Codes.{frequent_of_coding};
ghost use Rattle.basket_core.specs.Listing.{listing_of};
ghost use Rattle.mine_conditional.specs.ClassScratch.{IsScratchOf};
ghost use Rattle.mine_round.specs.Record.{unused};
ghost use Rattle.mine_phases.specs.Classes.{AreAllMined, AreMined, HasLargeClass, IsClassShare, claimed_size, ranks_of};
ghost use Rattle.mine_phases.specs.RoundTally.{CountsSets, still};
ghost use Rattle.mine_pieces.specs.WorkerResult.{numbers_of};

use crate::class_miner::ClassMiner;
use crate::joined::{Class, joined};
use crate::round_tally::{RoundTally, Start, are_over};
use basket_core::{CodedItems, Frequent};
use mine_conditional::ClassScratch;
use mine_limit::{MineFault, Tally};
use mine_pieces::{Cutting, Gate, Phase, WorkerResult, by_workers, claim_piece, collected};
use mine_round::{Round, RoundSeat};
use std::alloc::Global;
use std::marker::Brand;
use std::thread::Threads;

/// The number of the phase: the items were counted before.
const PHASE: u32 = 2;

/// The phase that mines class by class.
pub fn class_phase<'a, G: Gate>(cutting: Cutting, gate: &'a G) -> Phase<'a, G>
    ensures number { result.number ≡ PHASE }
    ensures cutting { result.cutting ≡ cutting }
    ensures gate { result.gate.now ≡ gate.now }
{
    Phase::new(PHASE, cutting, gate)
}

/// The phase as its workers see it.
#[derive(Drop)]
struct Classes<'a, 'g, M: ClassMiner, G> {
    round: &'a Round,
    pieces: u32,
    ranks: u32,
    miner: &'a M,
    limit: u32,
    gate: &'g G,
    ghost some_pieces: { 1 ≤ pieces },
    ghost of_round: { round.now.pieces ≡ pieces },
    ghost counter: { round.now.counters ≡ 1 },
    ghost all_ranks: { ranks ≡ length (M.coding_of miner.now).items },
}

impl<M: ClassMiner, G: Gate> Classes<'_, '_, M, G> {
    /// What a worker does: it mines the classes of each piece that it claims, until none is left,
    /// or it sees more sets than the limit, or it runs out of memory.
    fn share(&self, alloc: Global, worker: u32, seat: RoundSeat) -> WorkerResult<Vec<(u32, Class)>>
        requires own { seat.round ≡ self.now.round.now.id }
        requires unused { seat.held ≡ unused 1 1 }
        ensures { IsClassShare self.now.round.now (M.coding_of self.now.miner.now) (M.rests_on self.now.miner.now) (M.work_of self.now.miner.now) self.now.limit self.now.pieces result }
    {
        let mut seat = seat;
        let mut values = Vec::new(alloc);
        let Ok(mut scratch) = ClassScratch::new(alloc, self.ranks) else {
            let values = Err(MineFault::Memory);
            return WorkerResult { seat, values };
        };
        while !are_over(self.round, &mut seat, self.limit) {
            let Some(claimed) = claim_piece(self.round, &mut seat, self.gate, PHASE, worker) else {
                let values = Ok(values);
                return WorkerResult { seat, values };
            };
            let (back, mined) = self.mine::<Brand>(alloc, &mut scratch, claimed, &mut values, seat);
            seat = back;
            if let Err(fault) = mined {
                let values = Err(fault);
                return WorkerResult { seat, values };
            }
        }
        let limit = self.limit;
        let values = Err(MineFault::TooMany { limit });
        WorkerResult { seat, values }
    }

    /// Adds the class of each rank of a claimed piece to the values, reported by a seat.
    fn mine<S: Start>(
        &self,
        alloc: Global,
        scratch: &mut ClassScratch,
        claimed: u32,
        values: &mut Vec<(u32, Class)>,
        seat: RoundSeat,
    ) -> (RoundSeat, Result<(), MineFault>)
        requires start { seat ≡ S.start }
        requires counts { CountsSets self.now.round.now seat }
        requires few { slice_index seat.held.seen 0 ≤ self.now.limit }
        requires scratch { IsScratchOf self.now.ranks scratch.old }
        requires claimed { claimed < self.now.pieces }
        requires each { AreMined (M.coding_of self.now.miner.now) (M.rests_on self.now.miner.now) (M.work_of self.now.miner.now) values.old.items }
        ensures counts { CountsSets self.now.round.now result.0 }
        ensures same { still result.0 ≡ still seat }
        ensures scratch { OnOk result.1 (IsScratchOf self.now.ranks scratch.new) }
        ensures numbers { OnOk result.1 (numbers_of values.new.items ≡ numbers_of values.old.items ++ ranks_of (M.coding_of self.now.miner.now) self.now.pieces claimed) }
        ensures each { OnOk result.1 (AreMined (M.coding_of self.now.miner.now) (M.rests_on self.now.miner.now) (M.work_of self.now.miner.now) values.new.items) }
        ensures told { OnOk result.1 (slice_index result.0.held.added 0 ≡ slice_index seat.held.added 0 + claimed_size (M.coding_of self.now.miner.now) self.now.pieces claimed) }
        ensures at_most { slice_index result.0.held.added 0 ≤ slice_index seat.held.added 0 + claimed_size (M.coding_of self.now.miner.now) self.now.pieces claimed }
        ensures too_many { (most : ℕ) → result.1 ≡ Err (TooMany most)
            → (most ≡ self.now.limit) × ((self.now.limit < slice_index result.0.held.seen 0) ⊎ HasLargeClass (M.coding_of self.now.miner.now) self.now.limit) }
    {
        let mut tally = RoundTally::<S>::new(self.round, seat, self.limit);
        let mined = self.add_classes(alloc, scratch, claimed, values, &mut tally);
        (tally.into_seat(), mined)
    }

    /// Adds the class of each rank of a claimed piece to the values, reported to a tally, which
    /// looks after each class at what the others have found. The scratch memory is used again from piece
    /// to piece.
    #[tactic(auto, using(std::proofs::lemmas::Grind::common_steps, std::proofs::lemmas::Result::err_from_is_err_and, crate::proofs::Ranks::all_ranks))]
    fn add_classes<S: Start>(
        &self,
        alloc: Global,
        scratch: &mut ClassScratch,
        claimed: u32,
        values: &mut Vec<(u32, Class)>,
        tally: &mut RoundTally<'_, S>,
    ) -> Result<(), MineFault>
        requires going { tally.old.over ≡ false }
        requires scratch { IsScratchOf self.now.ranks scratch.old }
        requires claimed { claimed < self.now.pieces }
        requires each { AreMined (M.coding_of self.now.miner.now) (M.rests_on self.now.miner.now) (M.work_of self.now.miner.now) values.old.items }
        ensures numbers { OnOk result (numbers_of values.new.items ≡ numbers_of values.old.items ++ ranks_of (M.coding_of self.now.miner.now) self.now.pieces claimed) }
        ensures each { OnOk result (AreMined (M.coding_of self.now.miner.now) (M.rests_on self.now.miner.now) (M.work_of self.now.miner.now) values.new.items) }
        ensures told { OnOk result (tally.new.told ≡ tally.old.told + claimed_size (M.coding_of self.now.miner.now) self.now.pieces claimed) }
        ensures going_on { OnOk result (tally.new.over ≡ false) }
        ensures too_many { (most : ℕ) → result ≡ Err (TooMany most)
            → (most ≡ tally.old.limit) × (IsTrue tally.new.over ⊎ HasLargeClass (M.coding_of self.now.miner.now) most) }
        ensures at_most { tally.new.told ≤ tally.old.told + claimed_size (M.coding_of self.now.miner.now) self.now.pieces claimed }
        ensures limit { tally.new.limit ≡ tally.old.limit }
        ensures scratch { OnOk result (IsScratchOf self.now.ranks scratch.new) }
    {
        // The classes of the greatest ranks are the largest. So they are mined first, and each piece
        // has some of them.
        let mut index = claimed as usize;
        while index < self.ranks as usize {
            let rank = self.ranks - 1 - index as u32;
            let class = self.miner.class(alloc, scratch, rank, tally)?;
            values.push((rank, class))?;
            if !tally.look() {
                let limit = tally.limit();
                return Err(MineFault::TooMany { limit });
            }
            index += self.pieces as usize;
        }
        Ok(())
    }
}

/// The class of each rank, mined by a number of workers over pieces of the ranks, if they have no
/// more sets than the limit. The workers share one count of the sets that they find, and each stops
/// once it sees more than the limit.
#[tactic(auto, using(std::proofs::lemmas::Grind::common_steps))]
fn mined_classes<'a, 'g, R: Threads + Sync, G: Gate + Sync, M: ClassMiner + Sync>(
    rt: &R,
    alloc: Global,
    coded: &CodedItems,
    miner: &'a M,
    limit: u32,
    phase: &Phase<'g, G>,
) -> Result<Vec<Class>, MineFault>
    requires coding { M.coding_of miner.now ≡ coded.now }
    ensures mined { IfOk result (λ classes. AreAllMined coded.now (M.rests_on miner.now) (M.work_of miner.now) limit classes.items) }
    ensures too_many { (most : ℕ) → result ≡ Err (TooMany most) → (most ≡ limit) × (limit < length (frequent_of_coding coded.now)) }
{
    let ranks = coded.items().len();
    let cutting = phase.for_parts(ranks).cutting;
    let (round, seats) = Round::new(alloc, cutting.pieces, 1, cutting.workers)?;
    let classes = Classes {
        round: &round,
        pieces: cutting.pieces,
        ranks: ranks as u32,
        miner,
        limit,
        gate: phase.gate,
    };
    let lent = &classes;
    let (seats, values) = by_workers(
        rt,
        alloc,
        seats,
        &|job: (u32, RoundSeat)| -> WorkerResult<Vec<(u32, Class)>>
            requires { (job.1.round ≡ lent.now.round.now.id) × (job.1.held ≡ unused 1 1) }
            ensures { IsClassShare lent.entry.now.round.now (M.coding_of lent.entry.now.miner.now) (M.rests_on lent.entry.now.miner.now) (M.work_of lent.entry.now.miner.now) lent.entry.now.limit lent.entry.now.pieces result }
        { lent.share(alloc, job.0, job.1) },
    )?;
    let Ok(_) = round.close(seats) else {
        unreachable!()
    };
    Ok(collected(alloc, ranks as u32, values?)?)
}

/// The list of the frequent sets, mined class by class by a number of workers over pieces of the
/// ranks, if it is no longer than the limit, and how much work that took. What the classes are
/// mined from is dropped before the list is made.
pub fn mine_shared<R: Threads + Sync, G: Gate + Sync, M: ClassMiner + Sync + Drop>(
    rt: &R,
    alloc: Global,
    coded: &CodedItems,
    miner: M,
    limit: u32,
    phase: &Phase<'_, G>,
) -> Result<(Frequent, u64), MineFault>
    requires coding { M.coding_of miner ≡ coded.now }
    ensures list { IfOk result (λ mined. mined.0 ≡ listing_of coded.now) }
    ensures within { IfOk result (λ mined. length mined.0.sets ≤ limit) }
    ensures work { IfOk result (λ mined. M.rests_on miner → mined.1 ≡ sum_by (M.work_of miner) (range_with_len 0 (length coded.now.items))) }
    ensures too_many { (most : ℕ) → result ≡ Err (TooMany most) → (most ≡ limit) × (limit < length (frequent_of_coding coded.now)) }
{
    let classes = mined_classes(rt, alloc, coded, &miner, limit, phase)?;
    drop(miner);
    let (classes, work) = joined(alloc, classes)?;
    let list = Frequent::of_classes_shared(rt, alloc, coded, classes, phase.cutting.workers)?;
    Ok((list, work))
}
