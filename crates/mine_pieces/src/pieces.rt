//! Phases that find a value for each part of their work. A piece has some of the parts.
ghost use Rattle.std.specs.Prelude.{◌≡◌, ◌<◌, ◌++◌, [], ℕ, All, IfOk, OnOk};
ghost use Rattle.mine_pieces.specs.Pieces.{AreOfPieces, HasEach, IsPieceShare, parts_of};
ghost use Rattle.mine_pieces.specs.WorkerResult.{numbers_of};

use crate::gate::Gate;
use crate::phase::Phase;
use crate::placed::collected;
use crate::worker_result::{WorkerResult, by_workers, claim_piece};
use basket_ranks::shard;
use mine_limit::MineFault;
use mine_round::{Round, RoundSeat};
use std::alloc::{AllocError, Global};
use std::thread::Threads;

/// Work in parts, each of which has a value.
pub trait PartWork<V> {
    /// What a worker uses again from part to part.
    type Tools: Drop + Send;

    ghost part_count: { Self → ℕ };

    ghost are_tools: { Self → Self.Tools → Type 0 };

    // Whether the value is that of a part.
    ghost is_value: { Self → ℕ → V → Type 0 };

    fn parts(&self) -> u32
        ensures { result ≡ part_count self.now };

    fn tools(&self, alloc: Global) -> Result<Self::Tools, AllocError>
        ensures { IfOk result (are_tools self.now) };

    fn value(&self, alloc: Global, tools: &mut Self::Tools, part: u32) -> Result<V, AllocError>
        requires part { part < part_count self.now }
        requires tools { are_tools self.now tools.old }
        ensures tools { OnOk result (are_tools self.now tools.new) }
        ensures value { IfOk result (is_value self.now part) };
}

/// The phase as its workers see it.
#[derive(Drop)]
struct Pieces<'r, 'a, 'p, P, G> {
    round: &'r Round,
    work: &'a P,
    phase: &'r Phase<'p, G>,
}

impl<P, G: Gate> Pieces<'_, '_, '_, P, G> {
    /// What a worker does: it finds the values of each piece that it claims, until none is left or
    /// it runs out of memory.
    fn share<V: Drop>(
        &self,
        alloc: Global,
        worker: u32,
        mut seat: RoundSeat,
    ) -> WorkerResult<Vec<(u32, V)>>
    where
        P: PartWork<V>,
        requires own { seat.round ≡ self.now.round.now.id }
        requires unused { seat.held.claimed ≡ [] }
        requires pieces { self.now.round.now.pieces ≡ self.now.phase.now.cutting.pieces }
        ensures { IsPieceShare (P.is_value self.now.work.now) (parts_of (P.part_count self.now.work.now) self.now.phase.now.cutting.pieces) self.now.round.now result }
    {
        let values = match self.values(alloc, worker, &mut seat) {
            Ok(values) => Ok(values),
            Err(AllocError) => Err(MineFault::Memory),
        };
        WorkerResult { seat, values }
    }

    fn values<V: Drop>(
        &self,
        alloc: Global,
        worker: u32,
        seat: &mut RoundSeat,
    ) -> Result<Vec<(u32, V)>, AllocError>
    where
        P: PartWork<V>,
        requires own { seat.old.round ≡ self.now.round.now.id }
        requires unused { seat.old.held.claimed ≡ [] }
        requires pieces { self.now.round.now.pieces ≡ self.now.phase.now.cutting.pieces }
        ensures own { seat.new.round ≡ seat.old.round }
        ensures values { IfOk result (λ values. AreOfPieces (P.is_value self.now.work.now) (parts_of (P.part_count self.now.work.now) self.now.phase.now.cutting.pieces) seat.new values.items) }
    {
        let phase = self.phase;
        let mut tools = self.work.tools(alloc)?;
        let mut values = Vec::new(alloc);
        while let Some(piece) = claim_piece(self.round, seat, phase.gate, phase.number, worker) {
            self.add_values(alloc, &mut tools, piece, &mut values)?;
        }
        Ok(values)
    }

    /// Adds the value of each part that a piece has.
    #[tactic(auto, using(std::proofs::lemmas::Grind::common_steps, crate::proofs::theory::Numbers::numbers_are))]
    fn add_values<V: Drop>(
        &self,
        alloc: Global,
        tools: &mut P::Tools,
        piece: u32,
        values: &mut Vec<(u32, V)>,
    ) -> Result<(), AllocError>
    where
        P: PartWork<V>,
        requires piece { piece < self.now.phase.now.cutting.pieces }
        requires tools { P.are_tools self.now.work.now tools.old }
        requires each { All (λ value. P.is_value self.now.work.now value.0 value.1) values.old.items }
        ensures tools { OnOk result (P.are_tools self.now.work.now tools.new) }
        ensures parts { OnOk result (numbers_of values.new.items ≡ numbers_of values.old.items ++ parts_of (P.part_count self.now.work.now) self.now.phase.now.cutting.pieces piece) }
        ensures each { OnOk result (All (λ value. P.is_value self.now.work.now value.0 value.1) values.new.items) }
    {
        let parts = self.work.parts() as usize;
        let (start, end) = shard(piece, self.phase.cutting.pieces, parts);
        for part in start..end {
            let value = self.work.value(alloc, tools, part as u32)?;
            values.push((part as u32, value))?;
        }
        Ok(())
    }
}

/// The value of each part, in their order, found by the workers of a phase. The only error is out
/// of memory.
pub fn by_pieces<'a, 'p, R: Threads + Sync, G: Gate + Sync, V: Send + Drop, P: PartWork<V> + Sync>(
    rt: &R,
    alloc: Global,
    work: &'a P,
    phase: &Phase<'p, G>,
) -> Result<Vec<V>, AllocError>
    ensures { IfOk result (λ values. HasEach (P.is_value work.now) (P.part_count work.now) values.items) }
{
    let parts = work.parts();
    let phase = phase.for_parts(parts as usize);
    let cutting = phase.cutting;
    let (round, seats) = Round::new(alloc, cutting.pieces, 0, cutting.workers)?;
    let shared = Pieces {
        round: &round,
        work,
        phase: &phase,
    };
    let lent = &shared;
    let (seats, values) = by_workers(
        rt,
        alloc,
        seats,
        &|job: (u32, RoundSeat)| -> WorkerResult<Vec<(u32, V)>>
            requires { (job.1.round ≡ lent.now.round.now.id) × (job.1.held.claimed ≡ []) × (lent.now.round.now.pieces ≡ lent.now.phase.now.cutting.pieces) }
            ensures { IsPieceShare (P.is_value lent.entry.now.work.now) (parts_of (P.part_count lent.entry.now.work.now) lent.entry.now.phase.now.cutting.pieces) lent.entry.now.round.now result }
        { lent.share(alloc, job.0, job.1) },
    )?;
    let Ok(_) = round.close(seats) else {
        unreachable!()
    };
    let Ok(lists) = values else {
        return Err(AllocError);
    };
    collected(alloc, parts, lists)
}
