//! What the workers of a phase hand back, and what it is together.
ghost use Rattle.std.specs.Prelude.{◌≡◌, ◌≤◌, ◌<◌, ◌+◌, ◌^◌, ℕ, [], map, vec_len, vec_capacity, MatchResult, Ok, Some, None, length, IfOk, IfSome, IfNone, slice_index};
ghost use Rattle.std.specs.List.{enumerate_from};
ghost use Rattle.mine_pieces.specs.WorkerResult.{AcceptsSeats, ArePartsOfShares, fault_of, worse};
ghost use Rattle.mine_round.specs.Record.{with_piece, with_end_seen};
ghost use Rattle.mine_round.specs.Words.{ClaimedBelow};

use crate::gate::Gate;
use mine_limit::MineFault;
use mine_round::{Round, RoundSeat};
use std::alloc::{AllocError, Global};
use std::thread;
use std::thread::Threads;

/// What a worker hands back: its seat, and what it found for the pieces that it claimed, or why it
/// stopped.
#[derive(Drop)]
pub struct WorkerResult<V> {
    pub seat: RoundSeat,
    pub values: Result<V, MineFault>,
}

/// The seats with the numbers of their workers, from 0 on.
fn numbered(alloc: Global, seats: Vec<RoundSeat>) -> Result<Vec<(u32, RoundSeat)>, AllocError>
    requires { vec_len seats < 2 ^ 32 }
    ensures numbers { IfOk result (λ workers. workers.items ≡ enumerate_from 0 seats.items) }
    ensures count { IfOk result (λ workers. vec_len workers ≡ vec_len seats) }
{
    let mut workers = Vec::with_capacity(alloc, seats.len())?;
    let mut number = 0;
    for seat in seats {
        workers.push_reserved((number, seat));
        number += 1;
    }
    Ok(workers)
}

/// Claims a piece for a worker and passes the gate with it.
pub fn claim_piece<G: Gate>(
    round: &Round,
    seat: &mut RoundSeat,
    gate: &G,
    phase: u32,
    worker: u32,
) -> Option<u32>
    requires own { seat.old.round ≡ round.now.id }
    ensures own { seat.new.round ≡ seat.old.round }
    ensures piece { IfSome result (λ piece. (piece < round.now.pieces) × (seat.new.held ≡ with_piece seat.old.held piece)) }
    ensures rises { IfSome result (λ piece. ClaimedBelow seat.old.held piece) }
    ensures none { IfNone result (seat.new.held ≡ with_end_seen seat.old.held) }
{
    let piece = round.claim(seat)?;
    gate.pass(phase, worker, piece);
    Some(piece)
}

/// Adds each count to the counter of its place.
pub fn add_counts(round: &Round, seat: &mut RoundSeat, counts: &[u64])
    requires own { seat.old.round ≡ round.now.id }
    requires counters { round.now.counters ≡ length counts.now }
    requires sized { length seat.old.held.added ≡ length counts.now }
    requires room { (k : ℕ) → k < length counts.now → slice_index seat.old.held.added k + slice_index counts.now k ≤ 2 ^ 40 }
    ensures own { seat.new.round ≡ seat.old.round }
    ensures claimed { seat.new.held.claimed ≡ seat.old.held.claimed }
    ensures past { seat.new.held.past ≡ seat.old.held.past }
    ensures sized { length seat.new.held.added ≡ length seat.old.held.added }
    ensures added { (k : ℕ) → k < length counts.now → slice_index seat.new.held.added k ≡ slice_index seat.old.held.added k + slice_index counts.now k }
{
    for (counter, count) in counts.iter().enumerate() {
        if *count > 0 {
            round.add(seat, counter, *count);
        }
    }
}

/// The fault to report, if one was found before: that there are too many sets comes before out of
/// memory.
fn worse(fault: Option<MineFault>, found: MineFault) -> Option<MineFault>
    ensures { result ≡ worse fault found }
{
    match fault {
        Some(MineFault::TooMany { limit }) => Some(MineFault::TooMany { limit }),
        _ => Some(found),
    }
}

/// The seats of the workers, and the values of all, or the fault to report if one has a fault.
fn parted<V: Drop>(
    shares: Vec<WorkerResult<V>>,
    mut seats: Vec<RoundSeat>,
    mut lists: Vec<V>,
) -> (Vec<RoundSeat>, Result<Vec<V>, MineFault>)
    requires seats { (seats.items ≡ []) × (vec_len shares ≤ vec_capacity seats) }
    requires lists { (lists.items ≡ []) × (vec_len shares ≤ vec_capacity lists) }
    ensures seats { result.0.items ≡ map (λ share. share.seat) shares.items }
    ensures lists { IfOk result.1 (λ lists. map Ok lists.items ≡ map (λ share. share.values) shares.items) }
    ensures fault { MatchResult result.1 (λ _. fault_of (map (λ share. share.values) shares.items) ≡ None)
        (λ fault. fault_of (map (λ share. share.values) shares.items) ≡ Some fault) }
{
    let mut fault = None;
    for share in shares {
        let WorkerResult { seat, values } = share;
        seats.push_reserved(seat);
        match values {
            Ok(list) => lists.push_reserved(list),
            Err(found) => fault = worse(fault, found),
        }
    }
    match fault {
        Some(fault) => (seats, Err(fault)),
        None => (seats, Ok(lists)),
    }
}

/// Has a worker for each seat do the work; its number is the place of the seat. Returns the seats,
/// and the values of all workers, or the fault to report if one has a fault.
pub fn by_workers<
    R: Threads + Sync,
    V: Send + Drop,
    F: Fn((u32, RoundSeat)) -> WorkerResult<V> + Sync,
>(
    rt: &R,
    alloc: Global,
    seats: Vec<RoundSeat>,
    work: &F,
) -> Result<(Vec<RoundSeat>, Result<Vec<V>, MineFault>), AllocError>
    requires few { vec_len seats < 2 ^ 32 }
    requires accepted { AcceptsSeats F.Fn work.now seats.items }
    ensures { IfOk result (λ parts. ArePartsOfShares F.Fn work.now seats.items parts.0.items parts.1) }
{
    let back = Vec::with_capacity(alloc, seats.len())?;
    let lists = Vec::with_capacity(alloc, seats.len())?;
    let shares = thread::map_vec(rt, numbered(alloc, seats)?, work)?;
    Ok(parted(shares, back, lists))
}
