//! Seats on threads of their own. What is asserted holds whatever the schedule.
ghost use Rattle.std.specs.Prelude.{◌≡◌, ◌≤◌, All, length};
ghost use Rattle.mine_round.specs.Record.{unused};

use super::assert_numbers;
use super::seats::closed;
use mine_round::{Outstanding, Round, RoundSeat};
use std::alloc::{AllocError, Global};
use std::sync::atomic::{AtomicU64, Ordering};
use std::test::Fail;
use std::thread;
use std::thread::Threads;

/// How many turns a thread waits at most.
const TURNS: u32 = 1_000_000;

/// Waits for some turns until this many threads have arrived, so that they run side by side.
fn arrive(arrived: &AtomicU64, threads: u64) {
    arrived.fetch_add(1, Ordering::SeqCst);
    for _ in 0..TURNS {
        if arrived.load(Ordering::SeqCst) >= threads {
            return;
        }
    }
}

/// Numbers that threads count up, all 0.
fn zeros(alloc: Global, count: usize) -> Result<Vec<AtomicU64>, AllocError> {
    let mut numbers = Vec::with_capacity(alloc, count)?;
    for _ in 0..count {
        numbers.push(AtomicU64::new(0))?;
    }
    Ok(numbers)
}

/// Claims pieces until there is none, and counts each.
fn claim_all(round: &Round, seat: &mut RoundSeat, claimed: &[AtomicU64])
    requires { seat.old.round ≡ round.now.id }
    ensures own { seat.new.round ≡ round.now.id }
    ensures added { seat.new.held.added ≡ seat.old.held.added }
{
    for _ in 0..u64::MAX {
        let Some(piece) = round.claim(seat) else {
            return;
        };
        if let Some(times) = claimed.get(piece as usize) {
            times.fetch_add(1, Ordering::SeqCst);
        }
    }
}

/// The first piece that was not claimed just once, or how many there are if each was.
fn first_wrong(claimed: &[AtomicU64]) -> u64 {
    let wrong = claimed
        .iter()
        .position(|times| times.load(Ordering::SeqCst) != 1);
    wrong.unwrap_or(claimed.len()) as u64
}

/// Has each of 64 seats claim on a thread of its own.
fn claim_by_threads<R: Threads + Sync>(
    rt: &R,
    round: &Round,
    seats: &mut [RoundSeat],
    claimed: &[AtomicU64],
)
    requires { All (λ seat. seat.round ≡ round.now.id) seats.old }
    ensures { All (λ seat. seat.round ≡ round.now.id) seats.new }
{
    let arrived = AtomicU64::new(0);
    thread::for_each_mut(
        rt,
        seats,
        64,
        &|_, seat: &mut RoundSeat|
            requires { seat.now.round ≡ round.now.id }
            ensures { seat.exit.now.round ≡ round.entry.now.id }
        {
            arrive(&arrived, 64);
            claim_all(round, seat, claimed);
        },
    );
}

#[test]
fn each_piece_goes_to_one_of_sixty_four_threads(rt: HostRuntime) -> Result<(), Fail> {
    let claimed = zeros(rt.alloc(), 65_536)?;
    let (round, mut seats) = Round::new(rt.alloc(), 65_536, 0, 64)?;
    claim_by_threads(&rt, &round, seats.as_mut_slice(), claimed.as_slice());
    let end = closed(round, seats)?;
    assert_numbers(&rt, &end, &[65_536, 0, 0]);
    assert_numbers(&rt, &[first_wrong(claimed.as_slice())], &[65_536]);
    Ok(())
}

/// Adds 1 this often, and counts each number that is no greater than the one before.
fn count_up(round: &Round, seat: &mut RoundSeat, falls: &AtomicU64)
    requires own { seat.old.round ≡ round.now.id }
    requires counters { round.now.counters ≡ 1 }
    requires unused { seat.old.held ≡ unused 1 1 }
    ensures { seat.new.round ≡ round.now.id }
{
    let mut least = 0;
    for _ in 0..100_000u32 {
        let found = round.add(seat, 0, 1);
        if found < least {
            falls.fetch_add(1, Ordering::SeqCst);
        }
        least = found.saturating_add(1);
    }
}

/// Has each of eight seats add on a thread of its own.
fn add_by_threads<R: Threads + Sync>(
    rt: &R,
    round: &Round,
    seats: &mut [RoundSeat],
    falls: &AtomicU64,
)
    requires counters { round.now.counters ≡ 1 }
    requires unused { All (λ seat. (seat.round ≡ round.now.id) × (seat.held ≡ unused 1 1)) seats.old }
    ensures { All (λ seat. seat.round ≡ round.now.id) seats.new }
{
    let arrived = AtomicU64::new(0);
    thread::for_each_mut(
        rt,
        seats,
        8,
        &|_, seat: &mut RoundSeat|
            requires { (seat.now.round ≡ round.now.id) × (round.now.counters ≡ 1) × (seat.now.held ≡ unused 1 1) }
            ensures { seat.exit.now.round ≡ round.entry.now.id }
        {
            arrive(&arrived, 8);
            count_up(round, seat, falls);
        },
    );
}

#[test]
fn what_eight_threads_add_is_their_sum(rt: HostRuntime) -> Result<(), Fail> {
    let falls = AtomicU64::new(0);
    let (round, mut seats) = Round::new(rt.alloc(), 0, 1, 8)?;
    add_by_threads(&rt, &round, seats.as_mut_slice(), &falls);
    let end = closed(round, seats)?;
    assert_numbers(&rt, &end, &[0, 1, 800_000]);
    assert_numbers(&rt, &[falls.load(Ordering::SeqCst)], &[0]);
    Ok(())
}

/// Claims all pieces that are left, adds and reads. Of two seats that add 5 and 7 each finds no more than
/// what the other added.
fn claim_and_add(round: &Round, seat: &mut RoundSeat, amount: u64, claimed: &[AtomicU64]) -> bool
    requires own { seat.old.round ≡ round.now.id }
    requires counters { round.now.counters ≡ 1 }
    requires unused { seat.old.held ≡ unused 1 1 }
    requires few { amount ≤ 12 }
    ensures { seat.new.round ≡ round.now.id }
{
    claim_all(round, seat, claimed);
    let found = round.add(seat, 0, amount);
    let read = round.read(seat, 0);
    let piece = round.claim(seat);
    piece.is_none() && (found == 0 || found == 12 - amount) && (read == amount || read == 12)
}

/// Has each of two seats claim and add on a thread of its own, and counts what is wrong.
fn work_by_threads<R: Threads + Sync>(
    rt: &R,
    round: &Round,
    seats: &mut [RoundSeat],
    claimed: &[AtomicU64],
    faults: &AtomicU64,
)
    requires counters { round.now.counters ≡ 1 }
    requires unused { All (λ seat. (seat.round ≡ round.now.id) × (seat.held ≡ unused 1 1)) seats.old }
    ensures { All (λ seat. seat.round ≡ round.now.id) seats.new }
{
    let arrived = AtomicU64::new(0);
    thread::for_each_mut(
        rt,
        seats,
        2,
        &|number, seat: &mut RoundSeat|
            requires { (seat.now.round ≡ round.now.id) × (round.now.counters ≡ 1) × (seat.now.held ≡ unused 1 1) }
            ensures { seat.exit.now.round ≡ round.entry.now.id }
        {
            arrive(&arrived, 2);
            let amount = if number == 0 { 5 } else { 7 };
            if !claim_and_add(round, seat, amount, claimed) {
                faults.fetch_add(1, Ordering::SeqCst);
            }
        },
    );
}

/// How many seats are missing in a round from which one is withheld, how many come back, and how the round ends
/// with all of them.
fn closed_late(round: Round, mut seats: Vec<RoundSeat>) -> Result<[u64; 5], Fail>
    requires { All (λ seat. seat.round ≡ round.id) seats.items }
{
    let withheld = seats.pop().ok_or("no seat")?;
    let Err(outstanding) = round.close(seats) else {
        return Err(Fail::new("it was closed without a seat"));
    };
    let Outstanding {
        round,
        mut seats,
        missing,
    } = outstanding;
    let back = seats.len() as u64;
    seats.push(withheld)?;
    let [pieces, counters, first] = closed(round, seats)?;
    Ok([u64::from(missing), back, pieces, counters, first])
}

#[test]
fn a_round_of_two_threads_is_closed_with_both_seats(rt: HostRuntime) -> Result<(), Fail> {
    let claimed = [AtomicU64::new(0), AtomicU64::new(0), AtomicU64::new(0)];
    let faults = AtomicU64::new(0);
    let (round, mut seats) = Round::new(rt.alloc(), 3, 1, 2)?;
    work_by_threads(&rt, &round, seats.as_mut_slice(), &claimed, &faults);
    assert_numbers(&rt, &closed_late(round, seats)?, &[1, 1, 3, 1, 12]);
    let found = [faults.load(Ordering::SeqCst), first_wrong(&claimed)];
    assert_numbers(&rt, &found, &[0, 3]);
    Ok(())
}
