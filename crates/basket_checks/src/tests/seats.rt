//! Seats of one thread.
ghost use Rattle.std.specs.Prelude.{◌≡◌, All};

use super::{assert_numbers, assert_text};
use mine_round::{Collector, Missing, Refused, Round, RoundSeat};
use std::alloc::{AllocError, Global};
use std::fmt::Write;
use std::test::Fail;

/// How many pieces of a round were claimed, how many counters it has, and what the first of them is.
pub fn closed(round: Round, seats: Vec<RoundSeat>) -> Result<[u64; 3], Fail>
    requires { All (λ seat. seat.round ≡ round.id) seats.items }
{
    let totals = round.close(seats)?;
    let first = totals.counters.first().copied().unwrap_or(0);
    Ok([
        u64::from(totals.claimed),
        totals.counters.len() as u64,
        first,
    ])
}

/// What the one seat of a round without pieces gets by two claims, and how the round ends.
fn claimed_of_none(alloc: Global) -> Result<([Option<u32>; 2], [u64; 3]), Fail> {
    let (round, mut seats) = Round::new(alloc, 0, 0, 1)?;
    let claimed = [round.claim(&mut seats[0]), round.claim(&mut seats[0])];
    Ok((claimed, closed(round, seats)?))
}

#[test]
fn a_round_without_pieces_has_none_to_claim(rt: HostRuntime) -> Result<(), Fail> {
    let (claimed, end) = claimed_of_none(rt.alloc())?;
    assert_eq!(rt; claimed, [None, None]);
    assert_numbers(&rt, &end, &[0, 0, 0]);
    Ok(())
}

/// What two seats get of one piece, and how the round ends.
fn claimed_of_one(alloc: Global) -> Result<([Option<u32>; 2], [u64; 3]), Fail> {
    let (round, mut seats) = Round::new(alloc, 1, 0, 2)?;
    let claimed = [round.claim(&mut seats[0]), round.claim(&mut seats[1])];
    Ok((claimed, closed(round, seats)?))
}

#[test]
fn one_piece_goes_to_one_of_two_seats(rt: HostRuntime) -> Result<(), Fail> {
    let (claimed, end) = claimed_of_one(rt.alloc())?;
    assert_eq!(rt; claimed, [Some(0), None]);
    assert_numbers(&rt, &end, &[1, 0, 0]);
    Ok(())
}

/// What is found as two seats add and read in turn, and how the round ends.
fn added_in_turn(alloc: Global) -> Result<([u64; 4], [u64; 3]), Fail> {
    let (round, mut seats) = Round::new(alloc, 0, 1, 2)?;
    let mut second = seats.pop().unwrap();
    let mut first = seats.pop().unwrap();
    let found = [
        round.add(&mut first, 0, 5),
        round.read(&mut second, 0),
        round.add(&mut second, 0, 7),
        round.read(&mut first, 0),
    ];
    seats.push_reserved(first);
    seats.push_reserved(second);
    Ok((found, closed(round, seats)?))
}

#[test]
fn a_seat_reads_what_another_added(rt: HostRuntime) -> Result<(), Fail> {
    let (found, end) = added_in_turn(rt.alloc())?;
    assert_numbers(&rt, &found, &[0, 5, 5, 12]);
    assert_numbers(&rt, &end, &[0, 1, 12]);
    Ok(())
}

/// What is found as a seat adds the most at once, and how the round ends.
fn added_at_once(alloc: Global) -> Result<(u64, [u64; 3]), Fail> {
    let (round, mut seats) = Round::new(alloc, 0, 1, 1)?;
    let found = round.add(&mut seats[0], 0, 1 << 40);
    Ok((found, closed(round, seats)?))
}

#[test]
fn a_seat_adds_the_most_at_once(rt: HostRuntime) -> Result<(), Fail> {
    let (found, end) = added_at_once(rt.alloc())?;
    assert_numbers(&rt, &[found], &[0]);
    assert_numbers(&rt, &end, &[0, 1, 1_099_511_627_776]);
    Ok(())
}

/// What is found as two seats add up to the bound of each, and how the round ends.
fn added_up_to_the_bound(alloc: Global) -> Result<([u64; 3], [u64; 3]), Fail> {
    let (round, mut seats) = Round::new(alloc, 0, 1, 2)?;
    let mut second = seats.pop().unwrap();
    let mut first = seats.pop().unwrap();
    let found = [
        round.add(&mut first, 0, (1 << 40) - 1),
        round.add(&mut first, 0, 1),
        round.add(&mut second, 0, 1 << 40),
    ];
    seats.push_reserved(first);
    seats.push_reserved(second);
    Ok((found, closed(round, seats)?))
}

#[test]
fn seats_add_up_to_the_bound_of_each(rt: HostRuntime) -> Result<(), Fail> {
    let (found, end) = added_up_to_the_bound(rt.alloc())?;
    assert_numbers(&rt, &found, &[0, 1_099_511_627_775, 1_099_511_627_776]);
    assert_numbers(&rt, &end, &[0, 1, 2_199_023_255_552]);
    Ok(())
}

/// Puts a value into a collector, and writes whether it was taken, or why not and with the value that came back.
fn put(
    text: &mut String,
    collector: &mut Collector<char>,
    piece: u32,
    value: char,
) -> Result<(), AllocError> {
    let answer = match collector.put(piece, value) {
        Ok(()) => ("taken", value),
        Err(Refused::Stranger(back)) => ("stranger", back),
        Err(Refused::Double(back)) => ("double", back),
    };
    write!(text, "{} {}, ", answer.0, answer.1)
}

/// A collector of two pieces that lacks one, after three values were put.
fn with_gap(alloc: Global, text: &mut String) -> Result<Missing<char>, Fail> {
    let mut collector = Collector::new(alloc, 2)?;
    put(text, &mut collector, 2, 'a')?;
    put(text, &mut collector, 0, 'a')?;
    put(text, &mut collector, 0, 'b')?;
    match collector.finish() {
        Ok(_) => Err(Fail::new("it finished with a gap")),
        Err(missing) => Ok(missing),
    }
}

/// Puts the value that is missing, and writes all.
fn finish(text: &mut String, missing: Missing<char>) -> Result<(), Fail> {
    let Missing {
        piece,
        mut collector,
    } = missing;
    put(text, &mut collector, 1, 'c')?;
    let values = collector.finish()?;
    Ok(write!(text, "{piece} was missing, {values:?}")?)
}

#[test]
fn a_collector_refuses_strangers_doubles_and_gaps(rt: HostRuntime) -> Result<(), Fail> {
    let mut text = String::new(rt.alloc());
    let missing = with_gap(rt.alloc(), &mut text)?;
    finish(&mut text, missing)?;
    assert_text(
        &rt,
        text.as_str(),
        "stranger a, taken a, double b, taken c, 1 was missing, ['a', 'c']",
    );
    Ok(())
}
