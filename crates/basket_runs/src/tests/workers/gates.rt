//! Mining by two workers under gates that pause them. What is asserted holds whatever the schedule.
use super::limits::Held;
use super::*;
use std::sync::atomic::{AtomicU64, Ordering};

/// How many turns a worker is paused at most.
const TURNS: u64 = 1_000_000_000;

/// A gate of these tests. As they have one type, the miners are compiled for them once.
#[derive(Drop)]
pub enum Watch<'a> {
    Nothing,
    Meeting(&'a Meeting),
    FirstLast(&'a FirstLast),
    SecondPhase(&'a SecondPhase),
    Held(&'a Held),
}

impl Gate for Watch<'_> {
    fn pass(&self, phase: u32, worker: u32, piece: u32) {
        match self {
            Watch::Nothing => {}
            Watch::Meeting(gate) => gate.pass(phase, worker),
            Watch::FirstLast(gate) => gate.pass(phase, piece),
            Watch::SecondPhase(gate) => gate.pass(phase, piece),
            Watch::Held(gate) => gate.pass(phase, worker),
        }
    }
}

/// How many sets two workers find, if they aren't too many.
pub fn found_by_two<R: Threads + Sync>(
    rt: &R,
    alloc: Global,
    text: &[u8],
    plan: &Plan,
    gate: Watch<'_>,
) -> Result<Option<usize>, Fail> {
    let database = database(alloc, text)?;
    let plan = plan.with_workers(2);
    match mine(rt, alloc, &database, &plan, &gate) {
        Ok((frequent, _)) => Ok(Some(frequent.sets().len())),
        Err(MineFault::TooMany { limit }) if limit == plan.limit() => Ok(None),
        Err(fault) => Err(Fail::from(fault)),
    }
}

/// Waits until a number is as great as another.
fn wait_for(number: &AtomicU64, least: u64) -> bool {
    for _ in 0..TURNS {
        if number.load(Ordering::SeqCst) >= least {
            return true;
        }
    }
    false
}

/// Pauses each of two workers in a phase until the other has arrived there, and notes the phases.
#[derive(Drop)]
pub struct Meeting {
    phase: u32,
    first: AtomicU64,
    second: AtomicU64,
    late: AtomicU64,
    phases: AtomicU64,
    /// How often a worker passed in the phase.
    pub passed: AtomicU64,
}

impl Meeting {
    pub fn in_phase(phase: u32) -> Meeting {
        Meeting {
            phase,
            first: AtomicU64::new(0),
            second: AtomicU64::new(0),
            late: AtomicU64::new(0),
            phases: AtomicU64::new(0),
            passed: AtomicU64::new(0),
        }
    }

    fn hold(&self, mine: &AtomicU64, other: &AtomicU64) {
        mine.store(1, Ordering::SeqCst);
        if !wait_for(other, 1) {
            self.late.store(1, Ordering::SeqCst);
        }
        self.passed.fetch_add(1, Ordering::SeqCst);
    }

    /// Whether both workers arrived, and neither was paused for all turns.
    pub fn met(&self) -> bool {
        self.first.load(Ordering::SeqCst) == 1
            && self.second.load(Ordering::SeqCst) == 1
            && self.late.load(Ordering::SeqCst) == 0
    }

    fn pass(&self, phase: u32, worker: u32) {
        if phase < 64 {
            self.phases.fetch_or(1 << phase, Ordering::SeqCst);
        }
        if phase == self.phase {
            match worker {
                0 => self.hold(&self.first, &self.second),
                _ => self.hold(&self.second, &self.first),
            }
        }
    }
}

/// How many sets are found where workers meet in a phase, which phases there were, and whether they
/// met.
fn found_meeting<R: Threads + Sync>(
    rt: &R,
    alloc: Global,
    plan: &Plan,
    phase: u32,
) -> Result<(Option<usize>, u64, bool), Fail> {
    let gate = Meeting::in_phase(phase);
    let found = found_by_two(rt, alloc, NINE_BASKETS, plan, Watch::Meeting(&gate))?;
    Ok((found, gate.phases.load(Ordering::SeqCst), gate.met()))
}

#[test]
fn workers_meet_in_each_phase(rt: HostRuntime) -> Result<(), Fail> {
    for &(name, miner) in MINERS {
        let phases = match miner {
            Miner::Apriori => 0b1110,
            _ => 0b110,
        };
        let plan = plan("2")?.with_miner(miner).with_pieces(2);
        for phase in 1..4 {
            let has_phase = phases & (1 << phase) != 0;
            let found = found_meeting(&rt, rt.alloc(), &plan, phase)?;
            assert_eq!(rt;
                found,
                (Some(13), phases, has_phase),
                "{name} in phase {phase}"
            );
        }
    }
    Ok(())
}

/// Pauses the worker that has the first piece of the class phase until the others have passed.
#[derive(Drop)]
pub struct FirstLast {
    others: u64,
    pub passed: AtomicU64,
    late: AtomicU64,
}

impl FirstLast {
    pub fn after(others: u64) -> FirstLast {
        FirstLast {
            others,
            passed: AtomicU64::new(0),
            late: AtomicU64::new(0),
        }
    }

    /// Whether the worker was paused for all turns.
    pub fn is_late(&self) -> bool {
        self.late.load(Ordering::SeqCst) != 0
    }

    fn pass(&self, phase: u32, piece: u32) {
        if phase != 2 {
            return;
        }
        if piece > 0 {
            self.passed.fetch_add(1, Ordering::SeqCst);
        } else if !wait_for(&self.passed, self.others) {
            self.late.store(1, Ordering::SeqCst);
        }
    }
}

#[test]
fn one_worker_takes_what_is_left(rt: HostRuntime) -> Result<(), Fail> {
    let plan = plan("2")?.with_miner(Miner::Eclat).with_pieces(4);
    let gate = FirstLast::after(3);
    let found = found_by_two(
        &rt,
        rt.alloc(),
        NINE_BASKETS,
        &plan,
        Watch::FirstLast(&gate),
    )?;
    assert_eq!(rt; found, Some(13));
    assert!(rt; !gate.is_late(), "the others did not pass");
    Ok(())
}

/// Notes what is passed in the second phase.
#[derive(Drop)]
pub struct SecondPhase {
    times: AtomicU64,
    greatest_piece: AtomicU64,
}

impl SecondPhase {
    fn pass(&self, phase: u32, piece: u32) {
        if phase == 2 {
            self.times.fetch_add(1, Ordering::SeqCst);
            self.greatest_piece
                .fetch_max(u64::from(piece), Ordering::SeqCst);
        }
    }
}

/// Three hundred items, each on a line with each of the ten that follow it.
fn pairs_of_neighbours(alloc: Global) -> Result<Vec<u8>, AllocError> {
    let mut text = Vec::new(alloc);
    let mut buffer = Buffer::new();
    for item in 0..300u32 {
        for step in 1..11 {
            text.extend_from_slice(buffer.format(item).as_bytes())?;
            text.push(b' ')?;
            text.extend_from_slice(buffer.format((item + step) % 300).as_bytes())?;
            text.push(b'\n')?;
        }
    }
    Ok(text)
}

#[test]
fn two_workers_count_the_pairs_of_many_items_over_two_ranges(rt: HostRuntime) -> Result<(), Fail> {
    let text = pairs_of_neighbours(rt.alloc())?;
    let plan = plan("2")?.with_miner(Miner::Apriori).with_pieces(65_536);
    let gate = SecondPhase {
        times: AtomicU64::new(0),
        greatest_piece: AtomicU64::new(0),
    };
    let found = found_by_two(&rt, rt.alloc(), &text, &plan, Watch::SecondPhase(&gate))?;
    assert_eq!(rt; found, Some(300));
    assert_eq!(rt; gate.times.load(Ordering::SeqCst), 2);
    assert_eq!(rt; gate.greatest_piece.load(Ordering::SeqCst), 1);
    Ok(())
}
