//! Limits that two workers pass. What is asserted holds whatever the schedule.
use super::gates::{FirstLast, Meeting, Watch, found_by_two};
use super::*;
use std::sync::atomic::{AtomicU64, Ordering};

/// 4,095 sets at a minimum of 2, of which none has more than ten items: no single set shows, before
/// they are mined, that they are more than a limit.
const FOUR_TENS: &[u8] =
    b"2x1 2 3 4 5 6 7 8 9 10\n2x11 12 13 14 15 16 17 18 19 20\n2x21 22 23 24 25 26 27 28 29 30\n2x31 32 33 34 35 36 37 38 39 40\n2x41\n2x42\n2x43\n";

/// If each worker had a limit of its own, a worker could pass three pieces.
#[test]
fn two_workers_have_one_limit(rt: HostRuntime) -> Result<(), Fail> {
    let forty = forty_items(rt.alloc())?;
    let plan = plan("2")?
        .with_miner(Miner::Eclat)
        .with_pieces(40)
        .with_limit(2);
    let gate = Meeting::in_phase(2);
    let found = found_by_two(&rt, rt.alloc(), &forty, &plan, Watch::Meeting(&gate))?;
    assert_eq!(rt; found, None);
    assert!(rt; gate.met(), "the workers did not meet");
    let passed = gate.passed.load(Ordering::SeqCst);
    assert!(rt; passed <= 4, "{passed} pieces were passed");
    Ok(())
}

/// How many sets are found while the first worker waits for 13 pieces, how many pieces were passed
/// then, and whether it waited too long.
fn found_after_thirteen<R: Threads + Sync>(
    rt: &R,
    alloc: Global,
    miner: Miner,
) -> Result<(Option<usize>, u64, bool), Fail> {
    let plan = plan("2")?
        .with_miner(miner)
        .with_pieces(43)
        .with_limit(1_100);
    let gate = FirstLast::after(13);
    let found = found_by_two(rt, alloc, FOUR_TENS, &plan, Watch::FirstLast(&gate))?;
    Ok((found, gate.passed.load(Ordering::SeqCst), gate.is_late()))
}

/// While one worker is paused at the first piece, of one set, the other has 1,025 in twelve pieces
/// and 512 in the next. Before it has reported these, the first may go on to one more piece, of
/// 256.
#[test]
fn a_worker_stops_at_what_the_other_found(rt: HostRuntime) -> Result<(), Fail> {
    for (name, miner) in [("eclat", Miner::Eclat), ("fpgrowth", Miner::FpGrowth)] {
        let found = found_after_thirteen(&rt, rt.alloc(), miner)?;
        assert!(rt;
            matches!(found, (None, passed, false) if passed <= 14),
            "{name}: {found:?}"
        );
    }
    Ok(())
}

/// Pauses one worker at its first piece of each phase.
#[derive(Drop)]
pub struct Held {
    worker: u32,
    /// The last phase that the worker came to.
    phase: AtomicU64,
}

impl Held {
    pub fn pass(&self, phase: u32, worker: u32) {
        if worker == self.worker && self.phase.swap(phase.into(), Ordering::SeqCst) < phase.into() {
            for _ in 0..1_000_000 {
                self.phase.load(Ordering::SeqCst);
            }
        }
    }
}

#[test]
fn a_limit_is_the_same_while_a_worker_is_held(rt: HostRuntime) -> Result<(), Fail> {
    for worker in 0..2 {
        for pieces in [1, 2, 16] {
            let plan = plan("2")?.with_miner(Miner::Eclat).with_pieces(pieces);
            for (limit, want) in [(13, Some(13)), (12, None)] {
                let gate = Held {
                    worker,
                    phase: AtomicU64::new(0),
                };
                let plan = plan.with_limit(limit);
                let found = found_by_two(&rt, rt.alloc(), NINE_BASKETS, &plan, Watch::Held(&gate))?;
                assert_eq!(rt; found, want, "{worker} held, {pieces} pieces");
            }
        }
    }
    Ok(())
}
