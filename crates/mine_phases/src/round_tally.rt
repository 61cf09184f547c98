//! The sets that the workers of a round have found together.
ghost use Rattle.std.specs.Prelude.{◌≡◌, ◌≤◌, ◌<◌, ◌+◌, ◌^◌, IsTrue, nat_lt, slice_index};
ghost use Rattle.mine_phases.specs.RoundTally.{CountsSets, no_seat, still};
ghost use Rattle.mine_round.specs.SeatView.{SeatView};

use mine_limit::Tally;
use mine_round::{Round, RoundSeat};
use std::marker::{Brand, Model, PhantomData};

/// This many sets are added to the counter at once: each addition takes it from the other workers.
const PORTION: u64 = 1_024;

/// The seat of a worker as it was when a tally began with it. It is chosen when a tally is made,
/// and only the proofs see it: what a miner is asked for says nothing of seats.
pub trait Start {
    ghost start: { SeatView };
}

impl Start for Brand {
    ghost start = { no_seat };
}

/// A worker's tally. It counts the sets of all workers in the one counter of a round, to which it
/// adds its own in portions, and is over once the number that its worker last saw there is above
/// the limit.
#[derive(Drop)]
pub struct RoundTally<'a, S: Start> {
    round: &'a Round,
    seat: RoundSeat,
    limit: u32,
    told: u64,
    /// How many of the sets that were reported are not added yet.
    waiting: u64,
    over: bool,
    of: PhantomData<S>,
}

impl<'a, S: Start> Model for RoundTally<'a, S> {
    ghost use Rattle.mine_phases.specs.RoundTally.{TallyView, IsRoundTally};

    ghost Value = { TallyView };

    ghost view = { λ f. record { round = f.round.now; seat = f.seat; limit = f.limit; told = f.told; waiting = f.waiting; over = f.over } };

    ghost invariant = { λ f. IsRoundTally S.start (record { round = f.round.now; seat = f.seat; limit = f.limit; told = f.told; waiting = f.waiting; over = f.over }) };
}

impl<'a, S: Start> RoundTally<'a, S> {
    ghost use Rattle.std.specs.Prelude.{false, not};
    ghost use Rattle.mine_phases.specs.RoundTally.{IsRoundTally};

    /// The tally of a worker that has seen no more sets than the limit.
    pub fn new(round: &'a Round, seat: RoundSeat, limit: u32) -> Self
        requires start { seat ≡ S.start }
        requires counts { CountsSets round.now seat }
        requires few { slice_index seat.held.seen 0 ≤ limit }
        ensures { result ≡ record { round = round.now; seat = seat; limit = limit; told = 0; waiting = 0; over = false } }
    {
        RoundTally {
            round,
            seat,
            limit,
            told: 0,
            waiting: 0,
            over: false,
            of: PhantomData,
        }
    }

    /// The seat, which has added all that was reported.
    pub fn into_seat(self) -> RoundSeat
        ensures counts { CountsSets self.entry.round result }
        ensures same { still result ≡ still S.start }
        ensures told { slice_index result.held.added 0 ≡ slice_index S.start.held.added 0 + self.entry.told }
        ensures over { IsTrue self.entry.over → self.entry.limit < slice_index result.held.seen 0 }
    {
        let mut seat = self.seat;
        if !self.over {
            add_sets(self.round, &mut seat, self.waiting, self.limit);
        }
        seat
    }

    /// Looks at what all workers have found, and returns whether there may be more.
    pub fn look(&mut self) -> bool
        requires { self.old.over ≡ false }
        ensures limit { self.new.limit ≡ self.old.limit }
        ensures told { self.new.told ≡ self.old.told }
        ensures over { result ≡ not self.new.over }
    {
        if are_over(self.round, &mut self.seat, self.limit) {
            self.over = add_sets(self.round, &mut self.seat, self.waiting, self.limit);
            self.waiting = 0;
        }
        !self.over
    }
}

impl<'a, S: Start> Tally for RoundTally<'a, S> {
    ghost limit_of = { λ f. f.limit };

    ghost told_of = { λ f. f.told };

    ghost is_over = { λ f. f.over };

    fn limit(&self) -> u32 {
        self.limit
    }

    fn told(&self) -> u64 {
        self.told
    }

    fn over(&self) -> bool {
        self.over
    }

    fn tell(&mut self) -> bool {
        self.told += 1;
        self.waiting += 1;
        if self.waiting == PORTION {
            self.over = add_sets(self.round, &mut self.seat, self.waiting, self.limit);
            self.waiting = 0;
        }
        !self.over
    }
}

/// Whether the workers have found more sets than the limit.
pub fn are_over(round: &Round, seat: &mut RoundSeat, limit: u32) -> bool
    requires counts { CountsSets round.now seat.old }
    ensures counts { CountsSets round.now seat.new }
    ensures same { still seat.new ≡ still seat.old }
    ensures added { seat.new.held.added ≡ seat.old.held.added }
    ensures over { result ≡ nat_lt limit (slice_index seat.new.held.seen 0) }
{
    round.read(seat, 0) > u64::from(limit)
}

/// Adds sets to the counter, and returns whether there are then more than the limit.
fn add_sets(round: &Round, seat: &mut RoundSeat, sets: u64, limit: u32) -> bool
    requires counts { CountsSets round.now seat.old }
    requires few { slice_index seat.old.held.added 0 + sets ≤ 2 ^ 40 }
    ensures counts { CountsSets round.now seat.new }
    ensures same { still seat.new ≡ still seat.old }
    ensures added { slice_index seat.new.held.added 0 ≡ slice_index seat.old.held.added 0 + sets }
    ensures over { result ≡ nat_lt limit (slice_index seat.new.held.seen 0) }
{
    let found = round.add(seat, 0, sets);
    found.saturating_add(sets) > u64::from(limit)
}
