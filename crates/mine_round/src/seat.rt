//! A seat of a round, which one thread holds at a time.
ghost use Rattle.std.specs.Prelude.{◌≡◌, ◌+◌, ◌<◌, ◌≤◌, [], All, vec_len, vec_capacity};
ghost use Rattle.mine_round.specs.declared.state.SeatState.TheVariants.{Holding};
ghost use Rattle.mine_round.specs.Record.{unused};
ghost use Rattle.mine_round.specs.Words.{record_in, HoldsRecord};
ghost use Rattle.mine_round.specs.Totals.{Gathers};

use crate::words::{TableSeat, Words, cut_seat, join_seat};
use std::fmt;
use std::fmt::{Debug, Formatter};
use std::marker::Model;

/// A seat of a round. It remembers once there was no piece left for it.
#[derive(Drop)]
pub struct RoundSeat {
    pub(crate) past: bool,
    pub(crate) table_seat: TableSeat,
}

impl Model for RoundSeat {
    ghost use Rattle.mine_round.specs.SeatView.{SeatView};

    ghost Value = { SeatView };

    ghost use Rattle.mine_round.specs.Seat.{seat_view, IsSoundSeat};

    ghost view = { seat_view };

    ghost invariant = { IsSoundSeat };
}

impl Debug for RoundSeat {
    fn fmt<W: fmt::Write>(&self, f: &mut Formatter<W>) -> fmt::Result {
        f.debug_struct("RoundSeat")
            .field("past", &self.past)
            .finish()
    }
}

impl RoundSeat {
    fn into_table_seat(self) -> TableSeat
        ensures own { result.table_id ≡ self.round }
        ensures holds { HoldsRecord result }
        ensures held { record_in result.me.0 ≡ self.held }
        ensures alone { self.held.parts ≡ 1 }
    {
        let RoundSeat {
            past: _,
            table_seat,
        } = self;
        table_seat
    }
}

/// Cuts this many seats from the one that represents them all.
pub(crate) fn cut_seats(
    words: &Words,
    mut table_seat: TableSeat,
    count: u32,
    mut seats: Vec<RoundSeat>,
) -> Vec<RoundSeat>
    requires own { table_seat.table_id ≡ words.now.shared.table_id }
    requires sized { 0 < words.now.shared.table_id.words }
    requires unused { table_seat.me ≡ (Holding (unused count words.now.shared.key.counters), []) }
    requires some { 1 ≤ count }
    requires room { (seats.items ≡ []) × (count ≤ vec_capacity seats) }
    ensures count { vec_len result ≡ count }
    ensures unused { All (λ seat. (seat.round ≡ words.now.shared.table_id) × (seat.held ≡ unused 1 words.now.shared.key.counters)) result.items }
{
    for _ in 1..count {
        let cut = cut_seat(words, &mut table_seat);
        seats.push_reserved(RoundSeat {
            past: false,
            table_seat: cut,
        });
    }
    seats.push_reserved(RoundSeat {
        past: false,
        table_seat,
    });
    seats
}

/// Joins the seats, from the last to the first.
pub(crate) fn join_seats(words: &Words, mut seats: Vec<RoundSeat>) -> TableSeat
    requires own { All (λ s. s.round ≡ words.now.shared.table_id) seats.items }
    requires sized { 0 < words.now.shared.table_id.words }
    requires some { 0 < vec_len seats }
    ensures own { result.table_id ≡ words.now.shared.table_id }
    ensures holds { HoldsRecord result }
    ensures all { Gathers (record_in result.me.0) [] seats.items }
{
    let Some(last) = seats.pop() else {
        unreachable!()
    };
    let mut table_seat = last.into_table_seat();
    while let Some(seat) = seats.pop() {
        join_seat(words, &mut table_seat, seat.into_table_seat());
    }
    table_seat
}
