//! A round: pieces of work that seats claim, and counters that they add to.
ghost use Rattle.std.specs.Prelude.{◌≡◌, ℕ, ◌+◌, ◌^◌, ◌<◌, ◌≤◌, ◌↔◌, All, Any, EachIndex, IsPermutation, slice_index, vec_len, IfSome, IfNone, IfOk, IfErr, IsErr};
ghost use Rattle.std.specs.List.{range_with_len};
ghost use Rattle.mine_round.specs.Record.{unused, with_piece, with_end_seen, with_add, with_read};
ghost use Rattle.mine_round.specs.Totals.{claimed_by, added_by, seen_by};
ghost use Rattle.mine_round.specs.Words.{ClaimedBelow, KnowsNoMore};

use crate::seat::{RoundSeat, cut_seats, join_seats};
use crate::totals::{Outstanding, Totals};
use crate::words::{Terms, Words, add_amount, claim_number, open_words, read_number, settle};
use std::alloc::{AllocError, Global};
use std::fmt;
use std::fmt::{Debug, Formatter};
use std::marker::{Brand, Model};

/// Pieces of work, numbered from 0, and counters. Threads share it by a `&`, each with a seat of its own.
#[derive(Drop)]
pub struct Round {
    words: Words,
    terms: Terms,
    totals: Vec<u64>,
}

impl Model for Round {
    ghost use Rattle.mine_round.specs.RoundView.{RoundView};

    ghost Value = { RoundView };

    ghost use Rattle.mine_round.specs.Round.{round_view, IsSoundRound};

    ghost view = { round_view };

    ghost invariant = { IsSoundRound };
}

impl Debug for Round {
    fn fmt<W: fmt::Write>(&self, f: &mut Formatter<W>) -> fmt::Result {
        f.debug_struct("Round")
            .field("pieces", &self.terms.pieces)
            .field("counters", &self.terms.counters)
            .field("seats", &self.terms.seats)
            .finish()
    }
}

impl Round {
    /// A round with its seats, each of which was made with it. It is refused only if memory runs
    /// out.
    pub fn new(
        alloc: Global,
        pieces: u32,
        counters: usize,
        seats: u32,
    ) -> Result<(Round, Vec<RoundSeat>), AllocError>
        requires pieces { pieces ≤ 65536 }
        requires seats { (1 ≤ seats) × (seats ≤ 64) }
        ensures round { IfOk result (λ made. (made.0.pieces ≡ pieces) × (made.0.counters ≡ counters) × (made.0.seats ≡ seats)) }
        ensures seats { IfOk result (λ made. vec_len made.1 ≡ seats) }
        ensures unused { IfOk result (λ made. All (λ seat. (seat.round ≡ made.0.id) × (seat.held ≡ unused 1 counters)) made.1.items) }
    {
        let count = counters.checked_add(1).ok_or(AllocError)?;
        let mut totals = vec![in alloc; 0; count]?;
        let room = Vec::with_capacity(alloc, seats as usize)?;
        let terms = Terms {
            pieces,
            counters,
            seats,
        };
        let (words, table_seat) = open_words(alloc, totals.as_slice(), &terms)?;
        totals.truncate(counters);
        let seats = cut_seats(&words, table_seat, seats, room);
        let round = Round {
            words,
            terms,
            totals,
        };
        Ok((round, seats))
    }

    /// A piece that no other call on this round gets, or `None` if each piece was claimed. A seat's
    /// pieces rise, so after as many as there are pieces it gets `None`, and from then on only
    /// that.
    pub fn claim(&self, seat: &mut RoundSeat) -> Option<u32>
        requires own { seat.old.round ≡ self.now.id }
        ensures own { seat.new.round ≡ seat.old.round }
        ensures piece { IfSome result (λ piece. (piece < self.now.pieces) × (seat.new.held ≡ with_piece seat.old.held piece)) }
        ensures rises { IfSome result (λ piece. ClaimedBelow seat.old.held piece) }
        ensures open { IfSome result (λ _. seat.old.held.past ≡ 0) }
        ensures none { IfNone result (seat.new.held ≡ with_end_seen seat.old.held) }
    {
        if seat.past {
            return None;
        }
        let number = claim_number::<Brand>(&self.words, &mut seat.table_seat);
        if number < u64::from(self.terms.pieces) {
            Some(number as u32)
        } else {
            seat.past = true;
            None
        }
    }

    /// Adds to a counter, and returns what it was.
    pub fn add(&self, seat: &mut RoundSeat, counter: usize, amount: u64) -> u64
        requires own { seat.old.round ≡ self.now.id }
        requires counter { counter < self.now.counters }
        requires room { slice_index seat.old.held.added counter + amount ≤ 2 ^ 40 }
        ensures own { seat.new.round ≡ seat.old.round }
        ensures add { seat.new.held ≡ with_add seat.old.held counter result amount }
        ensures known { KnowsNoMore seat.old.held counter result }
    {
        add_amount(&self.words, &mut seat.table_seat, counter, amount)
    }

    /// Returns what a counter is.
    pub fn read(&self, seat: &mut RoundSeat, counter: usize) -> u64
        requires own { seat.old.round ≡ self.now.id }
        requires counter { counter < self.now.counters }
        ensures own { seat.new.round ≡ seat.old.round }
        ensures read { seat.new.held ≡ with_read seat.old.held counter result }
        ensures known { KnowsNoMore seat.old.held counter result }
    {
        read_number(&self.words, &mut seat.table_seat, counter)
    }

    /// Ends the round, given all its seats. It is refused only if a seat is missing.
    pub fn close(self, seats: Vec<RoundSeat>) -> Result<Totals, Outstanding>
        requires own { All (λ seat. seat.round ≡ self.id) seats.items }

        // It is refused if a seat is missing, and then all comes back as it was.
        ensures refused { IsErr result ↔ (vec_len seats < self.seats) }
        ensures missing { IfErr result (λ back. vec_len seats + back.missing ≡ self.seats) }
        ensures returned { IfErr result (λ back. (back.round ≡ self) × (back.seats.items ≡ seats.items)) }

        // The seats claimed the pieces below `claimed`, each once. These are all pieces if a seat
        // got `None`.
        ensures claimed { IfOk result (λ totals. IsPermutation (claimed_by seats.items) (range_with_len 0 totals.claimed)) }
        ensures within { IfOk result (λ totals. totals.claimed ≤ self.pieces) }
        ensures ended { IfOk result (λ totals. Any (λ seat. 0 < seat.held.past) seats.items → totals.claimed ≡ self.pieces) }

        // Each counter is the sum of what the seats added, and no seat has seen more in it.
        ensures counters { IfOk result (λ totals. vec_len totals.counters ≡ self.counters) }
        ensures sums { IfOk result (λ totals. EachIndex totals.counters.items (λ c. slice_index totals.counters.items c ≡ added_by seats.items c)) }
        ensures greatest { IfOk result (λ totals. EachIndex totals.counters.items (λ c. slice_index totals.counters.items c ≡ seen_by seats.items c)) }
    {
        let given = seats.len();
        if given < self.terms.seats as usize {
            let missing = self.terms.seats - given as u32;
            return Err(Outstanding {
                round: self,
                seats,
                missing,
            });
        }
        let Round {
            words,
            terms,
            mut totals,
        } = self;
        let table_seat = join_seats(&words, seats);
        let number = settle(words, table_seat, totals.as_mut_slice());
        Ok(Totals {
            claimed: number.min(u64::from(terms.pieces)) as u32,
            counters: totals,
        })
    }
}
