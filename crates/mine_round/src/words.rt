//! The words of a round, the rule that they keep, and the steps on them.
ghost use Rattle.std.specs.Prelude.{◌≡◌, ℕ, ◌+◌, ◌-◌, ◌^◌, ◌<◌, ◌≤◌, [], length, slice_index, replicate, IfOk};
ghost use Rattle.mine_round.specs.declared.state.SeatState.TheVariants.{Spent, Holding};
ghost use Rattle.mine_round.specs.Record.{unused, with_one_part_less, with_claim, with_add, with_read, joined};
ghost use Rattle.mine_round.specs.Totals.{Settles};
ghost use Rattle.mine_round.specs.Words.{Keeps, record_in, HoldsRecord, KnowsNoMore, ClaimedBelow, TellsClaim, TellsAdd, TellsRead};

use crate::state::SeatState;
use atomic_table::{Join, Play, Seat, Split, Table, TableRule};
use std::alloc::{AllocError, Global};
use std::marker::{Brand, PhantomData};

/// What a round was made for.
#[derive(Clone, Copy)]
pub struct Terms {
    pub pieces: u32,
    pub counters: usize,
    pub seats: u32,
}

/// The rule: the words and the seats show a lawful state.
pub struct RoundRule;

impl TableRule<(), SeatState, Terms> for RoundRule {
    ghost holds = { λ terms s. Keeps terms s.words s.views };

    ghost first = { λ terms. Holding (unused terms.seats terms.counters) };
}

/// The piece word, and after it the counters.
pub type Words = Table<(), SeatState, Terms, RoundRule, Global>;

/// A seat as the words know it.
pub type TableSeat = Seat<(), SeatState>;

/// The number of pieces of a round. The result of a step can't depend on the terms, so each claim
/// picks the number.
pub trait Pieces {
    ghost pieces: { ℕ };
}

impl Pieces for Brand {
    ghost pieces = { 0 };
}

struct Claim<B> {
    of: PhantomData<B>,
}

impl<B: Pieces> Play<(), SeatState> for Claim<B> {
    ghost then = { TellsClaim B.pieces };
}

struct Add;

impl Play<(), SeatState> for Add {
    ghost then = { TellsAdd };
}

struct Read;

impl Play<(), SeatState> for Read {
    ghost then = { TellsRead };
}

struct Cut;

impl Split<SeatState> for Cut {
    ghost left = { λ v. Holding (with_one_part_less (record_in v)) };

    ghost right = { λ v. Holding (unused 1 (length (record_in v).added)) };
}

struct Merge;

impl Join<SeatState> for Merge {
    ghost both = { λ v w. Holding (joined (record_in v) (record_in w)) };

    ghost spent = { Spent };
}

/// Makes the words, and the seat that all others are cut from.
#[tactic(auto, using(std::proofs::lemmas::Grind::common_steps, crate::proofs::Rule::opens))]
pub fn open_words(
    alloc: Global,
    zeros: &[u64],
    terms: &Terms,
) -> Result<(Words, TableSeat), AllocError>
    requires zeros { zeros.now ≡ replicate (terms.now.counters + 1) 0 }
    requires pieces { terms.now.pieces ≤ 65536 }
    requires seats { (1 ≤ terms.now.seats) × (terms.now.seats ≤ 64) }
    ensures key { IfOk result (λ w. w.0.shared.key ≡ terms.now) }
    ensures sized { IfOk result (λ w. (w.0.shared.table_id.words ≡ terms.now.counters + 1) × (w.0.shared.table_id.slots ≡ 0)) }
    ensures own { IfOk result (λ w. w.1.table_id ≡ w.0.shared.table_id) }
    ensures unused { IfOk result (λ w. w.1.me ≡ (Holding (unused terms.now.seats terms.now.counters), [])) }
{
    Table::of_words(alloc, zeros, terms)
}

/// Counts the piece word up, and returns what it was.
pub fn claim_number<B: Pieces>(words: &Words, table_seat: &mut TableSeat) -> u64
    requires own { table_seat.old.table_id ≡ words.now.shared.table_id }
    requires sized { 0 < words.now.shared.table_id.words }
    requires pieces { B.pieces ≡ words.now.shared.key.pieces }
    requires holds { HoldsRecord table_seat.old }
    requires open { (record_in table_seat.old.me.0).past ≡ 0 }
    ensures own { table_seat.new.table_id ≡ table_seat.old.table_id }
    ensures claim { table_seat.new.me ≡ (Holding (with_claim (record_in table_seat.old.me.0) words.now.shared.key.pieces result), []) }
    ensures rises { ClaimedBelow (record_in table_seat.old.me.0) result }
{
    words.shared.fetch_add::<Claim<B>>(table_seat, 0, 1)
}

/// Adds to a counter, and returns what it was.
pub fn add_amount(words: &Words, table_seat: &mut TableSeat, counter: usize, amount: u64) -> u64
    requires own { table_seat.old.table_id ≡ words.now.shared.table_id }
    requires sized { (words.now.shared.table_id.words ≡ words.now.shared.key.counters + 1) × (words.now.shared.key.counters + 1 < 2 ^ 64) }
    requires holds { HoldsRecord table_seat.old }
    requires counter { counter < words.now.shared.key.counters }
    requires room { slice_index (record_in table_seat.old.me.0).added counter + amount ≤ 2 ^ 40 }
    ensures own { table_seat.new.table_id ≡ table_seat.old.table_id }
    ensures add { table_seat.new.me ≡ (Holding (with_add (record_in table_seat.old.me.0) counter result amount), []) }
    ensures known { KnowsNoMore (record_in table_seat.old.me.0) counter result }
{
    words
        .shared
        .fetch_add::<Add>(table_seat, counter + 1, amount)
}

/// Returns what a counter is.
pub fn read_number(words: &Words, table_seat: &mut TableSeat, counter: usize) -> u64
    requires own { table_seat.old.table_id ≡ words.now.shared.table_id }
    requires sized { (words.now.shared.table_id.words ≡ words.now.shared.key.counters + 1) × (words.now.shared.key.counters + 1 < 2 ^ 64) }
    requires holds { HoldsRecord table_seat.old }
    requires counter { counter < words.now.shared.key.counters }
    ensures own { table_seat.new.table_id ≡ table_seat.old.table_id }
    ensures read { table_seat.new.me ≡ (Holding (with_read (record_in table_seat.old.me.0) counter result), []) }
    ensures known { KnowsNoMore (record_in table_seat.old.me.0) counter result }
{
    words.shared.load::<Read>(table_seat, counter + 1)
}

/// Cuts one seat from a seat that has done nothing.
#[tactic(auto, using(std::proofs::lemmas::Grind::common_steps, crate::proofs::Rule::splits))]
pub fn cut_seat(words: &Words, table_seat: &mut TableSeat) -> TableSeat
    requires own { table_seat.old.table_id ≡ words.now.shared.table_id }
    requires sized { 0 < words.now.shared.table_id.words }
    requires unused { table_seat.old.me ≡ (Holding (unused (record_in table_seat.old.me.0).parts words.now.shared.key.counters), []) }
    requires more { 1 < (record_in table_seat.old.me.0).parts }
    ensures own { (table_seat.new.table_id ≡ table_seat.old.table_id) × (result.table_id ≡ table_seat.old.table_id) }
    ensures left { table_seat.new.me ≡ (Holding (unused ((record_in table_seat.old.me.0).parts - 1) words.now.shared.key.counters), []) }
    ensures cut { result.me ≡ (Holding (unused 1 words.now.shared.key.counters), []) }
{
    words.shared.split_seat::<Cut>(table_seat)
}

/// Joins a seat to another, which then has what both did.
#[tactic(auto, using(std::proofs::lemmas::Grind::common_steps, crate::proofs::Rule::joins))]
pub fn join_seat(words: &Words, table_seat: &mut TableSeat, other: TableSeat)
    requires own { (table_seat.old.table_id ≡ words.now.shared.table_id) × (other.table_id ≡ words.now.shared.table_id) }
    requires sized { 0 < words.now.shared.table_id.words }
    requires holds { HoldsRecord table_seat.old × HoldsRecord other }
    ensures own { table_seat.new.table_id ≡ table_seat.old.table_id }
    ensures join { table_seat.new.me ≡ (Holding (joined (record_in table_seat.old.me.0) (record_in other.me.0)), []) }
{
    words.shared.join_seat::<Merge>(table_seat, other);
}

/// Ends the words by a seat that all others joined: writes what each counter is, and returns what
/// the piece word is.
pub fn settle(words: Words, table_seat: TableSeat, totals: &mut [u64]) -> u64
    requires own { table_seat.table_id ≡ words.shared.table_id }
    requires sized { (words.shared.table_id.words ≡ length totals.old + 1) × (words.shared.table_id.slots ≡ 0) }
    requires fits { length totals.old + 1 < 2 ^ 64 }
    requires holds { HoldsRecord table_seat }
    requires whole { words.shared.key.seats ≤ (record_in table_seat.me.0).parts }
    ensures { Settles words.shared.key (record_in table_seat.me.0) result totals.new }
{
    let closed = words.close_with(table_seat);
    for (counter, total) in totals.iter_mut().enumerate() {
        *total = closed.word(counter + 1);
    }
    let number = closed.word(0);
    closed.free();
    number
}
