//! What holds of each run of the round machine, and some runs worked out.
ghost use Rattle.std.specs.Prelude.{◌≡◌, ◌≢◌, ℕ, ◌≤◌, List, [], ◌∷◌, Contains, Some, None};
ghost use Rattle.mine_round.specs.declared.state.Record.{Record};
ghost use Rattle.mine_round.specs.declared.state.SeatState.TheVariants.{Spent, Holding};
ghost use Rattle.mine_round.specs.Machine.{Machine, Event, split, claim, add, read, join, Fits, after, run, answers, opening, record_at};
ghost use Rattle.mine_round.specs.Lawful.{IsOfRound, Lawful};

/// Each run of the machine stays lawful, and an event that does not fit changes nothing.
pub fn rounds_stay_lawful()
    ensures lawful { (pieces counters seats : ℕ) (events : List Event) → 1 ≤ seats → Lawful (run (opening pieces counters seats) events) }
    ensures unfit { (m : Machine) (event : Event) → ¬ Fits m event → after m event ≡ m }
{}

/// The records of all seats determine the words: lawful states of one round with the same seats are
/// the same.
#[tactic(auto, using(std::proofs::lemmas::Grind::common_steps, crate::proofs::Runs::same_words))]
pub fn records_tell_the_words()
    ensures { (m n : Machine) → Lawful m → Lawful n → IsOfRound m n → n.seats ≡ m.seats → n ≡ m }
{}

/// Each step on a round's words is an event: a lawful state whose seats are those after an event is the
/// state after it. The rule of the words has them lawful after each step, and the contract of a step says
/// what the seat's record becomes, which is what the event makes of it.
#[tactic(auto, using(std::proofs::lemmas::Grind::common_steps, crate::proofs::Runs::same_after))]
pub fn steps_are_events()
    ensures { (m n : Machine) (event : Event) → Lawful m → Lawful n → IsOfRound m n → n.seats ≡ (after m event).seats → n ≡ after m event }
{}

/// In a lawful state no piece went to two seats.
pub fn pieces_go_to_one_seat()
    ensures { (m : Machine) (i j : ℕ) (r other : Record) (piece : ℕ) → Lawful m → i ≢ j → record_at m.seats i ≡ Some r → record_at m.seats j ≡ Some other → Contains r.claimed piece → ¬ Contains other.claimed piece }
{}

/// Two seats share three pieces. Seat 1 got `None`, so its last claim changes nothing.
pub fn three_pieces_are_claimed()
    ensures answers { answers (opening 3 0 2) (split 0 ∷ claim 1 ∷ claim 0 ∷ claim 1 ∷ claim 1 ∷ claim 1 ∷ []) ≡ None ∷ Some 0 ∷ Some 1 ∷ Some 2 ∷ None ∷ None ∷ [] }
    ensures last { run (opening 3 0 2) (split 0 ∷ claim 1 ∷ claim 0 ∷ claim 1 ∷ claim 1 ∷ claim 1 ∷ []) ≡ record {
      pieces = 3;
      parts = 2;
      next = 4;
      counters = [];
      seats = Holding (record { parts = 1; claimed = 1 ∷ []; past = 0; added = []; seen = [] })
          ∷ Holding (record { parts = 1; claimed = 0 ∷ 2 ∷ []; past = 1; added = []; seen = [] }) ∷ [];
    } }
{}

/// Two seats add to a counter and read it, and one joins the other.
pub fn two_seats_add_and_join()
    ensures answers { answers (opening 0 1 2) (split 0 ∷ add 0 0 5 ∷ read 1 0 ∷ add 1 0 7 ∷ read 0 0 ∷ []) ≡ None ∷ Some 0 ∷ Some 5 ∷ Some 5 ∷ Some 12 ∷ [] }
    ensures last { run (opening 0 1 2) (split 0 ∷ add 0 0 5 ∷ read 1 0 ∷ add 1 0 7 ∷ join 0 1 ∷ []) ≡ record {
      pieces = 0;
      parts = 2;
      next = 0;
      counters = 12 ∷ [];
      seats = Holding (record { parts = 2; claimed = []; past = 0; added = 12 ∷ []; seen = 12 ∷ [] }) ∷ Spent ∷ [];
    } }
{}

/// A split of a lone seat, a claim of a seat that is not there, an add to a counter that is not there and a join of a
/// seat with itself change nothing.
pub fn unfit_events_change_nothing()
    ensures { run (opening 1 1 1) (split 0 ∷ claim 1 ∷ add 0 1 5 ∷ join 0 0 ∷ []) ≡ opening 1 1 1 }
{}
