ghost use Rattle.std.specs.Prelude.{◌≡◌, ◌≤◌, IsTrue, false};
ghost use Rattle.basket_plan.specs.Plan.{GREATEST_LIMIT, is_separator};
ghost use Rattle.basket_plan.specs.declared.plan.TheConstants.{MOST_PIECES, MOST_WORKERS};
ghost use Rattle.basket_sets.specs.Minimum.{IsMinimum};

use crate::layout::{Form, Layout};
use basket_sets::{Minimum, Share};
use std::marker::Model;

/// The greatest number of workers.
pub const MOST_WORKERS: u32 = 64;

/// The greatest number of pieces.
pub const MOST_PIECES: u32 = 65_536;

/// What a report lists.
#[derive(Clone, Copy, Debug, PartialEq, Eq)]
pub enum Ask {
    /// The frequent items.
    Items,
    /// The frequent sets.
    Sets,
    /// Those of them of which no proper superset has the same support.
    Closed,
    /// Those of them of which no proper superset is frequent.
    Maximal,
    /// The association rules of at least this confidence.
    Rules(Share),
}

/// How the frequent sets are found. No report depends on it.
#[derive(Clone, Copy, Debug, PartialEq, Eq)]
pub enum Miner {
    /// Level by level (Agrawal and Srikant 1994).
    Apriori,
    /// Class by class, over covers (Zaki 2000).
    Eclat,
    /// Class by class, over difference lists (Zaki and Gouda 2003).
    EclatDiff,
    /// Class by class, over bit rows.
    EclatBits,
    /// Class by class, within conditional databases (Han, Pei and Yin 2000).
    FpGrowth,
}

/// What is asked of an input, with every number in its range, and how it is to be found.
#[derive(Clone, Copy, Debug, PartialEq, Eq)]
pub struct Plan {
    limit: u32,
    workers: u32,
    pieces: u32,
    ask: Ask,
    minimum: Minimum,
    layout: Layout,
    miner: Miner,
}

impl Model for Plan {
    ghost use Rattle.std.specs.Prelude.{◌≤◌, IsTrue};
    ghost use Rattle.basket_plan.specs.Plan.{Planned, is_separator};
    ghost use Rattle.basket_plan.specs.declared.plan.TheConstants.{MOST_PIECES, MOST_WORKERS};
    ghost use Rattle.basket_sets.specs.Minimum.{IsMinimum};

    ghost Value = { Planned };

    ghost view = { λ plan. record {
      question = record { ask = plan.ask; minimum = plan.minimum; limit = plan.limit; layout = plan.layout };
      miner = plan.miner;
      workers = plan.workers;
      pieces = plan.pieces;
    } };

    ghost invariant = { λ plan. IsMinimum plan.minimum × (1 ≤ plan.limit) × IsTrue (is_separator plan.layout.separator)
        × (1 ≤ plan.workers) × (plan.workers ≤ MOST_WORKERS) × (1 ≤ plan.pieces) × (plan.pieces ≤ MOST_PIECES) };

    ghost inverse = { λ plan. let q = plan.question in record {
      ask = q.ask;
      minimum = q.minimum;
      limit = q.limit;
      layout = q.layout;
      miner = plan.miner;
      workers = plan.workers;
      pieces = plan.pieces;
    } };
}

impl Plan {
    /// A plan with the defaults of the command line: FIMI, and for CSV commas, no header and no
    /// weights; the greatest limit; Apriori, by one worker over 16 pieces.
    pub fn of(ask: Ask, minimum: Minimum) -> Self
        requires { IsMinimum minimum }
        ensures { result ≡ record {
          question = record { ask = ask; minimum = minimum; limit = GREATEST_LIMIT; layout = record { form = Form.Fimi; separator = 44; header = false; weighted = false } };
          miner = Miner.Apriori;
          workers = 1;
          pieces = 16;
        } }
    {
        Plan {
            ask,
            minimum,
            limit: u32::MAX,
            workers: 1,
            pieces: 16,
            layout: Layout::of(Form::Fimi),
            miner: Miner::Apriori,
        }
    }

    pub fn ask(&self) -> Ask
        ensures { result ≡ self.now.question.ask }
    {
        self.ask
    }

    pub fn minimum(&self) -> Minimum
        ensures { result ≡ self.now.question.minimum }
    {
        self.minimum
    }

    /// How many frequent sets there may be. It has no effect if items are asked for.
    pub fn limit(&self) -> u32
        ensures { result ≡ self.now.question.limit }
    {
        self.limit
    }

    /// The plan with another limit.
    pub fn with_limit(self, limit: u32) -> Self
        requires { 1 ≤ limit }
        ensures { result ≡ record self { question = record self.question { limit = limit } } }
    {
        Plan { limit, ..self }
    }

    /// How the input is written.
    pub fn layout(&self) -> Layout
        ensures { result ≡ self.now.question.layout }
    {
        self.layout
    }

    /// The plan with another layout of the input.
    pub fn with_layout(self, layout: Layout) -> Self
        requires { IsTrue (is_separator layout.separator) }
        ensures { result ≡ record self { question = record self.question { layout = layout } } }
    {
        Plan { layout, ..self }
    }

    pub fn miner(&self) -> Miner
        ensures { result ≡ self.now.miner }
    {
        self.miner
    }

    /// The plan with another miner.
    pub fn with_miner(self, miner: Miner) -> Self
        ensures { result ≡ record self { miner = miner } }
    {
        Plan { miner, ..self }
    }

    /// How many threads share the mining. No report depends on it.
    pub fn workers(&self) -> u32
        ensures value { result ≡ self.now.workers }
        ensures within { (1 ≤ result) × (result ≤ MOST_WORKERS) }
    {
        self.workers
    }

    /// The plan with another number of workers.
    pub fn with_workers(self, workers: u32) -> Self
        requires { (1 ≤ workers) × (workers ≤ MOST_WORKERS) }
        ensures { result ≡ record self { workers = workers } }
    {
        Plan { workers, ..self }
    }

    /// Into how many pieces each phase of the mining is cut at most. No report depends on it.
    pub fn pieces(&self) -> u32
        ensures value { result ≡ self.now.pieces }
        ensures within { (1 ≤ result) × (result ≤ MOST_PIECES) }
    {
        self.pieces
    }

    /// The plan with another number of pieces.
    pub fn with_pieces(self, pieces: u32) -> Self
        requires { (1 ≤ pieces) × (pieces ≤ MOST_PIECES) }
        ensures { result ≡ record self { pieces = pieces } }
    {
        Plan { pieces, ..self }
    }
}
