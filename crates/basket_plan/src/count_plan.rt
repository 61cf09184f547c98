ghost use Rattle.std.specs.Prelude.{◌≡◌, ◌≤◌, IsTrue};
ghost use Rattle.basket_plan.specs.Plan.{is_separator};
ghost use Rattle.basket_plan.specs.declared.plan.TheConstants.{MOST_PIECES, MOST_WORKERS};

use crate::layout::Layout;
use crate::plan::{MOST_PIECES, MOST_WORKERS};
use std::marker::Model;

/// How given sets are to be counted over an input, with every number in its range.
#[derive(Clone, Copy, Debug, PartialEq, Eq)]
pub struct CountPlan {
    layout: Layout,
    workers: u32,
    pieces: u32,
}

impl Model for CountPlan {
    ghost use Rattle.std.specs.Prelude.{◌≤◌, IsTrue};
    ghost use Rattle.basket_plan.specs.Plan.{Counting, is_separator};
    ghost use Rattle.basket_plan.specs.declared.plan.TheConstants.{MOST_PIECES, MOST_WORKERS};

    ghost Value = { Counting };

    ghost view = { λ plan. record { layout = plan.layout; workers = plan.workers; pieces = plan.pieces } };

    ghost invariant = { λ plan. IsTrue (is_separator plan.layout.separator)
        × (1 ≤ plan.workers) × (plan.workers ≤ MOST_WORKERS) × (1 ≤ plan.pieces) × (plan.pieces ≤ MOST_PIECES) };

    ghost inverse = { λ plan. record { layout = plan.layout; workers = plan.workers; pieces = plan.pieces } };
}

impl CountPlan {
    /// A plan with the defaults of the command line: one worker over 16 pieces.
    pub fn of(layout: Layout) -> Self
        requires { IsTrue (is_separator layout.separator) }
        ensures { result ≡ record { layout = layout; workers = 1; pieces = 16 } }
    {
        CountPlan {
            layout,
            workers: 1,
            pieces: 16,
        }
    }

    /// How the input is written. The sets are written in numbers if it is, else in CSV.
    pub fn layout(&self) -> Layout
        ensures { result ≡ self.now.layout }
    {
        self.layout
    }

    /// How many threads share the counting. No report depends on it.
    pub fn workers(&self) -> u32
        ensures value { result ≡ self.now.workers }
        ensures within { (1 ≤ result) × (result ≤ MOST_WORKERS) }
    {
        self.workers
    }

    /// The plan with another number of workers.
    pub fn with_workers(self, workers: u32) -> Self
        requires { (1 ≤ workers) × (workers ≤ MOST_WORKERS) }
        ensures { result ≡ record self { workers = workers } }
    {
        CountPlan { workers, ..self }
    }

    /// Into how many pieces the counting of each size is cut at most. No report depends on it.
    pub fn pieces(&self) -> u32
        ensures value { result ≡ self.now.pieces }
        ensures within { (1 ≤ result) × (result ≤ MOST_PIECES) }
    {
        self.pieces
    }

    /// The plan with another number of pieces.
    pub fn with_pieces(self, pieces: u32) -> Self
        requires { (1 ≤ pieces) × (pieces ≤ MOST_PIECES) }
        ensures { result ≡ record self { pieces = pieces } }
    {
        CountPlan { pieces, ..self }
    }
}
