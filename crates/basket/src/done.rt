//! What a run comes to beside its report.
ghost use Rattle.std.specs.Prelude.{◌≡◌, None, Some};

use basket_mining::Work;

/// What a run comes to beside its report.
#[derive(Clone, Copy, Debug)]
pub struct Done {
    /// How much the plan's miner did, if anything was mined: items are only counted, and counted
    /// sets are known.
    pub work: Option<Work>,
    /// The greatest support of an item, or 0 if there is none, unless the input was counted sets.
    pub greatest: Option<u64>,
}

impl Done {
    /// After items were counted.
    pub fn of_items(greatest: u64) -> Self
        ensures { result ≡ record { work = None; greatest = Some greatest } }
    {
        Done {
            work: None,
            greatest: Some(greatest),
        }
    }

    /// After counts of sets were read or made.
    pub fn of_counted_sets() -> Self
        ensures { result ≡ record { work = None; greatest = None } }
    {
        Done {
            work: None,
            greatest: None,
        }
    }
}
