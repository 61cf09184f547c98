//! What an input says of its items.
ghost use Rattle.std.specs.Prelude.{◌≡◌};

use basket_sets::{Database, ItemTable};

/// The supports of the items in the first baskets of an input, and the other baskets.
#[derive(Debug, Drop)]
pub struct ItemCounts {
    pub table: ItemTable,
    pub rest: Database,
}

impl ItemCounts {
    /// The baskets that are not in the table.
    pub(crate) fn into_rest(self) -> Database
        ensures { result ≡ self.rest }
    {
        let ItemCounts { rest, .. } = self;
        rest
    }
}
