//! How much a list of sets has, for code that makes room or a table.
ghost use Rattle.std.specs.Prelude.{◌≤◌, length};

use crate::counted_sets::CountedSets;

impl CountedSets {
    /// How many items the sets of a list in report order have together, or `usize::MAX` if they have
    /// more.
    pub fn item_count(&self) -> usize {
        let mut items = 0usize;
        let mut start = 0;
        while start < self.len() {
            let size = self.size(start);
            let next = self.start_of_size(size.saturating_add(1)).max(start + 1);
            items = items.saturating_add(size.saturating_mul(next - start));
            start = next;
        }
        items
    }

    /// Where the sets begin that have at least this many items, in a list in report order.
    pub fn start_of_size(&self, size: usize) -> usize
        ensures { result ≤ length self.now }
    {
        let mut start = 0;
        let mut end = self.len();
        while start < end {
            let middle = start + (end - start) / 2;
            if self.size(middle) < size {
                start = middle + 1;
            } else {
                end = middle;
            }
        }
        start
    }

    /// A number that no item is above.
    pub fn greatest_item(&self) -> u32 {
        self.known.greatest().max(self.plain.greatest_item())
    }
}
