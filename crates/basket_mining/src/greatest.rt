//! The greatest support of an item.
ghost use Rattle.std.specs.Prelude.{◌≡◌};
ghost use Rattle.basket_mining.specs.Greatest.{greatest_of};

/// The greatest of the counts of items, or 0 if there is none.
pub fn greatest_count(counts: &[(u32, u64)]) -> u64
    ensures { result ≡ greatest_of counts.now }
{
    let mut greatest = 0;
    for entry in counts {
        greatest = greatest.max(entry.1);
    }
    greatest
}
