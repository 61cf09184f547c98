//! The sets of a list as it is kept.
ghost use Rattle.std.specs.Prelude.{◌≡◌, ◌<◌, length};
ghost use Rattle.basket_rules.specs.Listed.{set_at};
ghost use Rattle.basket_sets.specs.Itemset.{IsRising};

use basket_core::CountedSets;
use basket_lists::MOST_ITEMS;

/// The items of the set at an index, written into the room if the set is kept as a word.
pub fn items_at<'a>(
    sets: &'a CountedSets,
    index: usize,
    room: &'a mut [u32; MOST_ITEMS],
) -> &'a [u32]
    requires { index < length sets.now }
    ensures is { result.now ≡ set_at sets.now index }
    ensures rising { IsRising result.now }
{
    sets.items(index, room)
}
