//! Groups of numbers, one for each id.
ghost use Rattle.std.specs.Prelude.{◌≡◌, [], ◌∷◌, All, length, map, slice_index_or, false, OnOk, IfOk, IfErr};
ghost use Rattle.std.specs.List.{flat_map};
ghost use Rattle.basket_read.specs.Fimi.{basket_of_numbers};
ghost use Rattle.basket_read.specs.GatheredBaskets.{HasGathered};
ghost use Rattle.basket_csv.specs.Pairs.{added_at};
ghost use Rattle.basket_sets.specs.Itemset.{AllBelow};

use basket_read::{GatheredBaskets, ReadFault};
use basket_sets::{INLINE_ITEMS, rename};
use smallvec::SmallVec;
use std::alloc::{AllocError, Global};

/// The numbers of the names of an id. Most have few, which need no allocation.
pub type Group = SmallVec<u32, { INLINE_ITEMS }>;

/// Adds a number to the group at an index, or to a new one at the end.
#[tactic(auto, using(std::proofs::lemmas::Grind::common_steps, crate::proofs::PairLemmas::group_known))]
pub fn add_number(
    alloc: Global,
    groups: &mut Vec<Group>,
    index: usize,
    number: u32,
) -> Result<(), AllocError>
    ensures { OnOk result (map (λ group. group.items) groups.new.items ≡ added_at (map (λ group. group.items) groups.old.items) index (number ∷ [])) }
{
    if let Some(group) = groups.get_mut(index) {
        group.push(number)?;
        return Ok(());
    }
    let mut group = Group::new(alloc);
    group.push(number)?;
    groups.push(group)?;
    Ok(())
}

/// Adds numbers to the group at an index, or to a new one at the end.
#[tactic(auto, using(std::proofs::lemmas::Grind::common_steps, crate::proofs::PairLemmas::group_known))]
pub fn add_numbers(
    alloc: Global,
    groups: &mut Vec<Group>,
    index: usize,
    numbers: &[u32],
) -> Result<(), AllocError>
    ensures { OnOk result (map (λ group. group.items) groups.new.items ≡ added_at (map (λ group. group.items) groups.old.items) index numbers.now) }
{
    if let Some(group) = groups.get_mut(index) {
        group.extend_from_slice(numbers)?;
        return Ok(());
    }
    groups.push(Group::from_slice(alloc, numbers)?)?;
    Ok(())
}

/// Replaces the numbers of each group by their names.
pub fn rename_groups(groups: &mut [Group], names: &[u32])
    requires { All (λ group. AllBelow (length names.now) group.items) groups.old }
    ensures { map (λ group. group.items) groups.new ≡ map (map (λ number. slice_index_or names.now number 0)) (map (λ group. group.items) groups.old) }
{
    for index in 0..groups.len() {
        rename(groups[index].as_mut_slice(), names);
    }
}

/// The baskets of groups of numbers, each of weight 1.
pub fn gathered_from(alloc: Global, groups: &[Group]) -> Result<GatheredBaskets, ReadFault>
    ensures baskets { IfOk result (λ gathered. HasGathered gathered false (flat_map (λ group. basket_of_numbers group.items 1) groups.now)) }
    ensures err { IfErr result (λ fault. fault ≡ ReadFault.Memory) }
{
    let mut gathered = GatheredBaskets::new(alloc, false, 0);
    for group in groups {
        gathered.add(group, 1)?;
    }
    Ok(gathered)
}
