//! Renumbering of numbers, of which only some have one.
ghost use Rattle.std.specs.Prelude.{◌≡◌, ◌≤◌, ℕ, Option, length, take};
ghost use Rattle.std.specs.List.{filter_map};

/// What may name a number.
pub trait Renumbering {
    ghost name_of: { Self → ℕ → Option ℕ };

    fn name(&self, number: u32) -> Option<u32>
        ensures { result ≡ name_of self.now number };
}

/// Puts the names of the numbers that have one at the beginning, in their order, and returns how
/// many they are. A name is written for each number, and the next one over it if it has none: which
/// have one can't be predicted, so a branch would cost more.
pub fn renumber<N: Renumbering>(numbers: &mut [u32], names: &N) -> usize
    ensures names { take result numbers.new ≡ filter_map (N.name_of names.now) numbers.old }
    ensures few { result ≤ length numbers.old }
{
    let mut len = 0;
    for index in 0..numbers.len() {
        let name = names.name(numbers[index]);
        numbers[len] = name.unwrap_or(0);
        len += usize::from(name.is_some());
    }
    len
}
