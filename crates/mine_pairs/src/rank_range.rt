//! Ranks in a row.
ghost use Rattle.std.specs.Prelude.{◌≡◌, ◌≢◌, ◌≤◌, ◌<◌, ◌+◌, ◌^◌, ℕ, IfNone, IfSome};

/// This many ranks, from a first one on.
#[derive(Clone, Copy)]
pub struct RankRange {
    pub first: u32,
    pub count: u32,
    ghost few: { first + count ≤ 2 ^ 32 },
}

impl RankRange {
    /// The number of a rank among those of the range, from 0 on.
    #[inline(always)]
    pub fn number(&self, rank: u32) -> Option<usize>
        ensures within { IfSome result (λ number. number < self.now.count) }
        ensures is { IfSome result (λ number. rank ≡ self.now.first + number) }
        ensures outside { IfNone result ((number : ℕ) → number < self.now.count → rank ≢ self.now.first + number) }
    {
        let number = rank.checked_sub(self.first)?;
        if number < self.count {
            Some(number as usize)
        } else {
            None
        }
    }
}
