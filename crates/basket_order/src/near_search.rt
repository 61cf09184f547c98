//! A search in a sorted list that is fast close to a given index.
ghost use Rattle.std.specs.Prelude.{◌≡◌, ◌≤◌, ◌<◌, ◌+◌, IfSome, IfNone};

/// The indexes of a sorted list among which an element is searched for: an exponential search
/// (Bentley and Yao 1976). The steps away from a given index double, towards greater elements or towards
/// lesser ones; once a lesser and a greater element are known, the indexes between them are halved. The
/// caller compares the elements.
#[derive(Drop)]
pub struct NearSearch {
    near: usize,
    start: usize,
    end: usize,
    guess: usize,
    bounded: bool,
}

impl NearSearch {
    /// Searches a whole list. Whatever `near` is, each index may still be looked at.
    pub fn new(near: usize, length: usize) -> Self
        ensures start { result.start ≡ 0 }
        ensures end { result.end ≡ length }
    {
        NearSearch {
            near,
            start: 0,
            end: length,
            guess: near,
            bounded: false,
        }
    }

    /// The index to look at next.
    #[inline(always)]
    pub fn next(&self) -> Option<usize>
        ensures from { IfSome result (λ at. self.now.start ≤ at) }
        ensures before { IfSome result (λ at. at < self.now.end) }
        ensures over { IfNone result (self.now.end ≤ self.now.start) }
    {
        if self.start < self.end {
            Some(self.guess.max(self.start).min(self.end - 1))
        } else {
            None
        }
    }

    /// The element at this index is less: only those after it are left.
    #[inline(always)]
    pub fn go_after(&mut self, index: usize)
        requires { index < self.old.end }
        ensures start { self.new.start ≡ index + 1 }
        ensures end { self.new.end ≡ self.old.end }
    {
        self.start = index + 1;
        self.guess = if self.bounded {
            self.middle()
        } else {
            index.saturating_add(self.start.saturating_sub(self.near))
        };
    }

    /// The element at this index is greater: only those before it are left.
    #[inline(always)]
    pub fn go_before(&mut self, index: usize)
        ensures start { self.new.start ≡ self.old.start }
        ensures end { self.new.end ≡ index }
    {
        self.end = index;
        self.bounded = true;
        self.guess = if self.start > 0 {
            self.middle()
        } else {
            index.saturating_sub(self.near.saturating_sub(index).saturating_add(1))
        };
    }

    #[inline(always)]
    fn middle(&self) -> usize {
        self.start + self.end.saturating_sub(self.start) / 2
    }

    /// The first index that is left.
    pub fn start(&self) -> usize
        ensures { result ≡ self.now.start }
    {
        self.start
    }
}
