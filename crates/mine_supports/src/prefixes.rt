//! The tids of the prefixes of a set.
ghost use Rattle.std.specs.Prelude.{◌≡◌, ◌≤◌, ◌∷◌, [], IfOk, OnOk, length, take};
ghost use Rattle.mine_supports.specs.Prefixes.{AreLast, IsNext};

use crate::tid_words::{TidWord, put_kept};
use std::alloc::{AllocError, Global};

/// The tids of some prefixes of a set, one more item from one to the next, and lists whose memory is used again.
pub struct Prefixes {
    alloc: Global,
    pub lists: Vec<Vec<TidWord>>,
    spare: Vec<Vec<TidWord>>,
}

impl Drop for Prefixes {
    fn drop(self) {
        let Prefixes {
            alloc: _,
            lists: _,
            spare: _,
        } = self;
    }
}

impl Prefixes {
    /// The prefix without items, which has all of the tids.
    pub fn of(alloc: Global, tids: Vec<TidWord>) -> Result<Self, AllocError>
        ensures { IfOk result (λ prefixes. prefixes.lists.items ≡ tids ∷ []) }
    {
        let mut lists = Vec::new(alloc);
        lists.push(tids)?;
        Ok(Prefixes {
            alloc,
            lists,
            spare: Vec::new(alloc),
        })
    }

    /// Keeps the first ones.
    pub fn truncate(&mut self, len: usize)
        ensures { self.new.lists.items ≡ take len self.old.lists.items }
    {
        while self.lists.len() > len {
            if let Some(list) = self.lists.pop() {
                // Without memory for it, the list is freed.
                let _ = self.spare.push(list);
            }
        }
    }

    /// Adds a prefix: it has those tids of the last one that a row has too.
    pub fn push_kept(&mut self, row: &[u64]) -> Result<(), AllocError>
        requires { 1 ≤ length self.old.lists.items }
        ensures { OnOk result (IsNext row.now self.old.lists.items self.new.lists.items) }
    {
        let mut kept = match self.spare.pop() {
            Some(list) => list,
            None => Vec::new(self.alloc),
        };
        put_kept(self.last(), row, &mut kept)?;
        self.lists.push(kept)?;
        Ok(())
    }

    /// The tids of the last one.
    #[inline]
    pub fn last(&self) -> &[TidWord]
        requires { 1 ≤ length self.now.lists.items }
        ensures { AreLast self.now.lists.items result.now }
    {
        &self.lists[self.lists.len() - 1]
    }
}
