//! Values, each once.
use indexmap::IndexSet;
use std::alloc::{AllocError, Global};
use std::hash::{BuildHasherDefault, FoldHasher};

/// Values, each once, in the order in which they first came.
pub struct Distinct<'a> {
    values: IndexSet<&'a str, BuildHasherDefault<FoldHasher>>,
}

/// Who owns one drops it by this call, and not field by field at each exit.
impl Drop for Distinct<'_> {
    fn drop(self) {
        let Distinct { values: _ } = self;
    }
}

impl<'a> Distinct<'a> {
    pub fn new(alloc: Global) -> Self {
        Distinct {
            values: IndexSet::with_hasher(alloc, BuildHasherDefault::new()),
        }
    }

    /// The index of a value, which is added if it is new.
    pub fn code_of(&mut self, value: &'a str) -> Result<u32, AllocError> {
        let (index, _) = self.values.insert_full(value)?;
        Ok(u32::try_from(index).unwrap_or(u32::MAX))
    }

    pub fn len(&self) -> usize {
        self.values.len()
    }

    pub fn has(&self, value: &str) -> bool {
        self.values.contains(&value)
    }

    pub fn all(&self) -> &[&'a str] {
        self.values.as_slice()
    }
}
