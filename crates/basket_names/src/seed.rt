//! What the hashes of names begin with.
use std::hash::{BuildHasher, DefaultHasher, RandomState};
use std::random::RandomSource;

/// The hasher that each hash begins with.
#[derive(Clone, Copy)]
pub struct Seed {
    hasher: DefaultHasher,
}

impl Seed {
    /// One with random keys, or with fixed ones if there are no random bytes: the order of the
    /// names is the same.
    pub fn new<R: RandomSource>(rt: &R) -> Self {
        let hasher = match RandomState::new(rt) {
            Ok(keys) => keys.build_hasher(),
            Err(_) => DefaultHasher::new(),
        };
        Seed { hasher }
    }
}

impl BuildHasher for Seed {
    type Hasher = DefaultHasher;

    ghost build_hasher = { λ seed. seed.hasher };

    fn build_hasher(&self) -> DefaultHasher {
        self.hasher
    }
}
