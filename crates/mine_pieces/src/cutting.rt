//! How the work of a phase is cut.
ghost use Rattle.std.specs.Prelude.{◌≡◌, ◌≤◌};

/// How many workers do a phase, 1 to 64, and in how many pieces, 1 to 65,536.
#[derive(Clone, Copy)]
pub struct Cutting {
    pub workers: u32,
    pub pieces: u32,
    ghost some_workers: { (1 ≤ workers) × (workers ≤ 64) },
    ghost some_pieces: { (1 ≤ pieces) × (pieces ≤ 65536) },
}

impl Cutting {
    pub fn new(workers: u32, pieces: u32) -> Self
        requires workers { (1 ≤ workers) × (workers ≤ 64) }
        requires pieces { (1 ≤ pieces) × (pieces ≤ 65536) }
        ensures { (result.workers ≡ workers) × (result.pieces ≡ pieces) }
    {
        Cutting { workers, pieces }
    }
}
