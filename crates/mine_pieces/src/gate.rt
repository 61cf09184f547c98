//! What workers pass with each piece.

/// A gate that the workers of all phases share. A worker passes it once for each piece, with the
/// number that it claimed, after it has claimed it and before it works on it.
pub trait Gate {
    fn pass(&self, phase: u32, worker: u32, piece: u32);
}

/// The gate that each worker passes at once.
#[derive(Clone, Copy)]
pub struct Open;

impl Gate for Open {
    fn pass(&self, _phase: u32, _worker: u32, _piece: u32) {}
}
