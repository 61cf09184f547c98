//! What the workers of a phase have in common.
ghost use Rattle.std.specs.Prelude.{◌≡◌, max, min};

use crate::cutting::Cutting;
use crate::gate::Gate;

/// A phase: its number, how its work is cut, and the gate that its workers pass with each piece.
#[derive(Drop)]
pub struct Phase<'a, G> {
    pub number: u32,
    pub cutting: Cutting,
    pub gate: &'a G,
}

impl<'a, G: Gate> Phase<'a, G> {
    /// The phase of a number.
    pub fn new(number: u32, cutting: Cutting, gate: &'a G) -> Self
        ensures number { result.number ≡ number }
        ensures cutting { result.cutting ≡ cutting }
        ensures gate { result.gate.now ≡ gate.now }
    {
        Phase {
            number,
            cutting,
            gate,
        }
    }

    /// The same phase over this many parts: it has no more pieces than parts, and at least one, and
    /// no more workers than pieces.
    pub fn for_parts(&self, parts: usize) -> Self
        ensures number { result.number ≡ self.now.number }
        ensures workers { result.cutting.workers ≡ min self.now.cutting.workers result.cutting.pieces }
        ensures pieces { result.cutting.pieces ≡ max 1 (min parts self.now.cutting.pieces) }
        ensures gate { result.gate.now ≡ self.now.gate.now }
    {
        let Cutting { workers, pieces } = self.cutting;
        let pieces = parts.clamp(1, pieces as usize) as u32;
        Phase::new(
            self.number,
            Cutting::new(workers.min(pieces), pieces),
            self.gate,
        )
    }
}
