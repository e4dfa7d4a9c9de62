//! Gates that processors' workers pass before their turns.

/// A gate: each processor's worker passes it before each of its turns, while it holds nothing that the others need. The
/// console's worker passes none.
pub trait Gate {
    /// The worker of processor `processor` calls this before it makes its turn number `turn`, which counts from 1.
    fn pass(&self, processor: u32, turn: u32);
}

/// A gate that is always open.
#[derive(Clone, Copy, Debug)]
pub struct OpenGate;

impl Gate for OpenGate {
    fn pass(&self, _processor: u32, _turn: u32) {}
}
