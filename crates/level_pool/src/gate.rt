//! Gates: what a worker passes before and after each of its pieces.

/// A gate that a worker passes before and after each piece. It observes the pieces, and can hold a
/// worker back, but has no influence on the results.
pub trait Gate {
    /// Called by the worker just before it computes the piece.
    fn enter(&self, piece: u32);

    /// Called by the worker just after it computed the piece.
    fn leave(&self, piece: u32);
}

/// The gate that is always open.
#[derive(Clone, Copy, Drop)]
pub struct NoGate;

impl Gate for NoGate {
    fn enter(&self, _piece: u32) {}

    fn leave(&self, _piece: u32) {}
}

/// A borrowed gate: its owner can read it after the run.
impl<'a, G: Gate> Gate for &'a G {
    fn enter(&self, piece: u32) {
        (**self).enter(piece);
    }

    fn leave(&self, piece: u32) {
        (**self).leave(piece);
    }
}
