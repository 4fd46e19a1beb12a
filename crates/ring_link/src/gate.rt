/// A side of a unit.
#[derive(Clone, Copy, Debug, PartialEq, Eq)]
pub enum Side {
    Host,
    Net,
}

/// Is told of each push and each pop on a ring, and of the side that made it.
pub trait Gate {
    fn pushed(&self, side: Side);

    fn popped(&self, side: Side);
}

/// The gate that does nothing.
#[derive(Clone, Copy, Debug)]
pub struct NoGate;

impl Gate for NoGate {
    fn pushed(&self, _side: Side) {}

    fn popped(&self, _side: Side) {}
}
