//! Points at which a worker may be held up.

/// Where in the work on an event a worker stands.
#[derive(Clone, Copy, Debug, PartialEq, Eq)]
pub enum Point {
    /// It has drawn the event, and not begun it.
    BeforeBegin,
    /// It has begun the event, and done nothing for it.
    AfterBegin,
    /// It has won the claim on a suspension.
    AfterClaim,
    /// It has built a suspension's value, and not completed it.
    BeforeComplete,
    /// It has ended the event.
    AfterEnd,
}

/// What a worker passes at each point. It may wait, and so settle which of several workers goes on first. It changes
/// nothing that a contract speaks of.
pub trait Gate {
    /// A worker passes this point in its work on the event of this name.
    fn at(&self, point: Point, name: u32);
}

/// The gate that lets everything pass at once.
#[derive(Clone, Copy, Debug)]
pub struct OpenGate;

impl Gate for OpenGate {
    fn at(&self, _point: Point, _name: u32) {}
}
