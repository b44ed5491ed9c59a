//! The totals of a closed book.

/// What all events of a book came to: how many suspensions were forced and the steps that they took, how many attempts were
/// given back, the steps that the events were charged, and the places that were published beside the five fixed ones.
#[derive(Clone, Copy, Debug, PartialEq, Eq)]
pub struct Totals {
    pub forced: u64,
    pub steps: u64,
    pub given_up: u64,
    pub dues: u64,
    pub nodes: u64,
}
