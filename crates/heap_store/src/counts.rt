//! What the work on a store comes to.

/// What the work on a store comes to: how many suspensions are done and the steps that they took, how many attempts were given
/// back, and the places that are published beside the five fixed ones.
#[derive(Clone, Copy, Debug, PartialEq, Eq)]
pub struct Counts {
    pub forced: u64,
    pub steps: u64,
    pub given_up: u64,
    pub nodes: u64,
}
