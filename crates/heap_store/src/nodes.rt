//! What a place shows.

use lazy_rec::{Rec, SuspState};

/// A published place: its record, which never changes, and its state. A value shows `Unforced` with no attempt given up.
#[derive(Clone, Copy, Debug, PartialEq, Eq)]
pub struct Node {
    pub rec: Rec,
    pub state: SuspState,
}
