//! Forcing suspensions: a suspension's needs first, each with the claims of those that wait for it in hand, then one reserve,
//! one build and one completion. An explicit stack of claims stands in place of recursion.
#![tactic(auto)]

pub mod looks;
pub mod shown;
pub mod solo;
pub mod stack;

pub use looks::peek;
pub use shown::Peek;
pub use solo::{GiveUp, force_solo};
pub use stack::{Frame, Stack};
