//! Callers at work on one store, from its opening to its closing: several at once, or one that runs a script.
#![tactic(auto)]

pub mod alone;
pub mod crew;
pub mod tries;

pub use alone::run_alone;
pub use crew::{Resting, Worker, begin_all, close_all, rest_all, workers};
pub use tries::{Share, Turn, force_in_turns, need_of_head, take_turn};

#[cfg(test)]
mod tests;
