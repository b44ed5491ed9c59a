//! A store that several threads share: one table of atomic words, under a rule that each step keeps.
#![tactic(auto)]

mod claims;
mod closed;
mod closing;
mod heap;
pub mod laws;
pub mod named;
pub mod pass;
mod rows;
pub mod rule;
pub mod sight;
mod steps;
pub mod store;

pub use closed::ClosedStore;
pub use closing::NotClosed;
pub use named::{NamedPass, Naming};
pub use pass::Pass;
pub use store::Store;
