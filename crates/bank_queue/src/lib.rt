//! Banker's queues over any heap (Okasaki, 6.3.2): the rotations that they suspend, and their operations.
#![tactic(auto)]

pub mod events;
pub mod jobs;
pub mod queue;
pub mod rotation;

pub use events::{build_event, prepare_event};
pub use jobs::BankJobs;
pub use queue::new_queue;
pub use rotation::{build, prepare};
