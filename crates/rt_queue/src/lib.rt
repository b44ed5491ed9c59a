//! Real-time queues over any heap (Okasaki, 7.2): the rotations that they suspend, and their operations.
#![tactic(auto)]

pub mod events;
pub mod jobs;
pub mod queue;
pub mod rotation;

pub use events::{build_event, prepare_event};
pub use jobs::RtJobs;
pub use queue::{Top, new_queue, put_top, read_top};
pub use rotation::{build, prepare};
