//! Lazy binomial heaps over any heap (Okasaki, 6.4.1): the inserts and merges that they suspend, and their operations.
#![tactic(auto)]

pub mod events;
pub mod heap;
pub mod jobs;
pub mod removal;
pub mod sizes;
pub mod trees;
pub mod work;

pub use events::{build_event, prepare_event};
pub use heap::new_heap;
pub use jobs::HeapJobs;
pub use work::{build, prepare};
