//! Streams over any heap (Okasaki, 4.2): appends that go on one cell at a time, reversals that make all cells at once, and
//! the operations.
#![tactic(auto)]

mod append;
pub mod events;
pub mod jobs;
mod reversal;
pub mod stream;
pub mod work;

pub use events::{build_event, prepare_event};
pub use jobs::StreamJobs;
pub use stream::new_stream;
pub use work::{build, prepare};
