//! The store as the structures see it: the traits of a heap, of claims, of rows and of pending work, what they promise of
//! the world that was seen and of what is in hand; reads of places that may be pending; and a store of one thread over
//! vectors.
#![tactic(auto)]

pub mod cells;
pub mod claims;
pub mod counts;
pub mod heap;
pub mod jobs;
pub mod nodes;
pub mod notes;
pub mod plain;
pub mod run;
pub mod slots;
pub mod versions;

pub use cells::{Cell, first_cell, list_cell, value_of, value_place};
pub use claims::{Claim, Full, HeldClaim, NamesFull, OpenRow};
pub use counts::Counts;
pub use heap::{Claims, Heap, Rows};
pub use jobs::{After, Built, Cursor, EventJob, Jobs, Prep, Stage};
pub use nodes::Node;
pub use plain::PlainHeap;
pub use run::Run;
pub use versions::Version;
