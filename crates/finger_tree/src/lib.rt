//! The pending work of finger trees over any heap (Hinze and Paterson, Finger trees: a simple general-purpose data structure):
//! the pushes that overflow into a middle, the tails that pops leave of one, and concatenations.
#![tactic(auto)]

pub mod concat;
pub mod jobs;
pub mod push;
pub mod tail;
pub mod work;

pub use jobs::FingerJobs;
pub use work::{build, prepare};
