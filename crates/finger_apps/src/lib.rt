//! Sequences on finger trees over any heap (Hinze and Paterson, Finger trees: a simple general-purpose data structure): pushes,
//! pops and looks at both ends. Their operations in the middle are not built yet.
#![tactic(auto)]

pub mod events;
pub mod sequence;

pub use events::{build_event, is_end_op, prepare_event};
pub use sequence::{end_item, new_seq};
