//! The kinds of structures that are built: their pending work, and the work of their events, by the kind of the base.
#![tactic(auto)]

pub mod built;
pub mod events;
pub mod jobs;

pub use built::{is_built, is_kind_built};
pub use events::{build_event, new_event, new_places, prepare_event};
pub use jobs::AllKinds;
