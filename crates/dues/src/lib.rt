//! What a script's events are charged and may take, from the events alone: dues, node bounds, size bounds, and the room
//! of a whole script.
#![tactic(auto)]

pub mod rooms;
pub mod sizes;
pub mod tables;

pub use rooms::{fixed_room, model_size, room, room_covers, room_fits};
pub use sizes::{second_bound, size_bound, size_bounds_hold};
pub use tables::{direct, due, never_forces};
