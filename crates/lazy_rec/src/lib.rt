//! What every layer speaks of: places and items, the records that a place can show, states of suspensions, kinds,
//! operations, events and replies, and the binary numbers that dues are made of.
#![tactic(auto)]

pub mod events;
mod fields;
pub mod limits;
pub mod names;
pub mod numbers;
pub mod packing;
pub mod places;
mod ranges;
pub mod records;
pub mod states;

pub use events::{Event, Kind, NoMemory, Op, Reply};
pub use names::{SECOND, event_name, is_second, second_of};
pub use numbers::{bits, ones, trailing_ones, zeros};
pub use packing::decode;
pub use places::{Item, Ref};
pub use records::{Rec, Sort};
pub use states::SuspState;

#[cfg(test)]
mod tests;
