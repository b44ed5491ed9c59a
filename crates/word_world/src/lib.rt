//! The words of a shared store as a world: where each word stands, and what a word that is stored does to the world.
#![tactic(auto)]

pub mod layout;

pub use layout::{Layout, state_of};
