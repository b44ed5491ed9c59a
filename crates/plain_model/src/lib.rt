//! The plain side: what every event means on plain lists, and the slow program that computes it.
#![tactic(auto)]

mod effects;
pub mod laws;
mod lists;
mod runs;
mod scripts;
#[cfg(test)]
mod tests;

pub use runs::plain_run;
pub use scripts::is_script;
