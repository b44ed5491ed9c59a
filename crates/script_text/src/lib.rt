//! The language of scripts: a text is read as a list of events or refused at its first faulty line, and a list of events
//! is printed as one canonical text.
#![tactic(auto)]

mod common_lines;
mod event_lines;
mod front_digits;
mod generator;
mod lines;
mod model;
mod print;
mod script;
#[cfg(test)]
mod tests;
mod versions;
mod words;

pub use generator::generate;
pub use model::{Reason, ScriptFault};
pub use print::{canonical_texts, print_script};
pub use script::{Script, one_reading, read_script};
