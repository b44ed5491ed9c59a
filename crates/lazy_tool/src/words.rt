//! The words of the command line.
ghost use Rattle.std.specs.Prelude.{◌≡◌, ◌↔◌, ℕ, List, [], ◌∷◌, map, string_bytes, codes, IsTrue, MatchOption};
ghost use Rattle.lazy_tool.specs.declared.words.Command.{Command};
ghost use Rattle.lazy_tool.specs.Commands.{IsNumber, IsReading, ReadsAs};

use lazy_rec::limits::{MOST_EVENTS, MOST_NODES};

/// What the program says of words that have no reading.
pub const USAGE: &str = "usage: lazy_tool plain [--nodes N] | gen SEED EVENTS";

/// What the words ask for.
#[derive(Clone, Copy, Debug, PartialEq, Eq)]
pub enum Command {
    /// To run a script on one thread, in a store of so many nodes where their number is given.
    Plain { nodes: Option<u32> },
    /// To write the script of so many events that a seed makes.
    Gen { seed: u64, events: u32 },
}

// Whether a word is this text.
fn is_text(word: &str, text: &str) -> bool
    ensures { IsTrue result ↔ (word.now ≡ text.now) }
{
    word == text
}

// The number that a word writes, with at most so many digits and at most so much.
fn number(word: &str, digits: usize, most: u64) -> Option<u64>
    ensures { MatchOption result ((n : ℕ) → IsNumber digits most word.now n → ⊥) (λ n. IsNumber digits most word.now n) }
{
    if word.len() > digits || word.as_bytes().first() == Some(&b'+') {
        return None;
    }
    match word.parse::<u64>() {
        Ok(n) if n <= most => Some(n),
        _ => None,
    }
}

// `plain` with an option of one word.
fn with_option(name: &str, option: &str) -> Option<Command>
    ensures { IsReading (name.now ∷ option.now ∷ []) result }
{
    if !is_text(name, "plain") {
        return None;
    }
    let nodes = number(option.strip_prefix("--nodes=")?, 10, u64::from(MOST_NODES))?;
    Some(Command::Plain {
        nodes: Some(nodes as u32),
    })
}

// `plain` with an option of two words.
fn with_nodes(option: &str, word: &str) -> Option<Command>
    ensures { IsReading (codes "plain" ∷ option.now ∷ word.now ∷ []) result }
{
    if !is_text(option, "--nodes") {
        return None;
    }
    let nodes = number(word, 10, u64::from(MOST_NODES))?;
    Some(Command::Plain {
        nodes: Some(nodes as u32),
    })
}

// `gen` with a seed and a number of events.
fn with_seed(seed: &str, events: &str) -> Option<Command>
    ensures { IsReading (codes "gen" ∷ seed.now ∷ events.now ∷ []) result }
{
    let seed = number(seed, 20, u64::MAX)?;
    let events = number(events, 10, u64::from(MOST_EVENTS))?;
    Some(Command::Gen {
        seed,
        events: events as u32,
    })
}

// A command with two words after its name.
fn with_two(name: &str, first: &str, second: &str) -> Option<Command>
    ensures { IsReading (name.now ∷ first.now ∷ second.now ∷ []) result }
{
    if is_text(name, "plain") {
        return with_nodes(first, second);
    }
    if is_text(name, "gen") {
        return with_seed(first, second);
    }
    None
}

/// The command that the words read as, where they have a reading.
pub fn read_words(words: &[String]) -> Option<Command>
    ensures { IsReading (map string_bytes words.now) result }
{
    match words {
        [name] if is_text(name.as_str(), "plain") => Some(Command::Plain { nodes: None }),
        [name, option] => with_option(name.as_str(), option.as_str()),
        [name, first, second] => with_two(name.as_str(), first.as_str(), second.as_str()),
        _ => None,
    }
}

/// Words read as one command at most.
pub fn one_reading()
    ensures { (words : List (List ℕ)) (a b : Command) → ReadsAs words a → ReadsAs words b → a ≡ b }
{}

#[cfg(test)]
mod tests;
