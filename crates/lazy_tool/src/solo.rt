//! What runs on one thread.
ghost use Rattle.std.specs.Prelude.{◌≡◌, ◌≢◌, ◌↔◌, ◌≤◌, ℕ, List, Option, min, map, string_bytes, false, None, Some, IfOk, IfSome, OnOk, IfErr, length};
ghost use Rattle.lazy_rec.specs.declared.events.Event.{Event};
ghost use Rattle.dues.specs.Rooms.{room};
ghost use Rattle.heap_store.specs.World.{World};
ghost use Rattle.script_text.specs.Generator.{generated};
ghost use Rattle.script_text.specs.Text.{canonical_text};
ghost use Rattle.lazy_tool.specs.declared.faults.Why.{Why};
ghost use Rattle.lazy_tool.specs.declared.words.Command.{Command};
ghost use Rattle.lazy_tool.specs.declared.words.Command.TheVariants.{Plain, Gen};
ghost use Rattle.lazy_tool.specs.Commands.{ReadsAs};
ghost use Rattle.kind_table.specs.Kinds.{AreBuilt};
ghost use Rattle.lazy_tool.specs.Scripts.{Tells};
ghost use Rattle.lazy_tool.specs.Ran.{IsReported};
ghost use Rattle.lazy_tool.specs.Outcome.{Answers, AnswersGen, AnswersPlain, IsComplete, IsRead, NoFaults, Stops, ends, is_refusal, nodes_for, status_of};
ghost use Rattle.lazy_tool.specs.Headline.{IsAnswered, KeepsBound};

use crate::built::first_unbuilt;
use crate::faults::Why;
use crate::words::{Command, read_words};
use dues::{fixed_room, room};
use lazy_outside::{ReadError, Sink, Source, read_whole, write_whole};
use lazy_rec::NoMemory;
use lazy_rec::limits::{MOST_EVENTS, MOST_NODES};
use report_text::{Printed, report};
use script_text::{Script, ScriptFault, generate, print_script, read_script};
use std::alloc::Global;
use version_book::{Closed, solo_book};

/// What a call answers: the exit status, why, and the closed book of the events that were run, where they were.
#[derive(Drop)]
pub struct Outcome {
    pub status: u8,
    pub why: Why,
    pub closed: Option<Closed>,
}

impl Outcome {
    /// The outcome with no closed book.
    pub fn without_book(why: Why) -> Outcome
        ensures { result ≡ record { status = status_of why None; why = why; closed = None } }
    {
        let status = match why {
            Why::Nothing => 0,
            Why::Usage => 2,
            Why::Script { .. } | Why::TooLarge | Why::NotBuilt { .. } => 3,
            Why::Read => 4,
            Why::Write => 5,
            Why::Memory => 6,
        };
        Outcome {
            status,
            why,
            closed: None,
        }
    }
}

// A script, and the bytes of its text.
#[derive(Drop)]
struct Loaded {
    script: Script,
    bytes: Vec<u8>,
}

// The script that a source holds, where all its events are built.
fn load<S: Source>(alloc: Global, source: &mut S) -> Result<Loaded, Why>
    ensures script { IfOk result (λ l. IsRead (S.left source.old) (S.left source.new) l.script.events) }
    ensures built { IfOk result (λ l. AreBuilt l.script.events) }
    ensures no_fault { OnOk result (S.faults source.new ≡ S.faults source.old) }
    ensures fault { IfErr result (λ why. Stops (S.left source.old) (S.left source.new) (S.faults source.old) (S.faults source.new) why) }
{
    let bytes = match read_whole(alloc, source) {
        Ok(bytes) => bytes,
        Err(ReadError::TooLarge) => return Err(Why::TooLarge),
        Err(ReadError::Failed) => return Err(Why::Read),
        Err(ReadError::NoMemory) => return Err(Why::Memory),
    };
    let script = match read_script(alloc, bytes.as_slice()) {
        Ok(script) => script,
        Err(ScriptFault::Line { line, reason }) => return Err(Why::Script { line, reason }),
        Err(ScriptFault::NoMemory) => return Err(Why::Memory),
    };
    match first_unbuilt(&script) {
        None => Ok(Loaded { script, bytes }),
        Some(event) => Err(Why::NotBuilt { event }),
    }
}

// A script that was run: the closed book and its report.
#[derive(Drop)]
struct Ran {
    closed: Closed,
    report: Printed,
}

// The room of a script, at most the places of the largest store. Where the kinds of its events tell it, no more is read.
fn room_of(alloc: Global, script: &Script) -> Result<u64, NoMemory>
    ensures { IfOk result (λ places. places ≡ min (room script.now.events) MOST_NODES) }
{
    let most = u64::from(MOST_NODES);
    let events = script.events();
    let kinds = script.kinds();
    match fixed_room(kinds, events) {
        Some(places) => Ok(places.min(most)),
        None => room(alloc, kinds, events, most),
    }
}

// How many nodes the store of a script has: so many as are asked for, else those with which no row is full.
fn nodes_for(alloc: Global, nodes: Option<u32>, script: &Script) -> Result<u32, NoMemory>
    requires { IfSome nodes (λ n. n ≤ MOST_NODES) }
    ensures nodes { IfOk result (λ n. n ≡ nodes_for nodes script.now.events) }
    ensures small { IfOk result (λ n. n ≤ MOST_NODES) }
{
    if let Some(nodes) = nodes {
        return Ok(nodes);
    }
    let room = room_of(alloc, script)?;
    Ok(room as u32)
}

// Runs a script. The report is written over the script's text.
fn run_script(alloc: Global, nodes: Option<u32>, loaded: Loaded) -> Result<Ran, NoMemory>
    requires built { AreBuilt loaded.script.events }
    requires small { IfSome nodes (λ n. n ≤ MOST_NODES) }
    ensures { IfOk result (IsReported nodes loaded.script.events) }
{
    let Loaded { script, bytes } = loaded;
    let nodes = nodes_for(alloc, nodes, &script)?;
    let closed = solo_book(alloc, nodes, script.events())?;
    let report = report(&closed, bytes)?;
    Ok(Ran { closed, report })
}

// The text of the script that a seed makes.
fn made_text(alloc: Global, seed: u64, events: u32) -> Result<Vec<u8>, NoMemory>
    requires { events ≤ MOST_EVENTS }
    ensures { IfOk result (λ v. v.items ≡ canonical_text (generated seed events)) }
{
    let script = generate(alloc, seed, events)?;
    print_script(alloc, &script)
}

// Makes a script and writes its text.
fn serve_gen<K: Sink>(alloc: Global, seed: u64, events: u32, sink: &mut K) -> Outcome
    requires { events ≤ MOST_EVENTS }
    ensures answers { (left : Option (List ℕ)) (faults : ℕ) → AnswersGen seed events (ends left faults (K.holds sink.old) (K.faults sink.old)) (ends left faults (K.holds sink.new) (K.faults sink.new)) result.why result.closed }
    ensures status { result.status ≡ status_of result.why result.closed }
{
    let Ok(text) = made_text(alloc, seed, events) else {
        return Outcome::without_book(Why::Memory);
    };
    match write_whole(sink, text.as_slice()) {
        Ok(()) => Outcome::without_book(Why::Nothing),
        Err(_) => Outcome::without_book(Why::Write),
    }
}

// Reads a script, runs it and writes the report.
fn serve<S: Source, K: Sink>(
    alloc: Global,
    nodes: Option<u32>,
    source: &mut S,
    sink: &mut K,
) -> Outcome
    requires { IfSome nodes (λ n. n ≤ MOST_NODES) }
    ensures answers { AnswersPlain nodes (ends (S.left source.old) (S.faults source.old) (K.holds sink.old) (K.faults sink.old)) (ends (S.left source.new) (S.faults source.new) (K.holds sink.new) (K.faults sink.new)) result.why result.closed }
    ensures status { result.status ≡ status_of result.why result.closed }
{
    let loaded = match load(alloc, source) {
        Ok(loaded) => loaded,
        Err(why) => return Outcome::without_book(why),
    };
    let Ok(Ran { closed, report }) = run_script(alloc, nodes, loaded) else {
        return Outcome::without_book(Why::Memory);
    };
    match write_whole(sink, report.text.as_slice()) {
        Ok(()) => Outcome {
            status: u8::from(report.has_given_up),
            why: Why::Nothing,
            closed: Some(closed),
        },
        Err(_) => Outcome {
            status: 5,
            why: Why::Write,
            closed: Some(closed),
        },
    }
}

/// Serves `plain`: takes the source to its end, reads the script, runs it in a store of so many nodes as the words say, else
/// with the script's room and at most 4,000,000 nodes, and gives the report to the sink. Serves `gen`: gives the sink the
/// text of the script that the seed makes. It always returns.
pub fn run_solo<S: Source, K: Sink>(
    alloc: Global,
    words: &[String],
    source: &mut S,
    sink: &mut K,
) -> Outcome
    // Other words are refused, and nothing is taken or given.
    ensures usage { result.why ≡ Why.Usage ↔ ((command : Command) → ReadsAs (map string_bytes words.now) command → ⊥) }
    ensures untouched { result.why ≡ Why.Usage → (source.new ≡ source.old) × (sink.new ≡ sink.old) × (result.closed ≡ None) }

    // Every answer has its cause.
    ensures answers { (command : Command) → ReadsAs (map string_bytes words.now) command → Answers command (ends (S.left source.old) (S.faults source.old) (K.holds sink.old) (K.faults sink.old)) (ends (S.left source.new) (S.faults source.new) (K.holds sink.new) (K.faults sink.new)) result.why result.closed }
    ensures status { result.status ≡ status_of result.why result.closed }
    ensures unread { (seed events : ℕ) → ReadsAs (map string_bytes words.now) (Gen seed events) → source.new ≡ source.old }

    // Where the status of `plain` is 0, the plain report was written, and each book that there is keeps the bound.
    ensures headline { (nodes : Option ℕ) → ReadsAs (map string_bytes words.now) (Plain nodes) → result.status ≡ 0 → IsAnswered (ends (S.left source.old) (S.faults source.old) (K.holds sink.old) (K.faults sink.old)) (ends (S.left source.new) (S.faults source.new) (K.holds sink.new) (K.faults sink.new)) }
    ensures bounded { (nodes : Option ℕ) (book : World) → ReadsAs (map string_bytes words.now) (Plain nodes) → result.closed ≡ Some book
        → KeepsBound nodes (ends (S.left source.old) (S.faults source.old) (K.holds sink.old) (K.faults sink.old)) (ends (S.left source.new) (S.faults source.new) (K.holds sink.new) (K.faults sink.new)) book }

    // A text that the source tells isn't refused, and in a store with its room each event is answered, as far as memory goes.
    ensures reads { (events : List Event) → Tells (S.left source.old) events → is_refusal result.why ≡ false }
    ensures complete { (nodes : Option ℕ) (events : List Event) → ReadsAs (map string_bytes words.now) (Plain nodes) → Tells (S.left source.old) events
        → room events ≤ nodes_for nodes events
        → NoFaults (ends (S.left source.old) (S.faults source.old) (K.holds sink.old) (K.faults sink.old)) (ends (S.left source.new) (S.faults source.new) (K.holds sink.new) (K.faults sink.new))
        → IsComplete result.status result.closed }
{
    crate::words::one_reading();
    script_text::one_reading();
    match read_words(words) {
        Some(Command::Plain { nodes }) => serve(alloc, nodes, source, sink),
        Some(Command::Gen { seed, events }) => serve_gen(alloc, seed, events, sink),
        None => Outcome::without_book(Why::Usage),
    }
}

#[cfg(test)]
mod random_tests;
#[cfg(test)]
mod tests;
