//! A list of events, run in order from the plain lists of each version.

ghost use Rattle.std.specs.Prelude.{◌≡◌, ◌<◌, map, length, IfOk};
ghost use Rattle.lazy_rec.specs.Plain.{effect, second_list};
ghost use Rattle.lazy_rec.specs.History.{IsScript, event_name, event_of, reply_to};
ghost use Rattle.plain_model.specs.Outcome.{Gives};
ghost use Rattle.plain_model.specs.Versions.{list_at};

use crate::effects::{Outcome, outcome_of, second_of};
use lazy_rec::{Event, NoMemory, Reply, event_name, is_second};
use std::alloc::{AllocError, Global};

/// The lists of an event's versions. Only a split's second one has items.
#[derive(Drop)]
struct ListPair {
    first: Vec<u64>,
    second: Vec<u64>,
}

/// The list of a version.
fn list_of(versions: &[ListPair], version: u32) -> &[u64]
    requires { event_name version < length versions.now }
    ensures { result.now ≡ list_at versions.now version }
{
    let lists = &versions[event_name(version) as usize];
    if is_second(version) {
        lists.second.as_slice()
    } else {
        lists.first.as_slice()
    }
}

/// What an event answers from the versions that it names.
fn answered(alloc: Global, versions: &[ListPair], event: Event) -> Result<Outcome, AllocError>
    requires base_in { event_name event.base < length versions.now }
    requires other_in { event_name event.other < length versions.now }
    ensures { IfOk result (Gives (effect event.op (list_at versions.now event.base) (list_at versions.now event.other) event.arg)) }
{
    let base = list_of(versions, event.base);
    let other = list_of(versions, event.other);
    outcome_of(alloc, event.op, base, other, event.arg)
}

/// The replies of a script's events, in order. The name 0, which no event has, stands for empty lists.
fn replies_of(alloc: Global, events: &[Event]) -> Result<Vec<Reply>, AllocError>
    requires { IsScript events.now }
    ensures { IfOk result (λ replies. replies.items ≡ map (reply_to (event_of events.now)) events.now) }
{
    let mut versions = Vec::new(alloc);
    versions.push(ListPair {
        first: Vec::new(alloc),
        second: Vec::new(alloc),
    })?;
    let mut replies = Vec::new(alloc);
    for event in events {
        let outcome = answered(alloc, versions.as_slice(), *event)?;
        let base = list_of(versions.as_slice(), event.base);
        let second = second_of(alloc, event.op, base, event.arg)?;
        versions.push(ListPair {
            first: outcome.list,
            second,
        })?;
        replies.push(outcome.reply)?;
    }
    Ok(replies)
}

/// Runs the events of a script one after the other, each on the lists of the versions that it names, and answers
/// their replies in order. This is the plain, slow program: it copies a list for every version and keeps them all.
/// `NoMemory` comes only where memory can't be had.
pub fn plain_run(alloc: Global, events: &[Event]) -> Result<Vec<Reply>, NoMemory>
    requires { IsScript events.now }
    ensures { IfOk result (λ replies. replies.items ≡ map (reply_to (event_of events.now)) events.now) }
{
    match replies_of(alloc, events) {
        Ok(replies) => Ok(replies),
        Err(_) => Err(NoMemory),
    }
}
