//! Which lists of events are scripts.

ghost use Rattle.std.specs.Prelude.{◌≡◌, ◌<◌, ◌-◌, suc, true, length, slice_get, IfOk};
ghost use Rattle.lazy_rec.specs.Kinds.{is_trim};
ghost use Rattle.lazy_rec.specs.History.{IsScript, event_of, is_named_well};
ghost use Rattle.plain_model.specs.Scripts.{AreKinds, kind_used, kind_standing};

use lazy_rec::limits::MOST_EVENTS;
use lazy_rec::{Event, Kind, NoMemory, Op, event_name, is_second};
use std::alloc::Global;

/// Whether the fields that the operation doesn't use are 0.
fn is_trim(event: Event) -> bool
    ensures { result ≡ is_trim event }
{
    (event.op.uses_base() || event.base == 0)
        && (event.op.uses_other() || event.other == 0)
        && (event.op.uses_argument() || event.arg == 0)
}

/// The event of a name.
fn event_at(events: &[Event], name: u32) -> Option<Event>
    ensures { result ≡ event_of events.now name }
{
    if name == 0 {
        return None;
    }
    events.get(name as usize - 1).copied()
}

/// Whether a second version is one of a split.
fn is_named_well(events: &[Event], version: u32) -> bool
    ensures { result ≡ is_named_well (event_of events.now) version }
{
    if !is_second(version) {
        return true;
    }
    match event_at(events, event_name(version)) {
        Some(event) => matches!(event.op, Op::Split),
        None => false,
    }
}

/// The kind of a name, of those so far.
fn kind_at(kinds: &[Kind], name: u32) -> Option<Kind>
    requires { 0 < name }
    ensures { result ≡ slice_get kinds.now (name - 1) }
{
    kinds.get(name as usize - 1).copied()
}

/// The kind of a version, where the event after those of these kinds may use it.
fn kind_used(events: &[Event], kinds: &[Kind], version: u32) -> Option<Kind>
    requires { AreKinds events.now kinds.now }
    ensures { result ≡ kind_used (event_of events.now) (suc (length kinds.now)) version }
{
    let name = event_name(version);
    if name == 0 || !is_named_well(events, version) {
        return None;
    }
    kind_at(kinds, name)
}

/// The kind of an event, where it may stand after those of these kinds.
fn kind_next(events: &[Event], kinds: &[Kind], event: Event) -> Option<Kind>
    requires { AreKinds events.now kinds.now }
    ensures { result ≡ kind_standing (event_of events.now) (suc (length kinds.now)) event }
{
    if !is_trim(event) {
        return None;
    }
    if let Op::New(kind) = event.op {
        return Some(kind);
    }
    let kind = kind_used(events, kinds, event.base)?;
    if !kind.has(event.op) {
        return None;
    }
    if event.op.uses_other() {
        let other = kind_used(events, kinds, event.other)?;
        if other != kind {
            return None;
        }
    }
    Some(kind)
}

/// Whether events make a script: at most 200,000, each trim, started from versions of smaller names and of one kind that
/// has its operation, and with a second version named only of a split. One pass, which keeps the kind of each event.
/// `NoMemory` comes only where memory can't be had.
pub fn is_script(alloc: Global, events: &[Event]) -> Result<bool, NoMemory>
    ensures script { IfOk result (λ is. is ≡ true → IsScript events.now) }
    ensures each { IfOk result (λ is. IsScript events.now → is ≡ true) }
{
    if events.len() > MOST_EVENTS as usize {
        return Ok(false);
    }
    let mut kinds = Vec::new(alloc);
    for event in events {
        let Some(kind) = kind_next(events, kinds.as_slice(), *event) else {
            return Ok(false);
        };
        kinds.push(kind)?;
    }
    Ok(true)
}
