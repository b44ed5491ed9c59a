//! Events in order, on one thread.
ghost use Rattle.std.specs.Prelude.{◌≡◌, true, ◌≤◌, ◌<◌, ◌^◌, length, IfOk, IfSome, IfNone};
ghost use Rattle.lazy_rec.specs.declared.limits.TheConstants.{MOST_NODES};
ghost use Rattle.lazy_rec.specs.declared.events.Op.TheVariants.{New};
ghost use Rattle.lazy_rec.specs.Kinds.{uses_base, uses_other};
ghost use Rattle.lazy_rec.specs.Due.{due};
ghost use Rattle.lazy_rec.specs.History.{IsScript};
ghost use Rattle.heap_store.specs.View.{IsLawfulView};
ghost use Rattle.kind_table.specs.Kinds.{AreBuilt};
ghost use Rattle.version_book.specs.Closed.{IsBook};
ghost use Rattle.version_book.specs.RowSteps.{HasLostBase};
ghost use Rattle.version_book.specs.Calls.{IsFound};
ghost use Rattle.version_book.specs.Solo.{IsSolo, UsesEnded, HasTicket, AreBases, ComesNext, RanFor, AreRun, dues_to};

use crate::answers::{Look, Ticket};
use crate::closed::Closed;
use crate::pass::BookPass;
use dues::due;
use force_engine::Stack;
use heap_store::{PlainHeap, Rows, Version};
use lazy_rec::{Event, Kind, NoMemory, Op};
use std::alloc::Global;

/// Draws the next name, where there is one.
#[inline(always)]
fn next_ticket<R: Rows>(pass: &mut BookPass<R>) -> Ticket
    requires solo { IsSolo pass.old }
    requires room { pass.old.view.named < pass.old.view.about.rows }
    ensures drawn { HasTicket pass.old pass.new result.name }
    ensures lawful { IsLawfulView pass.new.view }
{
    match pass.draw() {
        Ok(ticket) => ticket,
        Err(_) => unreachable!(),
    }
}

/// The other version that an event names; none where it is given up. A call, since few events name one.
#[cold]
#[inline(never)]
fn named_other<R: Rows>(pass: &mut BookPass<R>, event: &Event) -> Option<Version>
    requires solo { IsSolo pass.old }
    requires uses { UsesEnded pass.old event.now }
    requires other { uses_other event.now.op ≡ true }
    ensures same { pass.new ≡ pass.old }
    ensures found { IfSome result (λ other. IsFound pass.old.view.seen event.now.other other) }
    ensures lost { IfNone result (HasLostBase pass.old.view event.now) }
{
    match pass.lookup(event.other) {
        Look::Found(other) => Some(other),
        _ => None,
    }
}

/// The other version of an event: its base again where it names none, and none where it is given up.
#[inline(always)]
fn other_version<R: Rows>(pass: &mut BookPass<R>, event: &Event, base: Version) -> Option<Version>
    requires solo { IsSolo pass.old }
    requires uses { UsesEnded pass.old event.now }
    requires base { IsFound pass.old.view.seen event.now.base base }
    ensures same { pass.new ≡ pass.old }
    ensures bases { IfSome result (λ other. AreBases pass.old event.now base other) }
    ensures lost { IfNone result (HasLostBase pass.old.view event.now) }
{
    if event.op.uses_other() {
        named_other(pass, event)
    } else {
        Some(base)
    }
}

fn size(version: &Version) -> u32
    ensures { result ≡ version.now.size }
{
    version.size
}

/// What an event on versions of a kind is charged.
#[inline(always)]
fn charge(kind: Kind, op: Op, base: &Version, other: &Version) -> u64
    ensures value { result ≡ due kind op base.now.size other.now.size }
    ensures small { result < 2 ^ 34 }
{
    due(kind, op, size(base), size(other))
}

/// Runs `new` under the next name, and answers what it was charged.
#[inline(always)]
fn run_new<R: Rows>(pass: &mut BookPass<R>, event: &Event, kind: Kind) -> u64
    requires solo { IsSolo pass.old }
    requires next { ComesNext pass.old event.now }
    requires new { event.now.op ≡ New kind }
    ensures { RanFor pass.old pass.new event.now result }
{
    let ticket = next_ticket(pass);
    let _ = pass.begin_new(ticket, kind);
    due(kind, event.op, 0, 0)
}

/// Skips an event of which a base is given up, under the next name. It is charged nothing.
#[cold]
#[inline(never)]
fn run_lost<R: Rows>(pass: &mut BookPass<R>, event: &Event) -> u64
    requires solo { IsSolo pass.old }
    requires next { ComesNext pass.old event.now }
    requires lost { HasLostBase pass.old.view event.now }
    ensures { RanFor pass.old pass.new event.now result }
{
    let ticket = next_ticket(pass);
    pass.skip(ticket, event);
    0
}

/// Runs an event on a base of a kind under the next name, and answers what it was charged. Inlined, so that the events of each kind are
/// compiled by themselves, and ask for the kind no more.
#[inline(always)]
fn run_on<R: Rows>(pass: &mut BookPass<R>, event: &Event, kind: Kind, base: Version) -> u64
    requires solo { IsSolo pass.old }
    requires next { ComesNext pass.old event.now }
    requires based { uses_base event.now.op ≡ true }
    requires base { IsFound pass.old.view.seen event.now.base base }
    requires kind { base.kind ≡ kind }
    ensures { RanFor pass.old pass.new event.now result }
{
    let Some(other) = other_version(pass, event, base) else {
        return run_lost(pass, event);
    };
    let ticket = next_ticket(pass);
    let _ = pass.call_as(kind, ticket, *event, base, other);
    charge(kind, event.op, &base, &other)
}

/// Runs an event under the next name, from the versions that it names, and answers what it was charged.
#[inline(always)]
fn run_event<R: Rows>(pass: &mut BookPass<R>, event: &Event) -> u64
    requires solo { IsSolo pass.old }
    requires next { ComesNext pass.old event.now }
    ensures { RanFor pass.old pass.new event.now result }
{
    if let Op::New(kind) = event.op {
        return run_new(pass, event, kind);
    }
    let Look::Found(base) = pass.lookup(event.base) else {
        return run_lost(pass, event);
    };
    match base.kind {
        Kind::Stream => run_on(pass, event, Kind::Stream, base),
        Kind::Bankq => run_on(pass, event, Kind::Bankq, base),
        Kind::Rtq => run_on(pass, event, Kind::Rtq, base),
        Kind::Heap => run_on(pass, event, Kind::Heap, base),
        Kind::Seq => run_on(pass, event, Kind::Seq, base),
        _ => unreachable!(),
    }
}

/// Runs the events in order, each from the versions that it names, on a store of which no name is drawn and on which no other
/// works. It answers what they were charged.
#[inline(always)]
pub fn run_events<R: Rows>(pass: &mut BookPass<R>, events: &[Event]) -> u64
    requires solo { IsSolo pass.old }
    requires lawful { IsLawfulView pass.old.view }
    requires fresh { pass.old.view.named ≡ 0 }
    requires rows { pass.old.view.about.rows ≡ length events.now }
    requires script { IsScript events.now }
    requires built { AreBuilt events.now }
    ensures run { AreRun pass.old.view.about.capacity events.now (length events.now) pass.new }
    ensures charged { result ≡ dues_to pass.new.view.seen (length events.now) }
{
    let mut charged = 0;
    for event in events {
        charged += run_event(pass, event);
    }
    charged
}

/// Runs the events in order over a store of so many places, each from the versions that it names.
#[inline(never)]
pub fn solo_book(alloc: Global, nodes: u32, events: &[Event]) -> Result<Closed, NoMemory>
    requires nodes { nodes ≤ MOST_NODES }
    requires script { IsScript events.now }
    requires built { AreBuilt events.now }
    ensures { IfOk result (λ closed. IsBook closed nodes events.now) }
{
    let heap = PlainHeap::open(alloc, nodes, events.len() as u32)?;
    let stack = Stack::open(alloc)?;
    let mut pass = BookPass::new(heap, stack, 0);
    let charged = run_events(&mut pass, events);
    Ok(Closed::of(pass.into_heap(), charged))
}
