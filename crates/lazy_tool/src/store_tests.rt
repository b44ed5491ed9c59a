//! Scripts over a shared store that one caller has for itself: it shows in the end what the store of one thread shows, word by word
//! and place by place.
ghost use Rattle.std.specs.Prelude.{◌≡◌, ◌+◌, ◌<◌, ◌≤◌, length, IfOk};
ghost use Rattle.lazy_rec.specs.declared.limits.TheConstants.{MOST_EVENTS, MOST_NODES};
ghost use Rattle.lazy_rec.specs.History.{IsScript};
ghost use Rattle.heap_store.specs.Opened.{view_of};
ghost use Rattle.kind_table.specs.Kinds.{AreBuilt};
ghost use Rattle.word_store.specs.Stores.{IsOpened, store_id};

use crate::test_scripts::script_of;
use force_engine::Stack;
use heap_store::PlainHeap;
use lazy_rec::{Event, NoMemory, Ref, SuspState};
use std::alloc::Global;
use std::marker::Brand;
use std::process::Abort;
use std::test::Fail;
use store_runs::run_alone;
use version_book::{BookPass, run_events};
use word_store::{ClosedStore, Naming, Store};

/// How many places, a script, and how many suspensions are done and the steps that they took: three items and two branches, a stream,
/// a real-time queue, a heap, and a rotation in a store that is too small for it.
const SCRIPTS: [(u32, &str, (u64, u64)); 5] = [
    (
        100,
        "lazy 1\nnew bankq\nsnoc 1 10\nsnoc 2 20\nsnoc 3 30\ntail 4\ntail 4\nhead 5\nhead 6\n",
        (3, 4),
    ),
    (
        100,
        "lazy 1\nnew stream\ncons 1 2\ncons 2 1\nappend 3 3\nreverse 4\nhead 5\n",
        (3, 6),
    ),
    (
        200,
        "lazy 1\nnew rtq\nsnoc 1 1\nsnoc 2 2\nsnoc 3 3\nsnoc 4 4\nsnoc 5 5\nsnoc 6 6\nsnoc 7 7\ntail 1\ntail 2\ntail 3\ntail 4\ntail 5\ntail 6\ntail 7\ntail 8\n",
        (4, 4),
    ),
    (
        200,
        "lazy 1\nnew heap\ninsert 1 4\ninsert 2 4\ninsert 3 1\nmin 4\nmin 4\ndelmin 4\nmin 7\n",
        (3, 4),
    ),
    (
        4,
        "lazy 1\nnew bankq\nsnoc 1 5\nhead 2\ntail 2\nhead 4\n",
        (0, 0),
    ),
];

/// The events over the store of one thread.
pub(crate) fn on_plain(alloc: Global, nodes: u32, events: &[Event]) -> Result<PlainHeap, NoMemory>
    requires nodes { nodes ≤ MOST_NODES }
    requires script { IsScript events.now }
    requires built { AreBuilt events.now }
    ensures { IfOk result (λ heap. (view_of heap).named ≡ length events.now) }
{
    let heap = PlainHeap::open(alloc, nodes, events.len() as u32)?;
    let mut pass = BookPass::new(heap, Stack::open(alloc)?, 0);
    let _charged = run_events(&mut pass, events);
    Ok(pass.into_heap())
}

/// Whether the rows of a name have the same words.
fn is_same_row(plain: &PlainHeap, closed: &ClosedStore, name: u32) -> bool
    requires low { 1 ≤ name }
    requires plain { name ≤ (view_of plain.now).named }
    requires closed { name ≤ length closed.now.world.rows }
{
    let words = plain.words(name);
    for i in 0..8 {
        if words[i as usize] != closed.row_word(name, i) {
            return false;
        }
    }
    true
}

/// How many suspensions are done, and the steps that they took, where both stores show the same.
fn done(plain: &PlainHeap, closed: &ClosedStore, places: u32) -> Option<(u64, u64)> {
    let mut forced: u64 = 0;
    let mut all: u64 = 0;
    for place in 0..places {
        let node = plain.node(Ref(place));
        if node != closed.node(Ref(place)) {
            return None;
        }
        if let Some(node) = node {
            if let SuspState::Done { steps, .. } = node.state {
                forced = forced.saturating_add(1);
                all = all.saturating_add(u64::from(steps));
            }
        }
    }
    Some((forced, all))
}

fn compared<J: Naming, R: Abort>(
    rt: &R,
    alloc: Global,
    nodes: u32,
    events: &[Event],
    store: Store,
    expected: (u64, u64),
) -> Result<(), Fail>
    requires name { store_id store ≡ J.store }
    requires nodes { nodes ≤ MOST_NODES }
    requires opened { IsOpened store nodes (length events.now) 1 }
    requires script { IsScript events.now }
    requires built { AreBuilt events.now }
{
    let plain = on_plain(alloc, nodes, events)?;
    let closed = run_alone::<J>(alloc, store, events).ok_or("a closed store")?;
    for i in 0..events.len() {
        assert!(rt; is_same_row(&plain, &closed, i as u32 + 1), "{i}");
    }
    assert_eq!(rt; done(&plain, &closed, nodes + 5), Some(expected));
    Ok(())
}

/// A script, all of whose events are built, over both stores.
fn on_both<R: Abort>(
    rt: &R,
    alloc: Global,
    nodes: u32,
    text: &str,
    expected: (u64, u64),
) -> Result<(), Fail>
    requires { nodes ≤ MOST_NODES }
{
    let script = script_of(alloc, text)?;
    let events = script.events();
    let store = Store::open(alloc, nodes, events.len() as u32, 1)?;
    compared::<Brand, _>(rt, alloc, nodes, events, store, expected)
}

#[test]
fn both_stores(rt: HostRuntime) -> Result<(), Fail> {
    for (nodes, text, expected) in &SCRIPTS {
        on_both(&rt, rt.alloc(), *nodes, text, *expected)?;
    }
    Ok(())
}
