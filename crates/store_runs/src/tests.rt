ghost use Rattle.std.specs.Prelude.{◌≡◌, ◌≤◌, [], length, IfOk};
ghost use Rattle.lazy_rec.specs.declared.events.Kind.TheVariants.{Bankq};
ghost use Rattle.heap_store.specs.Growth.{Grows};
ghost use Rattle.version_book.specs.Calls.{HasSeen};
ghost use Rattle.word_store.specs.Stores.{IsOpened, store_id};

mod small_calls;
mod suspension;

use super::*;
use heap_store::{Rows, Version};
use lazy_rec::{Kind, Op, Ref, SuspState};
use std::alloc::Global;
use std::marker::Brand;
use std::process::Abort;
use std::test::*;
use std::thread;
use std::thread::Threads;
use version_book::{BookPass, Refuse};
use word_store::{ClosedStore, Naming, Store};

/// How many names and places four callers draw.
const NAMES: u32 = 400;

const PLACES: u32 = 150;

/// How the rows of a closed store ended, by their word 5: 1 with a reply, 2 full.
fn ended_with(closed: &ClosedStore, how: u64) -> u32
    requires { 400 ≤ length closed.now.world.rows }
{
    let mut count: u32 = 0;
    for i in 0..NAMES {
        if closed.row_word(i + 1, 5) == how {
            count = count.saturating_add(1);
        }
    }
    count
}

/// Four threads draw all names, and all places of a store that has too few.
#[test]
fn four_callers(rt: HostRuntime) -> Result<(), Fail> {
    let store = Store::open(rt.alloc(), PLACES, NAMES, 4)?;
    begun_by_four::<Brand, _>(&rt, rt.alloc(), store)
}

fn begun_by_four<J: Naming + Send + Sync, R: Threads + Abort + Sync>(
    rt: &R,
    alloc: Global,
    mut store: Store,
) -> Result<(), Fail>
    requires name { store_id store ≡ J.store }
    requires opened { IsOpened store 150 400 4 }
{
    let mut all = workers::<J>(alloc, &mut store, 4).ok_or("four workers")?;
    thread::for_each_mut(
        rt,
        all.as_mut_slice(),
        4,
        &|_, worker| {
            begin_all(worker, NAMES);
        },
    );
    let all = rest_all(alloc, all).ok_or("four callers")?;
    let closed = close_all(alloc, store, all).ok_or("a closed store")?;
    // each caller draws one name in vain at most, and adds one place in vain at most
    assert!(rt; closed.names() >= 400 && closed.names() <= 404);
    assert!(rt; closed.drawn() >= 150 && closed.drawn() <= 154);
    assert_eq!(rt; ended_with(&closed, 1), PLACES);
    assert_eq!(rt; ended_with(&closed, 2), NAMES - PLACES);
    Ok(())
}

/// How many items a queue has before its next rotation is made, and how many rotations are made of it.
const ITEMS: u32 = 1_022;

const ROTATIONS: u32 = 500;

/// A queue with one item more, under the next name.
fn longer<R: Rows>(pass: &mut BookPass<R>, base: Version) -> Result<Version, Refuse>
    requires free { pass.old.view.about.plan ≡ None }
    requires seen { HasSeen pass.old base }
    requires kind { base.kind ≡ Bankq }
    ensures grows { Grows pass.old.view.seen pass.new.view.seen }
    ensures about { pass.new.view.about ≡ pass.old.view.about }
    ensures caller { pass.new.caller ≡ pass.old.caller }
    ensures seen { IfOk result (λ version. HasSeen pass.new version) }
    ensures kind { IfOk result (λ version. version.kind ≡ Bankq) }
{
    let ticket = pass.draw()?;
    let entry = pass.extend(ticket, Op::Snoc, base, base, 7)?;
    Ok(entry.version)
}

/// A queue with so many items more, each under a name of its own.
fn filled<R: Rows>(pass: &mut BookPass<R>, base: Version, count: u32) -> Result<Version, Refuse>
    requires free { pass.old.view.about.plan ≡ None }
    requires seen { HasSeen pass.old base }
    requires kind { base.kind ≡ Bankq }
    ensures about { pass.new.view.about ≡ pass.old.view.about }
    ensures caller { pass.new.caller ≡ pass.old.caller }
    ensures seen { IfOk result (λ version. HasSeen pass.new version) }
    ensures kind { IfOk result (λ version. version.kind ≡ Bankq) }
{
    let mut last = base;
    for _ in 0..count {
        last = longer(pass, last)?;
    }
    Ok(last)
}

/// So many queues with one item more, all from one.
fn branches<R: Rows>(pass: &mut BookPass<R>, base: Version, count: u32) -> Result<(), Refuse>
    requires free { pass.old.view.about.plan ≡ None }
    requires seen { HasSeen pass.old base }
    requires kind { base.kind ≡ Bankq }
    ensures about { pass.new.view.about ≡ pass.old.view.about }
    ensures caller { pass.new.caller ≡ pass.old.caller }
{
    for _ in 0..count {
        let _branch = longer(pass, base)?;
    }
    Ok(())
}

/// Rotations of one queue, each over the same chain of older ones.
fn made_rotations<J: Naming>(worker: &mut Worker<J>) -> Result<(), Refuse> {
    let ticket = worker.pass.draw()?;
    let empty = worker.pass.begin_new(ticket, Kind::Bankq)?.version;
    let full = filled(&mut worker.pass, empty, ITEMS)?;
    branches(&mut worker.pass, full, ROTATIONS)
}

/// How many suspensions a closed store shows done, and the steps that they took.
fn done(closed: &ClosedStore, places: u32) -> Share {
    let mut share = Share::new();
    for place in 0..places {
        if let Some(node) = closed.node(Ref(place)) {
            if let SuspState::Done { steps, .. } = node.state {
                share.forced = share.forced.saturating_add(1);
                share.steps = share.steps.saturating_add(u64::from(steps));
            }
        }
    }
    share
}

/// Four threads force the heads of all rotations, and with the first one the whole chain of older rotations. Each is completed once.
#[test]
fn four_force_a_chain(rt: HostRuntime) -> Result<(), Fail> {
    let store = Store::open(rt.alloc(), 8_000, 1_523, 4)?;
    forced_by_four::<Brand, _>(&rt, rt.alloc(), store)
}

/// How many turns a caller takes at one head, before it goes on to the next.
const TURNS: u32 = 200;

fn force_heads<J: Naming>(caller: &mut Resting<J>) {
    for i in 0..ROTATIONS {
        caller.force_head(ITEMS + 2 + i, TURNS);
    }
}

fn forced_by_four<J: Naming + Send + Sync, R: Threads + Abort + Sync>(
    rt: &R,
    alloc: Global,
    mut store: Store,
) -> Result<(), Fail>
    requires name { store_id store ≡ J.store }
    requires opened { IsOpened store 8000 1523 4 }
{
    let mut all = workers::<J>(alloc, &mut store, 4).ok_or("four workers")?;
    if let Some(first) = all.as_mut_slice().first_mut() {
        made_rotations(first)?;
    }
    let mut all = rest_all(alloc, all).ok_or("four callers")?;
    thread::for_each_mut(rt, all.as_mut_slice(), 4, &|_, caller| force_heads(caller));
    // what a caller left to another is done by now, or is forced here
    let mut sum = Share::new();
    for caller in all.as_mut_slice() {
        force_heads(caller);
        sum.forced = sum.forced.saturating_add(caller.share.forced);
        sum.steps = sum.steps.saturating_add(caller.share.steps);
    }
    let closed = close_all(alloc, store, all).ok_or("a closed store")?;
    let all_done = Share {
        forced: 509,
        steps: 509,
    };
    assert_eq!(rt; sum, all_done);
    assert_eq!(rt; done(&closed, 8_005), all_done);
    Ok(())
}
