//! The callers of a store: at work under names of their own, at rest, and closed with the store.
ghost use Rattle.std.specs.Prelude.{◌≡◌, ℕ, ◌+◌, ◌<◌, ◌≤◌, [], Some, None, length, map, reverse, slice_get, IfSome};
ghost use Rattle.std.specs.Vec.{vec_len};
ghost use Rattle.heap_store.specs.View.{View};
ghost use Rattle.heap_store.specs.Growth.{Grows};
ghost use Rattle.word_store.specs.Passes.{view_of};
ghost use Rattle.word_store.specs.Stores.{store_id, next_caller, caller_count, place_count, row_count};
ghost use Rattle.word_store.specs.Closing.{IsLast, IsClosing};
ghost use Rattle.store_runs.specs.Crews.{AreFresh, HasAll, HasBegun};
ghost use Rattle.store_runs.specs.Tries.{LeavesHand, IsShare};

use crate::tries::{Share, force_in_turns, need_of_head};
use force_engine::Stack;
use kind_table::AllKinds;
use lazy_rec::Kind;
use std::alloc::Global;
use version_book::BookPass;
use word_store::{ClosedStore, NamedPass, Naming, Store};

/// A caller at work. Its pass follows no plan, and is bound to its number.
#[derive(Drop)]
pub struct Worker<J: Naming> {
    pub pass: BookPass<NamedPass<J>>,
    ghost free: { pass.view.about.plan ≡ None },
    ghost bound: { pass.view.about.caller ≡ Some pass.caller },
}

/// A caller at rest: no claim, no reserved place and no begun row is in hand, so that its store may be closed. It may force what
/// others have made, and counts that.
#[derive(Drop)]
pub struct Resting<J: Naming> {
    pub heap: NamedPass<J>,
    pub share: Share,
    ghost claims: { (view_of heap.pass).hand.claims ≡ [] },
    ghost reserved: { (view_of heap.pass).hand.reserved ≡ [] },
    ghost rows: { (view_of heap.pass).hand.open_rows ≡ [] },
}

/// A worker for each of so many callers that have no pass yet.
pub fn workers<J: Naming>(alloc: Global, store: &mut Store, count: u32) -> Option<Vec<Worker<J>>>
    requires name { store_id store.old ≡ J.store }
    requires few { next_caller store.old + count ≤ caller_count store.old }
    requires small { caller_count store.old ≤ 64 }
    ensures name { store_id store.new ≡ J.store }
    ensures next { IfSome result (λ ws. next_caller store.new ≡ next_caller store.old + vec_len ws) }
    ensures count { IfSome result (λ ws. vec_len ws ≡ count) }
    ensures rows { row_count store.new ≡ row_count store.old }
    ensures fresh { IfSome result (λ ws. AreFresh (place_count store.old) (row_count store.old) (caller_count store.old) (next_caller store.old) (map (λ w. w.pass) ws.items)) }
{
    let mut all = Vec::new(alloc);
    for _ in 0..count {
        let Ok(pass) = store.pass() else {
            return None;
        };
        let caller = pass.caller();
        let Ok(stack) = Stack::open(alloc) else {
            return None;
        };
        let pass = BookPass::new(NamedPass::<J>::new(pass), stack, caller);
        let Ok(()) = all.push(Worker { pass }) else {
            return None;
        };
    }
    Some(all)
}

/// Draws names until none is left, at most so many, and begins and ends an empty queue under each. It answers under how many.
pub fn begin_all<J: Naming>(worker: &mut Worker<J>, most: u32) -> u32
    ensures few { result ≤ most }
    ensures begun { HasBegun worker.old.pass.view worker.new.pass.view result }
    ensures all { result < most → worker.new.pass.view.about.rows ≤ worker.new.pass.view.named }
{
    for count in 0..most {
        let Ok(ticket) = worker.pass.draw() else {
            return count;
        };
        let _ = worker.pass.begin_new(ticket, Kind::Bankq);
    }
    most
}

impl<J: Naming> Worker<J> {
    /// The caller at rest. It has completed nothing.
    pub fn rest(self) -> Resting<J>
        ensures { view_of result.heap.pass ≡ self.pass.view }
    {
        let Worker { pass } = self;
        Resting {
            heap: pass.into_heap(),
            share: Share::new(),
        }
    }
}

impl<J: Naming> Resting<J> {
    /// Forces what `head` of a version needs, in so many turns at most. A number of no version needs nothing.
    pub fn force_head(&mut self, version: u32, turns: u32)
        ensures leaves { LeavesHand (view_of self.old.heap.pass) (view_of self.new.heap.pass) }
        ensures share { IsShare (view_of self.old.heap.pass).seen (view_of self.new.heap.pass).seen self.old.share self.new.share }
    {
        if version == 0 || version > self.heap.rows() {
            return;
        }
        let Some(need) = need_of_head(&mut self.heap, version) else {
            return;
        };
        let _ = force_in_turns(&mut self.heap, &AllKinds, need, turns, &mut self.share);
    }
}

/// Lets all workers rest.
pub fn rest_all<J: Naming>(alloc: Global, mut workers: Vec<Worker<J>>) -> Option<Vec<Resting<J>>>
    ensures count { IfSome result (λ rs. vec_len rs ≡ vec_len workers) }
    ensures views { IfSome result (λ rs. HasAll (map (λ w. w.pass.view) workers.items) (map (λ r. view_of r.heap.pass) rs.items)) }
{
    let mut all = Vec::new(alloc);
    while let Some(worker) = workers.pop() {
        let Ok(()) = all.push(worker.rest()) else {
            return None;
        };
    }
    Some(all)
}

/// Closes the store with all its callers. Its last world extends what each of them had seen, and all is told that `Store::close` tells of
/// their passes, from the last caller's on.
pub fn close_all<J: Naming>(
    alloc: Global,
    store: Store,
    mut callers: Vec<Resting<J>>,
) -> Option<ClosedStore>
    requires name { store_id store ≡ J.store }
    requires all { vec_len callers ≡ next_caller store }
    ensures last { IfSome result IsLast }
    ensures rows { IfSome result (λ l. length l.world.rows ≡ row_count store) }
    ensures closing { IfSome result (λ l. IsClosing (place_count store) (row_count store) (caller_count store) (reverse (map (λ r. r.heap.pass) callers.items)) l) }
    ensures seen { IfSome result (λ l. (j : ℕ) (v : View) → slice_get (map (λ r. view_of r.heap.pass) callers.items) j ≡ Some v → Grows v.seen l.world) }
{
    let mut passes = Vec::new(alloc);
    while let Some(caller) = callers.pop() {
        let Ok(()) = passes.push(caller.heap) else {
            return None;
        };
    }
    match store.close(alloc, passes) {
        Ok(closed) => Some(closed),
        Err(_) => None,
    }
}
