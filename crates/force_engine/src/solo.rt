//! Forcing on a heap that no other thread works on.
ghost use Rattle.std.specs.Prelude.{◌≡◌, ℕ, ◌+◌, ◌<◌, ◌≤◌, true, false, List, [], ◌∷◌, ◌++◌, Some, None, reverse, IfOk, IfErr, OnOk, OnErr};
ghost use Rattle.lazy_rec.specs.Named.{is_pending};
ghost use Rattle.heap_store.specs.World.{recs, holds, done_at};
ghost use Rattle.heap_store.specs.Lawful.{height};
ghost use Rattle.heap_store.specs.Jobs.{IsWork, IsReady, cursor_fits};
ghost use Rattle.heap_store.specs.Budget.{is_funded_at};
ghost use Rattle.force_engine.specs.Stacked.{claims_of, places_of, claimed_places, IsStacked, Passed, work};
ghost use Rattle.force_engine.specs.Forced.{IsForcible, IsUndone, IsKept, Forced, GivenBack, GaveUp, IsGivenUp};

use crate::stack::{Frame, Stack};
use heap_store::{Claim, Claims, Cursor, Full, Heap, Jobs, Prep};
use lazy_rec::Ref;
use thiserror::Error;

/// Why a force gave up: a reserve was refused, with its numbers, or memory for the stack couldn't be had.
#[derive(Clone, Copy, Debug, PartialEq, Eq, Error)]
pub enum GiveUp {
    #[error(transparent)]
    Full(Full),
    #[error("{}", lazy_rec::NoMemory)]
    NoMemory,
}

/// Gives every claim back.
fn give_back<C: Claims>(heap: &mut C, stack: &mut Stack, newest: Frame)
    requires claims { (C.view heap.old).hand.claims ≡ claims_of (newest ∷ reverse stack.old) }
    requires room { claimed_places (C.view heap.old) ≤ (C.view heap.old).hand.allowance }
    ensures back { GivenBack (C.view heap.old) (C.view heap.new) (places_of (newest ∷ reverse stack.old)) }
    ensures emptied { stack.new ≡ [] }
{
    heap.give_up(newest.place);
    while let Some(frame) = stack.pop() {
        heap.give_up(frame.place);
    }
}

/// Claims a need of the newest claim, which then waits for it.
fn open_need<C: Claims>(
    heap: &mut C,
    stack: &mut Stack,
    newest: Frame,
    t: Ref,
) -> Result<Frame, GiveUp>
    requires stacked { IsStacked (C.view heap.old) (newest ∷ reverse stack.old) }
    requires pending { holds (recs (C.view heap.old).seen) t.0 is_pending ≡ true }
    requires lower { height (recs (C.view heap.old).seen) t.0 < height (recs (C.view heap.old).seen) newest.place.0 }
    requires not_done { done_at (C.view heap.old).seen t.0 ≡ None }
    requires funded { is_funded_at (C.view heap.old).seen t.0 ≡ true }
    ensures opened { IfOk result (λ need. (need.place ≡ t) × (need.cursor.passed ≡ 0)) }
    ensures waits { IfOk result (λ _. stack.new ≡ stack.old ++ newest ∷ []) }
    ensures stacked { IfOk result (λ need. IsStacked (C.view heap.new) (need ∷ reverse stack.new)) }
    ensures passed { IfOk result (λ _. Passed (C.view heap.old) (C.view heap.new)) }
    ensures falls { IfOk result (λ _. work (C.view heap.new) < work (C.view heap.old)) }
    ensures gave_up { IfErr result (λ cause. GaveUp (C.view heap.old) (C.view heap.new) (places_of (newest ∷ reverse stack.old)) cause) }
    ensures emptied { OnErr result (stack.new ≡ []) }
{
    match stack.push(newest) {
        Ok(()) => {}
        Err(_) => {
            give_back(heap, stack, newest);
            return Err(GiveUp::NoMemory);
        }
    }
    match heap.claim(t) {
        Claim::Won => {}
        Claim::Done(_) | Claim::Busy => unreachable!(),
    }
    Ok(Frame {
        place: t,
        cursor: Cursor::new(),
    })
}

/// Builds and completes the newest claim, whose needs are done.
fn finish<C: Claims, J: Jobs>(
    heap: &mut C,
    jobs: &J,
    stack: &mut Stack,
    newest: Frame,
    nodes: u32,
) -> Result<Ref, GiveUp>
    requires stacked { IsStacked (C.view heap.old) (newest ∷ reverse stack.old) }
    requires work { IsWork (J.does jobs.now) (C.view heap.old).seen newest.place.0 }
    requires cursor { cursor_fits (C.view heap.old).seen newest.place.0 newest.cursor ≡ true }
    requires ready { IsReady (J.told jobs.now) (C.view heap.old).seen newest.place.0 nodes }
    ensures kept { IfOk result (λ place. IsKept (C.view heap.new).seen newest.place.0 place.0) }
    ensures waiting { IfOk result (λ _. stack.new ≡ stack.old) }
    ensures stacked { IfOk result (λ _. IsStacked (C.view heap.new) (reverse stack.new)) }
    ensures passed { IfOk result (λ _. Passed (C.view heap.old) (C.view heap.new)) }
    ensures falls { IfOk result (λ _. work (C.view heap.new) < work (C.view heap.old)) }
    ensures gave_up { IfErr result (λ cause. GaveUp (C.view heap.old) (C.view heap.new) (places_of (newest ∷ reverse stack.old)) cause) }
    ensures emptied { OnErr result (stack.new ≡ []) }
{
    match heap.reserve(nodes) {
        Err(full) => {
            give_back(heap, stack, newest);
            Err(GiveUp::Full(full))
        }
        Ok(mut run) => {
            let built = jobs.build(heap, newest.place, &newest.cursor, &mut run);
            run.finish();
            heap.complete(newest.place, built.place, built.steps);
            Ok(built.place)
        }
    }
}

/// Forces a claimed suspension, the only claim in hand.
fn run<C: Claims, J: Jobs>(
    heap: &mut C,
    jobs: &J,
    stack: &mut Stack,
    first: Frame,
) -> Result<Ref, GiveUp>
    requires stacked { IsStacked (C.view heap.old) (first ∷ []) }
    requires work { IsWork (J.does jobs.now) (C.view heap.old).seen first.place.0 }
    requires cursor { first.cursor.passed ≡ 0 }
    requires empty { stack.old ≡ [] }
    ensures kept { IfOk result (λ place. IsKept (C.view heap.new).seen first.place.0 place.0) }
    ensures idle { OnOk result ((C.view heap.new).hand.claims ≡ []) }
    ensures passed { OnOk result (Passed (C.view heap.old) (C.view heap.new)) }
    ensures gave_up { IfErr result (λ cause. IsGivenUp (C.view heap.old) (C.view heap.new) first.place.0 cause) }
    ensures emptied { stack.new ≡ [] }
{
    let mut newest = first;
    loop {
        match jobs.prepare(heap, newest.place, &mut newest.cursor) {
            Prep::Need(t) => newest = open_need(heap, stack, newest, t)?,
            Prep::Ready { nodes } => {
                let place = finish(heap, jobs, stack, newest, nodes)?;
                match stack.pop() {
                    Some(waiting) => newest = waiting,
                    None => return Ok(place),
                }
            }
        }
    }
}

/// The place of the value of `s`: `s` itself where it is a value, else the one place that the suspension keeps once it is
/// done. It always returns. After a refusal each claim was given back.
pub fn force_solo<C: Claims, J: Jobs>(
    heap: &mut C,
    jobs: &J,
    stack: &mut Stack,
    s: Ref,
) -> Result<Ref, GiveUp>
    requires there { IsForcible (J.does jobs.now) (C.view heap.old).seen s.0 }
    requires alone { (C.view heap.old).about.alone ≡ true }
    requires idle { (C.view heap.old).hand.claims ≡ [] }
    requires empty { stack.old ≡ [] }

    ensures value { holds (recs (C.view heap.old).seen) s.0 is_pending ≡ false → IfOk result (λ place. place ≡ s) }
    ensures kept { holds (recs (C.view heap.old).seen) s.0 is_pending ≡ true → IfOk result (λ place. IsKept (C.view heap.new).seen s.0 place.0) }
    ensures forced { OnOk result (Forced (C.view heap.old) (C.view heap.new)) }

    // A value and a suspension that is done are never refused.
    ensures refused { OnErr result (IsUndone (C.view heap.old).seen s.0) }
    ensures gave_up { IfErr result (λ cause. IsGivenUp (C.view heap.old) (C.view heap.new) s.0 cause) }

    ensures idle { (C.view heap.new).hand.claims ≡ [] }
    ensures empty { stack.new ≡ [] }

    // Whatever the answer, what the hand may spend and reserve is no less than before.
    ensures credits { (C.view heap.old).hand.credits ≤ (C.view heap.new).hand.credits }
    ensures allowance { (C.view heap.old).hand.allowance ≤ (C.view heap.new).hand.allowance }
{
    if !heap.read(s).is_pending() {
        return Ok(s);
    }
    match heap.claim(s) {
        Claim::Won => run(
            heap,
            jobs,
            stack,
            Frame {
                place: s,
                cursor: Cursor::new(),
            },
        ),
        Claim::Done(place) => Ok(place),
        Claim::Busy => unreachable!(),
    }
}
