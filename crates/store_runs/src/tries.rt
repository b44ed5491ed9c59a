//! Forces that never wait, on a store that others work on too. What another has claimed is left to it and tried again, in so many
//! turns and no more. There is one claim in hand at a time, of a suspension whose needs are done: so nobody waits for another.
ghost use Rattle.std.specs.Prelude.{◌≡◌, ◌≤◌, true, [], IfSome};
ghost use Rattle.lazy_rec.specs.declared.events.Op.TheVariants.{Head};
ghost use Rattle.lazy_rec.specs.History.{event_name};
ghost use Rattle.heap_store.specs.Budget.{is_funded_at};
ghost use Rattle.heap_store.specs.View.{Quiet};
ghost use Rattle.heap_store.specs.Jobs.{IsWork};
ghost use Rattle.heap_store.specs.declared.jobs.Stage.TheVariants.{Start};
ghost use Rattle.kind_table.specs.Kinds.{is_any_work};
ghost use Rattle.force_engine.specs.Forced.{IsKept};
ghost use Rattle.store_runs.specs.Tries.{LeavesHand, Told, with_one, CountsOne, IsShare};

use heap_store::{Claim, Claims, Cursor, EventJob, Full, Heap, Jobs, Prep, Rows, Stage, Version};
use kind_table::{is_built, prepare_event};
use lazy_rec::{Op, Ref};
use std::thread;
use version_book::{Look, look};

/// How many suspensions a caller has counted, and the steps that they took. Each call that is handed it says which it has counted:
/// suspensions that became done since it began, each once. Who completed them the world doesn't keep.
#[derive(Clone, Copy, Debug, PartialEq, Eq)]
pub struct Share {
    pub forced: u32,
    pub steps: u64,
}

impl Share {
    /// Nothing was completed yet.
    pub fn new() -> Share
        ensures { result ≡ record { forced = 0; steps = 0 } }
    {
        Share {
            forced: 0,
            steps: 0,
        }
    }

    /// One suspension more.
    fn add(&mut self, steps: u32)
        ensures { self.new ≡ with_one self.old steps }
    {
        self.forced = self.forced.saturating_add(1);
        self.steps = self.steps.saturating_add(u64::from(steps));
    }
}

/// What one turn came to: a need must be done first; the suspension is done, by this turn or before; another has the claim; or a
/// reserve was refused, and the claim was given back.
#[derive(Clone, Copy, Debug, PartialEq, Eq)]
pub enum Turn {
    Need(Ref),
    Done(Ref),
    Busy,
    Full(Full),
}

/// One turn at a suspension that is paid for: what it needs, or one try to complete it.
pub fn take_turn<C: Claims, J: Jobs>(heap: &mut C, jobs: &J, s: Ref, share: &mut Share) -> Turn
    requires idle { (C.view heap.old).hand.claims ≡ [] }
    requires work { IsWork (J.does jobs.now) (C.view heap.old).seen s.0 }
    requires funded { is_funded_at (C.view heap.old).seen s.0 ≡ true }
    ensures leaves { LeavesHand (C.view heap.old) (C.view heap.new) }
    ensures told { Told (J.does jobs.now) (C.view heap.new) s.0 result }
    ensures share { CountsOne (C.view heap.old).seen (C.view heap.new).seen s.0 share.old share.new }
{
    let mut cursor = Cursor::new();
    let nodes = match jobs.prepare(heap, s, &mut cursor) {
        Prep::Need(need) => return Turn::Need(need),
        Prep::Ready { nodes } => nodes,
    };
    match heap.claim(s) {
        Claim::Won => {}
        Claim::Done(place) => return Turn::Done(place),
        Claim::Busy => return Turn::Busy,
    }
    match heap.reserve(nodes) {
        Err(full) => {
            heap.give_up(s);
            Turn::Full(full)
        }
        Ok(mut run) => {
            let built = jobs.build(heap, s, &cursor, &mut run);
            run.finish();
            heap.complete(s, built.place, built.steps);
            share.add(built.steps);
            Turn::Done(built.place)
        }
    }
}

/// The place of the value of a suspension that is paid for, if it is done after so many turns. Each turn goes down to a need, or
/// tries to complete what is reached, and begins again.
pub fn force_in_turns<C: Claims, J: Jobs>(
    heap: &mut C,
    jobs: &J,
    s: Ref,
    turns: u32,
    share: &mut Share,
) -> Option<Ref>
    requires idle { (C.view heap.old).hand.claims ≡ [] }
    requires work { IsWork (J.does jobs.now) (C.view heap.old).seen s.0 }
    requires funded { is_funded_at (C.view heap.old).seen s.0 ≡ true }
    ensures leaves { LeavesHand (C.view heap.old) (C.view heap.new) }
    ensures kept { IfSome result (λ place. IsKept (C.view heap.new).seen s.0 place.0) }
    ensures share { IsShare (C.view heap.old).seen (C.view heap.new).seen share.old share.new }
{
    let mut at = s;
    for _ in 0..turns {
        match take_turn(heap, jobs, at, share) {
            Turn::Need(need) => at = need,
            Turn::Done(place) => {
                if at == s {
                    return Some(place);
                }
                at = s;
            }
            Turn::Busy => {
                thread::yield_now();
                at = s;
            }
            Turn::Full(_) => return None,
        }
    }
    None
}

/// The suspension that `head` of a version needs first, where the version is there and its head isn't known yet.
pub fn need_of_head<R: Rows>(heap: &mut R, version: u32) -> Option<Ref>
    requires low { 1 ≤ event_name version }
    requires high { event_name version ≤ (R.view heap.old).about.rows }
    ensures quiet { Quiet (R.view heap.old) (R.view heap.new) }
    ensures need { IfSome result (λ s. IsWork is_any_work (R.view heap.new).seen s.0 × (is_funded_at (R.view heap.new).seen s.0 ≡ true)) }
{
    let Look::Found(base) = look(heap, version) else {
        return None;
    };
    if !is_built(base.kind, Op::Head) {
        return None;
    }
    let job = head_of(base);
    match prepare_event(heap, job.base.kind, &job, &mut Cursor::new()) {
        Prep::Need(need) => Some(need),
        Prep::Ready { .. } => None,
    }
}

/// The job of `head`.
fn head_of(base: Version) -> EventJob
    ensures { result ≡ record { op = Head; base = base; other = base; arg = 0; stage = Start } }
{
    EventJob {
        op: Op::Head,
        base,
        other: base,
        arg: 0,
        stage: Stage::Start,
    }
}
