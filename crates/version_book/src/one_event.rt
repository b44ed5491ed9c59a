//! One event from its beginning to its end, written once for every kind and every store.
ghost use Rattle.std.specs.Prelude.{◌≡◌, ◌<◌, ◌^◌, true, IfOk, IfErr};
ghost use Rattle.lazy_rec.specs.declared.events.Op.TheVariants.{New};
ghost use Rattle.lazy_rec.specs.Due.{may_force};
ghost use Rattle.heap_store.specs.View.{About};
ghost use Rattle.heap_store.specs.declared.jobs.Stage.TheVariants.{Start};
ghost use Rattle.kind_table.specs.Kinds.{is_built};
ghost use Rattle.version_book.specs.Pass.{pass_of};
ghost use Rattle.version_book.specs.RowSteps.{IsCaller, IsPlanned};
ghost use Rattle.version_book.specs.Calls.{IsIdle, HasDrawn, MayExtend, Ended, IsKnown, IsOutcome, IsNew, event_of_call, new_event};

use crate::answers::{Entry, Refuse};
use crate::event_work::{make_empty, work};
use crate::finish::finish;
use crate::forces::Forces;
use crate::row_steps::begin;
use heap_store::{EventJob, Heap, Rows};
use lazy_rec::{Event, Kind, Op};

/// The event of a call: 0 stands in the fields that the operation doesn't use.
pub(crate) fn event_of_call(job: &EventJob) -> Event
    ensures is { result ≡ event_of_call job.now.op job.now.base job.now.other job.now.arg }
    ensures small { job.now.arg < 2 ^ 64 }
{
    Event {
        op: job.op,
        base: job.base.name,
        other: if job.op.uses_other() {
            job.other.name
        } else {
            0
        },
        arg: job.argument(),
    }
}

/// Begins and ends an event, which is that of a job on a base of a kind, in the way in which it is forced.
#[inline(always)]
pub(crate) fn run<R: Rows, F: Forces>(
    heap: &mut R,
    forces: &mut F,
    kind: Kind,
    caller: u32,
    name: u32,
    event: &Event,
    job: &EventJob,
) -> Result<Entry, Refuse>
    requires event { event.now ≡ event_of_call job.now.op job.now.base job.now.other job.now.arg }
    requires small { job.now.arg < 2 ^ 64 }
    requires idle { IsIdle (R.view heap.old) }
    requires caller { IsCaller (R.view heap.old) caller }
    requires may { MayExtend (pass_of (R.view heap.old) caller) name job.now.op job.now.base job.now.other job.now.arg }
    requires kind { job.now.base.kind ≡ kind }
    requires start { job.now.stage ≡ Start }
    requires serves { may_force job.now.base.kind job.now.op ≡ true → F.serves forces.old (R.view heap.old).about ≡ true }
    ensures idle { IsIdle (R.view heap.new) }
    ensures caller { IsCaller (R.view heap.new) caller }
    ensures ended { Ended (pass_of (R.view heap.old) caller) (pass_of (R.view heap.new) caller) name (event_of_call job.now.op job.now.base job.now.other job.now.arg) result }
    ensures known { IfOk result (λ entry. IsKnown (pass_of (R.view heap.new) caller) entry) }
    ensures outcome { IfOk result (λ entry. IsOutcome (pass_of (R.view heap.old) caller) (pass_of (R.view heap.new) caller) job.now.op job.now.base job.now.other job.now.arg entry) }
    ensures memory { IfErr result (λ refuse. refuse ≡ Refuse.NoMemory → may_force job.now.base.kind job.now.op ≡ true) }
    ensures same { (about : About) → F.serves forces.new about ≡ F.serves forces.old about }
{
    begin(heap, caller, name, event);
    let made = work(heap, forces, kind, job);
    finish(heap, name, kind, made)
}

/// Begins and ends `new`.
pub(crate) fn start_new<R: Rows>(
    heap: &mut R,
    caller: u32,
    name: u32,
    kind: Kind,
) -> Result<Entry, Refuse>
    requires idle { IsIdle (R.view heap.old) }
    requires caller { IsCaller (R.view heap.old) caller }
    requires drawn { HasDrawn (pass_of (R.view heap.old) caller) name }
    requires built { is_built kind (New kind) ≡ true }
    requires planned { IsPlanned (R.view heap.old).about.plan name (new_event kind) }
    ensures idle { IsIdle (R.view heap.new) }
    ensures caller { IsCaller (R.view heap.new) caller }
    ensures ended { Ended (pass_of (R.view heap.old) caller) (pass_of (R.view heap.new) caller) name (new_event kind) result }
    ensures known { IfOk result (λ entry. IsKnown (pass_of (R.view heap.new) caller) entry) }
    ensures empty { IfOk result (λ entry. IsNew (pass_of (R.view heap.new) caller) kind entry) }
    ensures memory { IfErr result (λ refuse. refuse ≡ Refuse.NoMemory → ⊥) }
{
    let event = Event {
        op: Op::New(kind),
        base: 0,
        other: 0,
        arg: 0,
    };
    begin(heap, caller, name, &event);
    let made = make_empty(heap, kind);
    finish(heap, name, kind, made)
}
