//! The work of one event, written once for every kind, every store and every way to force.
ghost use Rattle.std.specs.Prelude.{◌≡◌, ◌≤◌, true, [], IfOk, IfErr};
ghost use Rattle.lazy_rec.specs.declared.events.Op.TheVariants.{New};
ghost use Rattle.lazy_rec.specs.Due.{may_force, new_places};
ghost use Rattle.heap_store.specs.View.{About};
ghost use Rattle.heap_store.specs.Jobs.{IsJob};
ghost use Rattle.heap_store.specs.Stages.{direct_of};
ghost use Rattle.kind_table.specs.Kinds.{is_built};
ghost use Rattle.version_book.specs.Works.{Stopped, MadeOutcome, MadeEmpty, HasMeans};

use crate::forces::Forces;
use force_engine::GiveUp;
use heap_store::{After, Cursor, EventJob, Heap, Prep, Rows};
use kind_table::{build_event, new_event, new_places, prepare_event};
use lazy_rec::{Kind, Ref, Reply};

/// What an event makes: the root of its version, the number of items, and the reply.
#[derive(Clone, Copy)]
pub struct Outcome {
    pub root: Ref,
    pub size: u32,
    pub reply: Reply,
}

/// The work of an operation other than `new` on a base of a kind: its stages in order. In each, what it needs is forced first, and its
/// prepare is asked again; then come one reserve and one build. Only an operation that may force asks for a way to.
#[inline(always)]
pub(crate) fn work<R: Rows, F: Forces>(
    heap: &mut R,
    forces: &mut F,
    kind: Kind,
    job: &EventJob,
) -> Result<Outcome, GiveUp>
    requires idle { (R.view heap.old).hand.claims ≡ [] }
    requires job { IsJob (R.view heap.old).seen job.now }
    requires kind { job.now.base.kind ≡ kind }
    requires built { is_built job.now.base.kind job.now.op ≡ true }
    requires means { HasMeans (R.view heap.old) job.now }
    requires serves { may_force job.now.base.kind job.now.op ≡ true → F.serves forces.old (R.view heap.old).about ≡ true }
    ensures ok { IfOk result (λ outcome. MadeOutcome (R.view heap.old) (R.view heap.new) job.now outcome) }
    ensures err { IfErr result (λ cause. Stopped (R.view heap.old) (R.view heap.new) (direct_of job.now) cause) }
    ensures memory { IfErr result (λ cause. cause ≡ GiveUp.NoMemory → may_force job.now.base.kind job.now.op ≡ true) }
    ensures same { (about : About) → F.serves forces.new about ≡ F.serves forces.old about }
{
    let mut now = *job;
    let mut cursor = Cursor::new();
    loop {
        match prepare_event(heap, kind, &now, &mut cursor) {
            Prep::Need(need) => {
                if let Err(cause) = forces.force(heap, need) {
                    return Err(cause);
                }
            }
            Prep::Ready { nodes } => {
                let mut run = match heap.reserve(nodes) {
                    Ok(run) => run,
                    Err(refusal) => return Err(GiveUp::Full(refusal)),
                };
                let after = build_event(heap, kind, &now, &cursor, &mut run);
                run.finish();
                match after {
                    After::End { root, size, reply } => return Ok(Outcome { root, size, reply }),
                    After::Next(next) => {
                        now = next;
                        cursor = Cursor::new();
                    }
                }
            }
        }
    }
}

/// The work of `new`: an empty structure of the kind.
pub(crate) fn make_empty<R: Rows>(heap: &mut R, kind: Kind) -> Result<Outcome, GiveUp>
    requires idle { (R.view heap.old).hand.claims ≡ [] }
    requires built { is_built kind (New kind) ≡ true }
    requires places { new_places kind ≤ (R.view heap.old).hand.allowance }
    ensures ok { IfOk result (λ outcome. MadeEmpty (R.view heap.old) (R.view heap.new) kind outcome) }
    ensures err { IfErr result (λ cause. Stopped (R.view heap.old) (R.view heap.new) (new_places kind) cause) }
    ensures memory { IfErr result (λ cause. cause ≡ GiveUp.NoMemory → ⊥) }
{
    let mut run = match heap.reserve(new_places(kind)) {
        Ok(run) => run,
        Err(refusal) => return Err(GiveUp::Full(refusal)),
    };
    let root = new_event(heap, kind, &mut run);
    run.finish();
    Ok(Outcome {
        root,
        size: 0,
        reply: Reply::Ok,
    })
}
