//! The events of all kinds that are built, told apart by the kind of the base.
ghost use Rattle.std.specs.Prelude.{◌≡◌, ◌+◌, ◌≤◌, [], true, false};
ghost use Rattle.lazy_rec.specs.Named.{is_pending};
ghost use Rattle.lazy_rec.specs.Meaning.{means};
ghost use Rattle.lazy_rec.specs.declared.events.Op.TheVariants.{New, Delmin};
ghost use Rattle.lazy_rec.specs.Due.{new_places};
ghost use Rattle.heap_store.specs.World.{recs, holds};
ghost use Rattle.heap_store.specs.Lawful.{is_root};
ghost use Rattle.heap_store.specs.Hand.{IsInHand};
ghost use Rattle.heap_store.specs.View.{Quiet};
ghost use Rattle.heap_store.specs.Jobs.{IsJob, EventPrepared, Filled, IsEventBuildable, IsEventBuilt};
ghost use Rattle.kind_table.specs.Kinds.{is_any_work, is_built, IsReadyEvent};

use heap_store::{After, Cursor, EventJob, Heap, Prep, Run};
use lazy_rec::{Kind, Ref};

/// How many places an empty structure of the kind takes.
pub fn new_places(kind: Kind) -> u32
    ensures { result ≡ new_places kind }
{
    match kind {
        Kind::Stream | Kind::Bankq | Kind::Rtq | Kind::Heap => 1,
        Kind::Seq | Kind::Prio | Kind::Ord | Kind::Cat => 0,
    }
}

/// An empty structure of the kind, in the places of a run.
pub fn new_event<H: Heap>(h: &mut H, kind: Kind, run: &mut Run) -> Ref
    requires built { is_built kind (New kind) ≡ true }
    requires held { IsInHand (H.view h.old).hand run.old }
    requires size { run.old.next + new_places kind ≡ run.old.end }
    ensures filled { Filled (H.view h.old) (H.view h.new) run.old.next run.old.end }
    ensures spent { run.new.next ≡ run.new.end }
    ensures root { holds (recs (H.view h.new).seen) result.0 (is_root (recs (H.view h.new).seen) kind result.0) ≡ true }
    ensures value { holds (recs (H.view h.new).seen) result.0 is_pending ≡ false }
    ensures empty { means (recs (H.view h.new).seen) result.0 ≡ [] }
    ensures credits { (H.view h.old).hand.credits ≤ (H.view h.new).hand.credits }
{
    match kind {
        Kind::Stream => lazy_stream::new_stream(h, run),
        Kind::Bankq => bank_queue::new_queue(h, run),
        Kind::Rtq => rt_queue::new_queue(h, run),
        Kind::Heap => binom_heap::new_heap(h, run),
        Kind::Seq => finger_apps::new_seq(h, run),
        _ => unreachable!(),
    }
}

/// What a stage of an event needs, or how many places it takes, by the kind of its base. The cursor is handed on to its build: for a
/// `delmin` of a heap alone does it move. Inlined, so that where the kind is known beforehand no stage asks for it.
#[inline(always)]
pub fn prepare_event<H: Heap>(h: &mut H, kind: Kind, job: &EventJob, cursor: &mut Cursor) -> Prep
    requires job { IsJob (H.view h.old).seen job.now }
    requires kind { job.now.base.kind ≡ kind }
    requires built { is_built kind job.now.op ≡ true }
    ensures quiet { Quiet (H.view h.old) (H.view h.new) }
    ensures cursor_stays { (kind ≡ Kind.Heap → job.now.op ≡ Delmin → ⊥) → cursor.new ≡ cursor.old }
    ensures answer { EventPrepared is_any_work (IsReadyEvent cursor.new) (H.view h.new).seen job.now result }
{
    match kind {
        Kind::Stream => lazy_stream::prepare_event(h, job, cursor),
        Kind::Bankq => bank_queue::prepare_event(h, job, cursor),
        Kind::Rtq => rt_queue::prepare_event(h, job, cursor),
        Kind::Heap => binom_heap::prepare_event(h, job, cursor),
        Kind::Seq => finger_apps::prepare_event(h, job, cursor),
        _ => unreachable!(),
    }
}

/// Does a stage of an event whose needs are done: its result, or the next stage. Inlined as `prepare_event` is.
#[inline(always)]
pub fn build_event<H: Heap>(
    h: &mut H,
    kind: Kind,
    job: &EventJob,
    cursor: &Cursor,
    run: &mut Run,
) -> After
    requires kind { job.now.base.kind ≡ kind }
    requires built { is_built kind job.now.op ≡ true }
    requires build { IsEventBuildable (IsReadyEvent cursor.now) (H.view h.old) job.now run.old }
    ensures { IsEventBuilt (H.view h.old) (H.view h.new) job.now run.old run.new result }
{
    match kind {
        Kind::Stream => lazy_stream::build_event(h, job, cursor, run),
        Kind::Bankq => bank_queue::build_event(h, job, cursor, run),
        Kind::Rtq => rt_queue::build_event(h, job, cursor, run),
        Kind::Heap => binom_heap::build_event(h, job, cursor, run),
        Kind::Seq => finger_apps::build_event(h, job, cursor, run),
        _ => unreachable!(),
    }
}
