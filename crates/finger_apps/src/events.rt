//! The operations at the ends of sequences: `size`, pushes, pops and looks at both ends, each in one stage.
ghost use Rattle.std.specs.Prelude.{◌≡◌, ◌≤◌, true, false, Some};
ghost use Rattle.lazy_rec.specs.declared.limits.TheConstants.{MOST_ITEMS};
ghost use Rattle.heap_store.specs.World.{recs, holds};
ghost use Rattle.heap_store.specs.Completion.{Made};
ghost use Rattle.heap_store.specs.View.{Quiet};
ghost use Rattle.heap_store.specs.Jobs.{IsJob, EventPrepared, IsEventBuildable, IsEventBuilt};
ghost use Rattle.heap_store.specs.OneStage.{ends_at, is_end};
ghost use Rattle.finger_level.specs.Reads.{is_tree_value};
ghost use Rattle.finger_tree.specs.Work.{is_finger_work};
ghost use Rattle.finger_apps.specs.Sequence.{is_end_op, is_pop, drops, pushes_at, pops_at, looks_at, push_places, shown_at, IsReadyEvent, is_ready};

use crate::sequence::end_item;
use finger_level::{Family, Side, Weight, popped_need, pushed_places, put_popped, put_pushed};
use heap_store::{After, Cursor, EventJob, Heap, Prep, Run, Stage, Version};
use lazy_rec::limits::MOST_ITEMS;
use lazy_rec::{Item, Kind, Op, Rec, Reply};

/// Whether an operation of sequences is built: `size`, and those at the ends.
pub fn is_end_op(op: Op) -> bool
    ensures { result ≡ is_end_op op }
{
    matches!(
        op,
        Op::Size | Op::Pushl | Op::Pushr | Op::Popl | Op::Popr | Op::First | Op::Last
    )
}

/// What an operation at an end of a sequence needs: a pop off a digit of one element the middle, others nothing. A push takes the
/// places of a leaf and of the level that it makes, five at most; a pop those of the level that it leaves, four at most; other
/// operations take none. No operation has cells to pass one by one, so the cursor stays.
pub fn prepare_event<H: Heap>(h: &mut H, job: &EventJob, cursor: &mut Cursor) -> Prep
    requires job { IsJob (H.view h.old).seen job.now }
    requires kind { job.now.base.kind ≡ Kind.Seq }
    requires op { is_end_op job.now.op ≡ true }
    ensures quiet { Quiet (H.view h.old) (H.view h.new) }
    ensures cursor { cursor.new ≡ cursor.old }
    ensures answer { EventPrepared is_finger_work IsReadyEvent (H.view h.new).seen job.now result }
    ensures ready { is_pop job.now.op ≡ false → is_ready result ≡ true }
{
    match job.op {
        Op::Popl => popped_need(h, Side::Left, job.base.root),
        Op::Popr => popped_need(h, Side::Right, job.base.root),
        Op::Pushl => Prep::Ready {
            nodes: places_of_push(h, Side::Left, &job.base),
        },
        Op::Pushr => Prep::Ready {
            nodes: places_of_push(h, Side::Right, &job.base),
        },
        _ => Prep::Ready { nodes: 0 },
    }
}

/// Does an operation at an end of a sequence. What replies `Empty` or `TooLong`, `size`, `first` and `last` end at the base's
/// root and spend nothing. A push or a pop spends at most its due: where a full digit overflows, the suspended push of the node
/// shows as many units as the new size has binary digits, and where a middle is drawn up, what is left of it at most as many as the
/// base's size has.
pub fn build_event<H: Heap>(h: &mut H, job: &EventJob, cursor: &Cursor, run: &mut Run) -> After
    requires kind { job.now.base.kind ≡ Kind.Seq }
    requires op { is_end_op job.now.op ≡ true }
    requires build { IsEventBuildable IsReadyEvent (H.view h.old) job.now run.old }
    ensures built { IsEventBuilt (H.view h.old) (H.view h.new) job.now run.old run.new result }
    ensures base { drops job.now.op job.now.base.size ≡ false → run.old.next ≡ run.old.end → ends_at result job.now.base.root.0 ≡ true }
    ensures ends { is_end result ≡ true }
{
    match job.op {
        Op::Popl => pop(h, Side::Left, job, run),
        Op::Popr => pop(h, Side::Right, job, run),
        Op::Pushl => push(h, Side::Left, job, run),
        Op::Pushr => push(h, Side::Right, job, run),
        Op::First => look(h, Side::Left, job, run),
        Op::Last => look(h, Side::Right, job, run),
        _ => job.at_base(Reply::Number(u64::from(job.base.size))),
    }
}

/// How many places a push takes. They don't depend on the item.
#[inline(always)]
fn places_of_push<H: Heap>(h: &mut H, side: Side, base: &Version) -> u32
    requires value { holds (recs (H.view h.old).seen) base.now.root.0 is_tree_value ≡ true }
    requires size { base.now.size ≤ MOST_ITEMS }
    ensures quiet { Quiet (H.view h.old) (H.view h.new) }
    ensures places { (shown : Made) → shown_at (H.view h.new).seen base.now.root.0 ≡ Some shown → result ≡ push_places side base.now.size shown }
    ensures most { result ≤ 5 }
{
    if base.size == MOST_ITEMS {
        return 0;
    }
    pushed_places(h, side, 1, base.root) + 1
}

/// Pushes an item onto an end.
#[inline(always)]
fn push<H: Heap>(h: &mut H, side: Side, job: &EventJob, run: &mut Run) -> After
    requires kind { job.now.base.kind ≡ Kind.Seq }
    requires op { pushes_at job.now.op side ≡ true }
    requires stage { job.now.stage ≡ Stage.Start }
    requires build { IsEventBuildable IsReadyEvent (H.view h.old) job.now run.old }
    ensures built { IsEventBuilt (H.view h.old) (H.view h.new) job.now run.old run.new result }
    ensures base { run.old.next ≡ run.old.end → ends_at result job.now.base.root.0 ≡ true }
    ensures ends { is_end result ≡ true }
{
    if job.base.size == MOST_ITEMS {
        return job.at_base(Reply::TooLong);
    }
    let item = job.argument();
    let leaf = h.put(run, Rec::Leaf { item: Item(item) });
    let own = Weight {
        size: 1,
        key: Item(item),
    };
    let whole = Weight {
        size: job.base.size + 1,
        key: Item(0),
    };
    let first = &Family::First;
    let root = put_pushed(h, side, leaf, own, job.base.root, whole, first, false, run);
    After::End {
        root,
        size: job.base.size + 1,
        reply: Reply::Ok,
    }
}

/// Takes the item at an end off.
#[inline(always)]
fn pop<H: Heap>(h: &mut H, side: Side, job: &EventJob, run: &mut Run) -> After
    requires kind { job.now.base.kind ≡ Kind.Seq }
    requires op { pops_at job.now.op side ≡ true }
    requires stage { job.now.stage ≡ Stage.Start }
    requires build { IsEventBuildable IsReadyEvent (H.view h.old) job.now run.old }
    ensures built { IsEventBuilt (H.view h.old) (H.view h.new) job.now run.old run.new result }
    ensures base { job.now.base.size ≡ 0 → ends_at result job.now.base.root.0 ≡ true }
    ensures ends { is_end result ≡ true }
{
    if job.base.size == 0 {
        return job.at_base(Reply::Empty);
    }
    let size = job.base.size - 1;
    let whole = Weight { size, key: Item(0) };
    let root = put_popped(h, side, job.base.root, whole, &Family::First, false, run);
    After::End {
        root,
        size,
        reply: Reply::Ok,
    }
}

/// Replies with the item at an end.
#[inline(always)]
fn look<H: Heap>(h: &mut H, side: Side, job: &EventJob, run: &mut Run) -> After
    requires kind { job.now.base.kind ≡ Kind.Seq }
    requires op { looks_at job.now.op side ≡ true }
    requires build { IsEventBuildable IsReadyEvent (H.view h.old) job.now run.old }
    ensures built { IsEventBuilt (H.view h.old) (H.view h.new) job.now run.old run.new result }
    ensures base { run.old.next ≡ run.old.end → ends_at result job.now.base.root.0 ≡ true }
    ensures ends { is_end result ≡ true }
{
    match end_item(h, side, job.base.root) {
        Some(item) => job.at_base(Reply::Number(item)),
        None => job.at_base(Reply::Empty),
    }
}
