//! The operations of streams, each in one stage.
ghost use Rattle.std.specs.Prelude.{◌≡◌, ◌+◌, ◌≤◌, true};
ghost use Rattle.heap_store.specs.View.{Quiet};
ghost use Rattle.heap_store.specs.Jobs.{IsJob, EventPrepared, IsEventBuildable, IsEventBuilt};
ghost use Rattle.heap_store.specs.OneStage.{ends_at, is_end};
ghost use Rattle.lazy_stream.specs.Stream.{is_stream_work, places_for, looks_at_first, IsReadyEvent};

use crate::stream::{put_top, read_front};
use heap_store::{After, Cursor, EventJob, Heap, Prep, Run, first_cell, value_place};
use lazy_rec::limits::MOST_ITEMS;
use lazy_rec::{Kind, Op, Rec, Ref, Reply};

/// What an operation of a stream needs: `head` and `tail` the first cell of one that isn't empty. The number of places
/// is exact. No operation has cells to pass one by one, so the cursor stays.
pub fn prepare_event<H: Heap>(h: &mut H, job: &EventJob, cursor: &mut Cursor) -> Prep
    requires job { IsJob (H.view h.old).seen job.now }
    requires kind { job.now.base.kind ≡ Kind.Stream }
    ensures quiet { Quiet (H.view h.old) (H.view h.new) }
    ensures cursor { cursor.new ≡ cursor.old }
    ensures answer { EventPrepared is_stream_work IsReadyEvent (H.view h.new).seen job.now result }
{
    let ready = Prep::Ready {
        nodes: places(job.op, job.base.size, job.other.size),
    };
    if !looks(job.op, job.base.size) {
        return ready;
    }
    let front = read_front(h, job.base.root);
    match value_place(h, front) {
        Some(_) => ready,
        None => Prep::Need(front),
    }
}

/// Does an operation of a stream. What replies `Empty` or `TooLong`, `size` and `head` end at the base's root and spend
/// nothing. An `append` and a `reverse` spend at most as many credits as the base has items, which are their dues: so many
/// units does the suspension show first that they publish. Nothing else shows any.
pub fn build_event<H: Heap>(h: &mut H, job: &EventJob, cursor: &Cursor, run: &mut Run) -> After
    requires kind { job.now.base.kind ≡ Kind.Stream }
    requires build { IsEventBuildable IsReadyEvent (H.view h.old) job.now run.old }
    ensures built { IsEventBuilt (H.view h.old) (H.view h.new) job.now run.old run.new result }
    ensures base { run.old.next ≡ run.old.end → ends_at result job.now.base.root.0 ≡ true }
    ensures ends { is_end result ≡ true }
{
    match job.op {
        Op::Cons => cons(h, job, run),
        Op::Append => append(h, job, run),
        Op::Reverse => reverse(h, job, run),
        Op::Tail => tail(h, job, run),
        Op::Head => head(h, job, run),
        _ => job.at_base(Reply::Number(u64::from(job.base.size))),
    }
}

/// Whether an operation looks at the first cell of a stream. A call, since what is inlined here would be computed ahead of the
/// loop over an event's stages, for the events of every kind.
#[inline(never)]
fn looks(op: Op, size: u32) -> bool
    ensures { result ≡ looks_at_first op size }
{
    match op {
        Op::Head | Op::Tail => size > 0,
        _ => false,
    }
}

/// How many places an operation takes. A call, as `looks` is.
#[inline(never)]
fn places(op: Op, size: u32, other: u32) -> u32
    requires size { size ≤ 2147483647 }
    requires other { other ≤ 2147483647 }
    ensures { result ≡ places_for op size other }
{
    match op {
        Op::Cons => { if size == MOST_ITEMS { 0 } else { 2 } }
        Op::Append => {
            if size + other > MOST_ITEMS {
                0
            } else if size == 0 || other == 0 {
                1
            } else {
                2
            }
        }
        Op::Reverse => { if size == 0 { 1 } else { 2 } }
        Op::Tail => { if size == 0 { 0 } else { 1 } }
        _ => 0,
    }
}

/// An event that made a version.
fn ended(root: Ref, size: u32) -> After
    ensures { result ≡ After.End root size Reply.Ok }
{
    After::End {
        root,
        size,
        reply: Reply::Ok,
    }
}

fn cons<H: Heap>(h: &mut H, job: &EventJob, run: &mut Run) -> After
    requires kind { job.now.base.kind ≡ Kind.Stream }
    requires op { job.now.op ≡ Op.Cons }
    requires build { IsEventBuildable IsReadyEvent (H.view h.old) job.now run.old }
    ensures built { IsEventBuilt (H.view h.old) (H.view h.new) job.now run.old run.new result }
    ensures base { run.old.next ≡ run.old.end → ends_at result job.now.base.root.0 ≡ true }
    ensures ends { is_end result ≡ true }
{
    if job.base.size == MOST_ITEMS {
        return job.at_base(Reply::TooLong);
    }
    let item = job.argument();
    let rest = read_front(h, job.base.root);
    let front = h.put(
        run,
        Rec::Cons {
            child: false,
            value: item,
            rest,
        },
    );
    let size = job.base.size + 1;
    let root = put_top(h, front, size, run);
    ended(root, size)
}

fn append<H: Heap>(h: &mut H, job: &EventJob, run: &mut Run) -> After
    requires kind { job.now.base.kind ≡ Kind.Stream }
    requires op { job.now.op ≡ Op.Append }
    requires build { IsEventBuildable IsReadyEvent (H.view h.old) job.now run.old }
    ensures built { IsEventBuilt (H.view h.old) (H.view h.new) job.now run.old run.new result }
    ensures base { run.old.next ≡ run.old.end → ends_at result job.now.base.root.0 ≡ true }
    ensures ends { is_end result ≡ true }
{
    let size = job.base.size + job.other.size;
    if size > MOST_ITEMS {
        return job.at_base(Reply::TooLong);
    }
    let xs = read_front(h, job.base.root);
    let ys = read_front(h, job.other.root);
    if job.base.size == 0 {
        let root = put_top(h, ys, size, run);
        return ended(root, size);
    }
    if job.other.size == 0 {
        let root = put_top(h, xs, size, run);
        return ended(root, size);
    }
    let origin = run.next();
    let front = h.put(
        run,
        Rec::Append {
            xs,
            ys,
            left: job.base.size,
            origin,
            off: 0,
        },
    );
    let root = put_top(h, front, size, run);
    ended(root, size)
}

fn reverse<H: Heap>(h: &mut H, job: &EventJob, run: &mut Run) -> After
    requires kind { job.now.base.kind ≡ Kind.Stream }
    requires op { job.now.op ≡ Op.Reverse }
    requires build { IsEventBuildable IsReadyEvent (H.view h.old) job.now run.old }
    ensures built { IsEventBuilt (H.view h.old) (H.view h.new) job.now run.old run.new result }
    ensures base { run.old.next ≡ run.old.end → ends_at result job.now.base.root.0 ≡ true }
    ensures ends { is_end result ≡ true }
{
    let size = job.base.size;
    let xs = read_front(h, job.base.root);
    if size == 0 {
        let root = put_top(h, xs, size, run);
        return ended(root, size);
    }
    let front = h.put(run, Rec::Reverse { xs, left: size });
    let root = put_top(h, front, size, run);
    ended(root, size)
}

fn tail<H: Heap>(h: &mut H, job: &EventJob, run: &mut Run) -> After
    requires kind { job.now.base.kind ≡ Kind.Stream }
    requires op { job.now.op ≡ Op.Tail }
    requires build { IsEventBuildable IsReadyEvent (H.view h.old) job.now run.old }
    ensures built { IsEventBuilt (H.view h.old) (H.view h.new) job.now run.old run.new result }
    ensures base { run.old.next ≡ run.old.end → ends_at result job.now.base.root.0 ≡ true }
    ensures ends { is_end result ≡ true }
{
    if job.base.size == 0 {
        return job.at_base(Reply::Empty);
    }
    let front = read_front(h, job.base.root);
    let cell = first_cell(h, front);
    let size = job.base.size - 1;
    let root = put_top(h, cell.rest, size, run);
    ended(root, size)
}

fn head<H: Heap>(h: &mut H, job: &EventJob, run: &mut Run) -> After
    requires kind { job.now.base.kind ≡ Kind.Stream }
    requires op { job.now.op ≡ Op.Head }
    requires build { IsEventBuildable IsReadyEvent (H.view h.old) job.now run.old }
    ensures built { IsEventBuilt (H.view h.old) (H.view h.new) job.now run.old run.new result }
    ensures base { run.old.next ≡ run.old.end → ends_at result job.now.base.root.0 ≡ true }
    ensures ends { is_end result ≡ true }
{
    if job.base.size == 0 {
        return job.at_base(Reply::Empty);
    }
    let front = read_front(h, job.base.root);
    let cell = first_cell(h, front);
    job.at_base(Reply::Number(cell.value))
}
