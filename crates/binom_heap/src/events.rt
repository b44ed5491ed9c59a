//! The operations of heaps. An insert, a meld and a size have one stage; a min first publishes a top that owes nothing, and then
//! looks at the trees; so does a delmin, which then takes the least tree out.
ghost use Rattle.std.specs.Prelude.{◌≡◌, ◌^◌, ◌<◌, ◌≤◌, true, slice_get};
ghost use Rattle.lazy_rec.specs.declared.places.Ref.{Ref};
ghost use Rattle.lazy_rec.specs.Meaning.{means};
ghost use Rattle.lazy_rec.specs.Plain.{most_items, told};
ghost use Rattle.heap_store.specs.World.{recs};
ghost use Rattle.heap_store.specs.Forest.{forest, is_trees_only, ranks_rise};
ghost use Rattle.binom_heap.specs.Trees.{weight};
ghost use Rattle.binom_heap.specs.Removal.{least_of};
ghost use Rattle.heap_store.specs.View.{Quiet};
ghost use Rattle.heap_store.specs.Jobs.{IsJob, EventPrepared, IsEventBuildable, IsEventBuilt};
ghost use Rattle.binom_heap.specs.Work.{is_heap_work};
ghost use Rattle.binom_heap.specs.Heap.{meld_places, start_places, removal_places, paid_places, looks_at_trees, ends_at, IsReadyEvent, PointsAt, IsReadyWith};

use crate::heap::{Top, owed_after, put_meld, put_top, read_top};
use crate::removal::{least_tree, put_again, turn};
use crate::trees::{NO_TREES, first_tree};
use crate::work::trees_of;
use heap_store::{After, Cursor, EventJob, Heap, Prep, Run, Stage, value_place};
use lazy_rec::limits::MOST_ITEMS;
use lazy_rec::{Item, Kind, Op, Rec, Ref, Reply};

/// How many places the first stage of an operation takes, at the sizes of the base and of the other.
#[inline(always)]
fn start_places(op: Op, n: u32, m: u32) -> u32
    requires base { n ≤ most_items }
    requires other { m ≤ most_items }
    ensures { result ≡ start_places op n m }
{
    match op {
        Op::Insert => { if n == MOST_ITEMS { 0 } else { 2 } }
        Op::Meld => meld_places(n, m),
        Op::Min | Op::Delmin => { if n == 0 { 0 } else { 1 } }
        _ => 0,
    }
}

/// How many places a meld takes, and the top of what a `delmin` leaves. A call: an insert would compute it ahead.
#[inline(never)]
fn meld_places(n: u32, m: u32) -> u32
    requires base { n ≤ most_items }
    requires other { m ≤ most_items }
    ensures { result ≡ meld_places n m }
{
    if n + m > MOST_ITEMS {
        0
    } else if n == 0 || m == 0 {
        1
    } else {
        2
    }
}

/// Suspends the insert of an item, and shows two units of what is owed at most.
fn insert<H: Heap>(h: &mut H, job: &EventJob, run: &mut Run) -> After
    requires kind { job.now.base.kind ≡ Kind.Heap }
    requires op { job.now.op ≡ Op.Insert }
    requires build { IsEventBuildable IsReadyEvent (H.view h.old) job.now run.old }
    ensures built { IsEventBuilt (H.view h.old) (H.view h.new) job.now run.old run.new result }
    ensures base { run.old.next ≡ run.old.end → ends_at result job.now.base.root.0 ≡ true }
{
    if job.base.size == MOST_ITEMS {
        return job.at_base(Reply::TooLong);
    }
    let item = Item(job.argument());
    let top = read_top(h, job.base.root);
    let list = h.put(
        run,
        Rec::HeapInsert {
            item,
            list: top.list,
            size: top.size,
        },
    );
    let longer = Top {
        list,
        size: top.size + 1,
        owed: owed_after(top.owed, top.size),
    };
    let root = put_top(h, longer, run);
    After::End {
        root,
        size: job.base.size + 1,
        reply: Reply::Ok,
    }
}

/// Suspends the merge of two heaps, and shows all its units and those that both still owe.
fn meld<H: Heap>(h: &mut H, job: &EventJob, run: &mut Run) -> After
    requires kind { job.now.base.kind ≡ Kind.Heap }
    requires op { job.now.op ≡ Op.Meld }
    requires build { IsEventBuildable IsReadyEvent (H.view h.old) job.now run.old }
    ensures built { IsEventBuilt (H.view h.old) (H.view h.new) job.now run.old run.new result }
    ensures base { run.old.next ≡ run.old.end → ends_at result job.now.base.root.0 ≡ true }
{
    let size = job.base.size + job.other.size;
    if size > MOST_ITEMS {
        return job.at_base(Reply::TooLong);
    }
    let first = read_top(h, job.base.root);
    let second = read_top(h, job.other.root);
    let root = put_meld(h, first, second, run);
    After::End {
        root,
        size,
        reply: Reply::Ok,
    }
}

/// The first stage of what looks at the trees: a top that owes nothing pays for the list. Of an empty heap it replies so.
/// Inlined, so that no event's job has to stand in memory.
#[inline(always)]
fn pay<H: Heap>(h: &mut H, job: &EventJob, run: &mut Run) -> After
    requires kind { job.now.base.kind ≡ Kind.Heap }
    requires op { looks_at_trees job.now.op ≡ true }
    requires stage { job.now.stage ≡ Stage.Start }
    requires build { IsEventBuildable IsReadyEvent (H.view h.old) job.now run.old }
    ensures built { IsEventBuilt (H.view h.old) (H.view h.new) job.now run.old run.new result }
    ensures base { run.old.next ≡ run.old.end → ends_at result job.now.base.root.0 ≡ true }
{
    if job.base.size == 0 {
        return job.at_base(Reply::Empty);
    }
    let owing = read_top(h, job.base.root);
    let paid = Top { owed: 0, ..owing };
    let top = put_top(h, paid, run);
    After::Next(EventJob {
        stage: Stage::HeapPaid { top },
        ..*job
    })
}

/// The second stage of a min: the least item, and the top that was paid.
fn min<H: Heap>(h: &mut H, job: &EventJob, top: Ref, run: &mut Run) -> After
    requires kind { job.now.base.kind ≡ Kind.Heap }
    requires op { job.now.op ≡ Op.Min }
    requires stage { job.now.stage ≡ Stage.HeapPaid top }
    requires build { IsEventBuildable IsReadyEvent (H.view h.old) job.now run.old }
    ensures built { IsEventBuilt (H.view h.old) (H.view h.new) job.now run.old run.new result }
    ensures top { ends_at result top.0 ≡ true }
{
    let paid = read_top(h, top);
    let trees = trees_of(h, paid.list);
    let reply = least_reply(h, trees);
    After::End {
        root: top,
        size: job.base.size,
        reply,
    }
}

/// The reply that tells the least item of a list of trees, or that it has none.
fn least_reply<H: Heap>(h: &mut H, trees: Ref) -> Reply
    requires trees { is_trees_only (recs (H.view h.old).seen) trees.0 ≡ true }
    requires rise { ranks_rise 0 (forest (recs (H.view h.old).seen) trees.0) ≡ true }
    ensures quiet { Quiet (H.view h.old) (H.view h.new) }
    ensures least { result ≡ told (slice_get (means (recs (H.view h.old).seen) trees.0) 0) }
{
    match least_tree(h, trees) {
        Some(least) => Reply::Number(least.item.0),
        None => Reply::Empty,
    }
}

/// How many items a full tree of a rank has.
fn tree_size(rank: u8) -> u32
    requires { rank < 32 }
    ensures { result ≡ 2 ^ rank }
{
    1 << rank
}

/// How many places the second stage takes: a min none, and a delmin those of the trees before the least one, of its children,
/// and of the top of both lists. For a delmin the cursor then points at the least tree.
fn paid_places<H: Heap>(h: &mut H, op: Op, size: u32, trees: Ref, cursor: &mut Cursor) -> u32
    requires trees { is_trees_only (recs (H.view h.old).seen) trees.0 ≡ true }
    requires rise { ranks_rise 0 (forest (recs (H.view h.old).seen) trees.0) ≡ true }
    requires size { weight (forest (recs (H.view h.old).seen) trees.0) ≡ size }
    requires most { size ≤ most_items }
    ensures quiet { Quiet (H.view h.old) (H.view h.new) }
    ensures places { result ≡ paid_places op size (forest (recs (H.view h.old).seen) trees.0) }
    ensures cursor { (op ≡ Op.Delmin → ⊥) → cursor.new ≡ cursor.old }
    ensures least { op ≡ Op.Delmin → PointsAt (H.view h.new).seen (forest (recs (H.view h.new).seen) trees.0) (least_of (forest (recs (H.view h.new).seen) trees.0)) cursor.new }
{
    match op {
        Op::Delmin => removal_places(h, size, trees, cursor),
        _ => 0,
    }
}

/// The places of a delmin's second stage, and the least tree by the cursor. A call, since what walks over trees wants the registers for
/// itself.
#[inline(never)]
fn removal_places<H: Heap>(h: &mut H, size: u32, trees: Ref, cursor: &mut Cursor) -> u32
    requires trees { is_trees_only (recs (H.view h.old).seen) trees.0 ≡ true }
    requires rise { ranks_rise 0 (forest (recs (H.view h.old).seen) trees.0) ≡ true }
    requires size { weight (forest (recs (H.view h.old).seen) trees.0) ≡ size }
    requires most { size ≤ most_items }
    ensures quiet { Quiet (H.view h.old) (H.view h.new) }
    ensures places { result ≡ removal_places size (least_of (forest (recs (H.view h.old).seen) trees.0)) }
    ensures least { PointsAt (H.view h.new).seen (forest (recs (H.view h.new).seen) trees.0) (least_of (forest (recs (H.view h.new).seen) trees.0)) cursor.new }
{
    let Some(least) = least_tree(h, trees) else {
        return 0;
    };
    let Some(first) = first_tree(h, least.at) else {
        unreachable!()
    };
    *cursor = Cursor {
        place: least.at,
        passed: least.before,
    };
    let full = tree_size(first.tree.rank);
    let top = meld_places(size - full, full - 1);
    least.before + u32::from(first.tree.rank) + top
}

/// The second stage of a delmin: the list without the first tree of the least root, at which the cursor points, and that tree's
/// children in rising ranks. An empty heap stays.
fn delmin<H: Heap>(h: &mut H, job: &EventJob, top: Ref, cursor: &Cursor, run: &mut Run) -> After
    requires kind { job.now.base.kind ≡ Kind.Heap }
    requires op { job.now.op ≡ Op.Delmin }
    requires stage { job.now.stage ≡ Stage.HeapPaid top }
    requires build { IsEventBuildable (IsReadyWith cursor.now) (H.view h.old) job.now run.old }
    ensures built { IsEventBuilt (H.view h.old) (H.view h.new) job.now run.old run.new result }
{
    if job.base.size == 0 {
        return After::End {
            root: top,
            size: job.base.size,
            reply: Reply::Empty,
        };
    }
    let paid = read_top(h, top);
    let trees = trees_of(h, paid.list);
    let Some(least) = first_tree(h, cursor.place) else {
        unreachable!()
    };
    let full = tree_size(least.tree.rank);
    let rest = put_again(h, trees, cursor.passed, least.rest, run);
    let kids = turn(h, least.tree.kids, NO_TREES, run);
    let first = Top {
        list: rest,
        size: job.base.size - full,
        owed: 0,
    };
    let second = Top {
        list: kids,
        size: full - 1,
        owed: 0,
    };
    let root = put_meld(h, first, second, run);
    After::End {
        root,
        size: job.base.size - 1,
        reply: Reply::Ok,
    }
}

/// What an operation of a heap needs: in the second stage of a min or a delmin the trees of the list. The number of places is exact. No
/// operation has cells to pass one by one: the cursor of a delmin tells its build the least tree, and any other stays.
pub fn prepare_event<H: Heap>(h: &mut H, job: &EventJob, cursor: &mut Cursor) -> Prep
    requires job { IsJob (H.view h.old).seen job.now }
    requires kind { job.now.base.kind ≡ Kind.Heap }
    ensures quiet { Quiet (H.view h.old) (H.view h.new) }
    ensures cursor { (job.now.op ≡ Op.Delmin → ⊥) → cursor.new ≡ cursor.old }
    ensures answer { EventPrepared is_heap_work (IsReadyWith cursor.new) (H.view h.new).seen job.now result }
{
    let Stage::HeapPaid { top } = job.stage else {
        return Prep::Ready {
            nodes: start_places(job.op, job.base.size, job.other.size),
        };
    };
    let paid = read_top(h, top);
    match value_place(h, paid.list) {
        Some(trees) => Prep::Ready {
            nodes: paid_places(h, job.op, job.base.size, trees, cursor),
        },
        None => Prep::Need(paid.list),
    }
}

/// Does a stage of an operation of a heap. What replies `Empty` or `TooLong`, and a size, end at the base's root and spend
/// nothing. An insert spends two credits at most, a meld those of both sizes' digits and one, a min what its base owes,
/// and a delmin in both stages twice as many as its size has digits.
pub fn build_event<H: Heap>(h: &mut H, job: &EventJob, cursor: &Cursor, run: &mut Run) -> After
    requires kind { job.now.base.kind ≡ Kind.Heap }
    requires build { IsEventBuildable (IsReadyWith cursor.now) (H.view h.old) job.now run.old }
    ensures built { IsEventBuilt (H.view h.old) (H.view h.new) job.now run.old run.new result }
    ensures base { job.now.stage ≡ Stage.Start → run.old.next ≡ run.old.end → ends_at result job.now.base.root.0 ≡ true }
    ensures paid { (top : Ref) → job.now.op ≡ Op.Min → job.now.stage ≡ Stage.HeapPaid top → ends_at result top.0 ≡ true }
{
    if let Stage::HeapPaid { top } = job.stage {
        return match job.op {
            Op::Min => min(h, job, top, run),
            Op::Delmin => delmin(h, job, top, cursor, run),
            _ => unreachable!(),
        };
    }
    match job.op {
        Op::Insert => insert(h, job, run),
        Op::Meld => meld(h, job, run),
        Op::Min | Op::Delmin => pay(h, job, run),
        _ => job.at_base(Reply::Number(u64::from(job.base.size))),
    }
}
