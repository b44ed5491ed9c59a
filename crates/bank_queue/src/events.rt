//! The operations of banker's queues, each in one stage.
ghost use Rattle.std.specs.Prelude.{◌≡◌, ◌+◌, ◌≤◌, true, Some};
ghost use Rattle.lazy_rec.specs.declared.limits.TheConstants.{MOST_ITEMS};
ghost use Rattle.heap_store.specs.World.{recs};
ghost use Rattle.heap_store.specs.Lawful.{is_any_bank_rotation};
ghost use Rattle.heap_store.specs.View.{Quiet};
ghost use Rattle.heap_store.specs.Jobs.{IsJob, EventPrepared, IsEventBuildable, IsEventBuilt};
ghost use Rattle.heap_store.specs.OneStage.{ends_at, is_end};
ghost use Rattle.bank_queue.specs.Queue.{top_record, places_for, looks_at_front, IsReadyEvent};

use crate::queue::{Top, put_top, read_top};
use heap_store::{After, Cursor, EventJob, Heap, Prep, Run, first_cell, value_place};
use lazy_rec::limits::MOST_ITEMS;
use lazy_rec::{Kind, Op, Rec, Ref, Reply};

/// What an operation of a queue needs: `head` and `tail` the first cell of a front that isn't empty. The number of places
/// is exact. No operation has cells to pass one by one, so the cursor stays.
pub fn prepare_event<H: Heap>(h: &mut H, job: &EventJob, cursor: &mut Cursor) -> Prep
    requires job { IsJob (H.view h.old).seen job.now }
    requires kind { job.now.base.kind ≡ Kind.Bankq }
    ensures quiet { Quiet (H.view h.old) (H.view h.new) }
    ensures cursor { cursor.new ≡ cursor.old }
    ensures answer { EventPrepared is_any_bank_rotation IsReadyEvent (H.view h.new).seen job.now result }
{
    let top = read_top(h, job.base.root);
    let wants = plan(job.op, &top);
    let ready = Prep::Ready { nodes: wants.nodes };
    if !wants.looks {
        return ready;
    }
    match value_place(h, top.front) {
        Some(_) => ready,
        None => Prep::Need(top.front),
    }
}

/// Does an operation of a queue. What replies `Empty` or `TooLong`, `size` and `head` end at the base's root and spend
/// nothing. A `snoc` spends one credit at most and a `tail` two, which are their dues: as many units does the new top show
/// first.
pub fn build_event<H: Heap>(h: &mut H, job: &EventJob, cursor: &Cursor, run: &mut Run) -> After
    requires kind { job.now.base.kind ≡ Kind.Bankq }
    requires build { IsEventBuildable IsReadyEvent (H.view h.old) job.now run.old }
    ensures built { IsEventBuilt (H.view h.old) (H.view h.new) job.now run.old run.new result }
    ensures base { run.old.next ≡ run.old.end → ends_at result job.now.base.root.0 ≡ true }
    ensures ends { is_end result ≡ true }
{
    match job.op {
        Op::Snoc => snoc(h, job, run),
        Op::Tail => tail(h, job, run),
        Op::Head => head(h, job, run),
        _ => job.at_base(Reply::Number(u64::from(job.base.size))),
    }
}

/// What an operation takes, and whether it looks at the first cell of the front.
#[derive(Clone, Copy)]
struct Wants {
    nodes: u32,
    looks: bool,
}

/// The places that an operation takes, and whether it looks at the front.
fn plan(op: Op, top: &Top) -> Wants
    requires { top.now.lenf + top.now.lenr ≤ MOST_ITEMS }
    ensures nodes { result.nodes ≡ places_for op top.now.lenf top.now.lenr }
    ensures looks { result.looks ≡ looks_at_front op top.now.lenf }
{
    match op {
        Op::Snoc if top.lenf + top.lenr < MOST_ITEMS => Wants {
            nodes: if top.lenr < top.lenf { 2 } else { 3 },
            looks: false,
        },
        Op::Tail if top.lenf > 0 => Wants {
            nodes: if top.lenr < top.lenf { 1 } else { 2 },
            looks: true,
        },
        Op::Head if top.lenf > 0 => Wants {
            nodes: 0,
            looks: true,
        },
        _ => Wants {
            nodes: 0,
            looks: false,
        },
    }
}

fn snoc<H: Heap>(h: &mut H, job: &EventJob, run: &mut Run) -> After
    requires kind { job.now.base.kind ≡ Kind.Bankq }
    requires op { job.now.op ≡ Op.Snoc }
    requires build { IsEventBuildable IsReadyEvent (H.view h.old) job.now run.old }
    ensures built { IsEventBuilt (H.view h.old) (H.view h.new) job.now run.old run.new result }
    ensures base { run.old.next ≡ run.old.end → ends_at result job.now.base.root.0 ≡ true }
    ensures ends { is_end result ≡ true }
{
    if job.base.size == MOST_ITEMS {
        return job.at_base(Reply::TooLong);
    }
    let item = job.argument();
    let top = read_top(h, job.base.root);
    let rear = h.put(
        run,
        Rec::LCons {
            child: false,
            value: item,
            rest: top.rear,
        },
    );
    let longer = Top {
        rear,
        lenr: top.lenr + 1,
        ..top
    };
    let root = put_top(h, longer, run);
    After::End {
        root,
        size: job.base.size + 1,
        reply: Reply::Ok,
    }
}

fn tail<H: Heap>(h: &mut H, job: &EventJob, run: &mut Run) -> After
    requires kind { job.now.base.kind ≡ Kind.Bankq }
    requires op { job.now.op ≡ Op.Tail }
    requires build { IsEventBuildable IsReadyEvent (H.view h.old) job.now run.old }
    ensures built { IsEventBuilt (H.view h.old) (H.view h.new) job.now run.old run.new result }
    ensures base { run.old.next ≡ run.old.end → ends_at result job.now.base.root.0 ≡ true }
    ensures ends { is_end result ≡ true }
{
    let top = read_top(h, job.base.root);
    if top.lenf == 0 {
        return job.at_base(Reply::Empty);
    }
    let cell = first_cell(h, top.front);
    let shorter = Top {
        front: cell.rest,
        lenf: top.lenf - 1,
        tails: top.tails + 1,
        ..top
    };
    let root = put_top(h, shorter, run);
    After::End {
        root,
        size: job.base.size - 1,
        reply: Reply::Ok,
    }
}

fn head<H: Heap>(h: &mut H, job: &EventJob, run: &mut Run) -> After
    requires kind { job.now.base.kind ≡ Kind.Bankq }
    requires op { job.now.op ≡ Op.Head }
    requires build { IsEventBuildable IsReadyEvent (H.view h.old) job.now run.old }
    ensures built { IsEventBuilt (H.view h.old) (H.view h.new) job.now run.old run.new result }
    ensures base { run.old.next ≡ run.old.end → ends_at result job.now.base.root.0 ≡ true }
    ensures ends { is_end result ≡ true }
{
    let top = read_top(h, job.base.root);
    if top.lenf == 0 {
        return job.at_base(Reply::Empty);
    }
    let cell = first_cell(h, top.front);
    job.at_base(Reply::Number(cell.value))
}
