//! Tops of heaps.
ghost use Rattle.std.specs.Prelude.{◌≡◌, ◌+◌, ◌<◌, ◌≤◌, true, Some, []};
ghost use Rattle.lazy_rec.specs.Meaning.{means};
ghost use Rattle.lazy_rec.specs.Numbers.{zeros};
ghost use Rattle.lazy_rec.specs.Plain.{most_items};
ghost use Rattle.heap_store.specs.World.{recs, holds};
ghost use Rattle.heap_store.specs.Lawful.{is_root};
ghost use Rattle.heap_store.specs.Hand.{IsInHand};
ghost use Rattle.heap_store.specs.Budget.{gain_at};
ghost use Rattle.heap_store.specs.View.{Quiet};
ghost use Rattle.heap_store.specs.Jobs.{Filled};
ghost use Rattle.binom_heap.specs.Heap.{top_record, owed_after, IsNewTop, MayMeld, Melded};

use crate::trees::NO_TREES;
use heap_store::{Heap, Run};
use lazy_rec::{Kind, Rec, Ref, trailing_ones};

/// The fields of a heap's top: its list of trees, which may be suspended, its number of items, and how many units of the newest
/// inserts are owed yet.
#[derive(Clone, Copy)]
pub struct Top {
    pub list: Ref,
    pub size: u32,
    pub owed: u8,
}

/// The empty heap, in the one place of a run.
pub fn new_heap<H: Heap>(h: &mut H, run: &mut Run) -> Ref
    requires held { IsInHand (H.view h.old).hand run.old }
    requires size { run.old.next + 1 ≡ run.old.end }
    ensures filled { Filled (H.view h.old) (H.view h.new) run.old.next run.old.end }
    ensures spent { run.new.next ≡ run.new.end }
    ensures root { holds (recs (H.view h.new).seen) result.0 (is_root (recs (H.view h.new).seen) Kind.Heap result.0) ≡ true }
    ensures empty { means (recs (H.view h.new).seen) result.0 ≡ [] }
    ensures credits { (H.view h.old).hand.credits ≤ (H.view h.new).hand.credits }
{
    h.put(
        run,
        Rec::HeapTop {
            list: NO_TREES,
            size: 0,
            owed: 0,
        },
    )
}

/// The top at the root of a heap.
pub(crate) fn read_top<H: Heap>(h: &mut H, root: Ref) -> Top
    requires { holds (recs (H.view h.old).seen) root.0 (is_root (recs (H.view h.old).seen) Kind.Heap root.0) ≡ true }
    ensures quiet { Quiet (H.view h.old) (H.view h.new) }
    ensures top { recs (H.view h.old).seen root.0 ≡ Some (top_record result) }
{
    match h.read(root) {
        Rec::HeapTop { list, size, owed } => Top { list, size, owed },
        _ => unreachable!(),
    }
}

/// Publishes a top, in the last place of a run. It spends a credit for each unit that the top shows first.
#[inline(always)]
pub(crate) fn put_top<H: Heap>(h: &mut H, top: Top, run: &mut Run) -> Ref
    requires top { IsNewTop (H.view h.old).seen top run.old.next }
    requires held { IsInHand (H.view h.old).hand run.old }
    requires size { run.old.next + 1 ≡ run.old.end }
    requires credits { gain_at (H.view h.old).seen run.old.next (top_record top) ≤ (H.view h.old).hand.credits }
    ensures filled { Filled (H.view h.old) (H.view h.new) run.old.next run.old.end }
    ensures spent { run.new.next ≡ run.new.end }
    ensures top { recs (H.view h.new).seen result.0 ≡ Some (top_record top) }
    ensures credits { (H.view h.old).hand.credits ≤ (H.view h.new).hand.credits + gain_at (H.view h.old).seen run.old.next (top_record top) }
{
    h.put(
        run,
        Rec::HeapTop {
            list: top.list,
            size: top.size,
            owed: top.owed,
        },
    )
}

/// What is owed after an insert: its steps more, of which its due pays two (Okasaki's debit law).
pub(crate) fn owed_after(owed: u8, size: u32) -> u8
    requires owed { owed ≤ zeros size }
    requires size { size < most_items }
    ensures { result ≡ owed_after owed size }
{
    let with_steps = u32::from(owed) + trailing_ones(u64::from(size)) + 1;
    with_steps.saturating_sub(2) as u8
}

/// Publishes the top of two heaps that are melded: of their suspended merge, which owes nothing, or where one is empty the
/// other's top once more. It spends at most a credit for each tree of both, one, and what both owe.
#[inline(always)]
pub(crate) fn put_meld<H: Heap>(h: &mut H, first: Top, second: Top, run: &mut Run) -> Ref
    requires { MayMeld (H.view h.old) run.old first second }
    ensures { Melded (H.view h.old) (H.view h.new) run.old run.new first second result.0 }
{
    if first.size == 0 {
        return put_top(h, second, run);
    }
    if second.size == 0 {
        return put_top(h, first, run);
    }
    let list = h.put(
        run,
        Rec::HeapMerge {
            list1: first.list,
            list2: second.list,
            n1: first.size,
            n2: second.size,
        },
    );
    let top = Top {
        list,
        size: first.size + second.size,
        owed: 0,
    };
    put_top(h, top, run)
}
