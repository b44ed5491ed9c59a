//! The pending work of heaps: an item inserted into a list of trees, and two lists merged (Okasaki, 6.4.1).
ghost use Rattle.std.specs.Prelude.{◌≡◌, true, Some};
ghost use Rattle.heap_store.specs.World.{recs, is_published, is_value};
ghost use Rattle.heap_store.specs.Values.{value_place};
ghost use Rattle.heap_store.specs.View.{Quiet};
ghost use Rattle.heap_store.specs.Jobs.{cursor_fits, Prepared, IsBuildable, IsBuilt};
ghost use Rattle.binom_heap.specs.Work.{is_heap_work, heap_told};

use crate::sizes::{insert_places, merge_places};
use crate::trees::{BinomialTree, NO_TREES, insert_tree, merge};
use heap_store::{Built, Cursor, Heap, Prep, Run, value_place};
use lazy_rec::{Item, Rec, Ref, ones, trailing_ones};

/// What an insert or a merge needs: the trees of its lists. They have no cells to pass one by one, so the cursor stays.
pub fn prepare<H: Heap>(rec: &Rec, h: &mut H, s: Ref, cursor: &mut Cursor) -> Prep
    requires rec { recs (H.view h.old).seen s.0 ≡ Some rec.now }
    requires mine { is_heap_work rec.now ≡ true }
    requires cursor { cursor_fits (H.view h.old).seen s.0 cursor.old ≡ true }
    ensures quiet { Quiet (H.view h.old) (H.view h.new) }
    ensures cursor { cursor_fits (H.view h.new).seen s.0 cursor.new ≡ true }
    ensures answer { Prepared is_heap_work heap_told (H.view h.new).seen s.0 result }
{
    match *rec {
        Rec::HeapInsert { list, size, .. } => match value_place(h, list) {
            Some(_) => Prep::Ready {
                nodes: insert_places(size),
            },
            None => Prep::Need(list),
        },
        Rec::HeapMerge {
            list1,
            list2,
            n1,
            n2,
        } => match value_place(h, list1) {
            Some(_) => match value_place(h, list2) {
                Some(_) => Prep::Ready {
                    nodes: merge_places(n1, n2),
                },
                None => Prep::Need(list2),
            },
            None => Prep::Need(list1),
        },
        _ => unreachable!(),
    }
}

/// Makes the value of an insert or a merge: the list of all trees after linking those of equal rank.
pub fn build<H: Heap>(rec: &Rec, h: &mut H, s: Ref, cursor: &Cursor, run: &mut Run) -> Built
    requires rec { recs (H.view h.old).seen s.0 ≡ Some rec.now }
    requires mine { is_heap_work rec.now ≡ true }
    requires cursor { cursor_fits (H.view h.old).seen s.0 cursor.now ≡ true }
    requires build { IsBuildable heap_told (H.view h.old) s run.old }
    ensures { IsBuilt (H.view h.old) (H.view h.new) s.0 run.old run.new result.place.0 result.steps }
{
    match *rec {
        Rec::HeapInsert { item, list, size } => build_insert(h, s, item, list, size, run),
        Rec::HeapMerge {
            list1,
            list2,
            n1,
            n2,
        } => build_merge(
            h,
            s,
            Merge {
                list1,
                list2,
                n1,
                n2,
            },
            run,
        ),
        _ => unreachable!(),
    }
}

/// The fields of a merge's record.
#[derive(Clone, Copy)]
struct Merge {
    list1: Ref,
    list2: Ref,
    n1: u32,
    n2: u32,
}

/// The place of the trees of a list that is a value or done.
pub(crate) fn trees_of<H: Heap>(h: &mut H, list: Ref) -> Ref
    requires there { is_published (recs (H.view h.old).seen) list.0 ≡ true }
    requires known { is_value (H.view h.old).seen list.0 ≡ true }
    ensures quiet { Quiet (H.view h.old) (H.view h.new) }
    ensures place { value_place (H.view h.new).seen list.0 ≡ Some result.0 }
{
    match value_place(h, list) {
        Some(place) => place,
        None => unreachable!(),
    }
}

fn build_insert<H: Heap>(
    h: &mut H,
    s: Ref,
    item: Item,
    list: Ref,
    size: u32,
    run: &mut Run,
) -> Built
    requires rec { recs (H.view h.old).seen s.0 ≡ Some (Rec.HeapInsert item list size) }
    requires build { IsBuildable heap_told (H.view h.old) s run.old }
    ensures { IsBuilt (H.view h.old) (H.view h.new) s.0 run.old run.new result.place.0 result.steps }
{
    let trees = trees_of(h, list);
    let kids = NO_TREES;
    let place = h.put(
        run,
        Rec::Tree {
            rank: 0,
            item,
            kids,
        },
    );
    let tree = BinomialTree {
        place,
        rank: 0,
        item,
        kids,
    };
    let place = insert_tree(h, tree, trees, run);
    Built {
        place,
        steps: trailing_ones(u64::from(size)) + 1,
    }
}

fn build_merge<H: Heap>(h: &mut H, s: Ref, of: Merge, run: &mut Run) -> Built
    requires rec { recs (H.view h.old).seen s.0 ≡ Some (Rec.HeapMerge of.list1 of.list2 of.n1 of.n2) }
    requires build { IsBuildable heap_told (H.view h.old) s run.old }
    ensures { IsBuilt (H.view h.old) (H.view h.new) s.0 run.old run.new result.place.0 result.steps }
{
    let trees1 = trees_of(h, of.list1);
    let trees2 = trees_of(h, of.list2);
    let place = merge(h, trees1, trees2, run);
    Built {
        place,
        steps: 1 + ones(u64::from(of.n1)) + ones(u64::from(of.n2)),
    }
}
