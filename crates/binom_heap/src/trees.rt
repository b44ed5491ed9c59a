//! Binomial trees, and lists of them in rising ranks: reading, linking, inserting and merging (Okasaki, 3.2).
//!
//! A list of n items has a tree of rank r where the binary digit r of n is 1. A tree that comes in is a 1 that is added: each tree of
//! its rank that it meets is linked with it, as a carry. So an insert of 2 into the list of 5 and of 3 over 4 makes 1 + 11 = 100:
//!
//! ```text
//!     2    5    3             2    3             2
//!               |     link    |    |    link    / \
//!               4     --->    5    4    --->   3   5
//!                                              |
//!                                              4
//!
//!     ranks 0, 0, 1           ranks 1, 1       rank 2
//! ```
//!
//! A link takes two places: a cell of the list of children, which has the other tree first, and the tree that has it.
ghost use Rattle.std.specs.Prelude.{◌≡◌, ◌+◌, ◌*◌, ◌≤◌, true, Some, None, IfSome};
ghost use Rattle.lazy_rec.specs.declared.places.Item.{Item};
ghost use Rattle.heap_store.specs.World.{recs};
ghost use Rattle.heap_store.specs.View.{Quiet};
ghost use Rattle.heap_store.specs.Forest.{no_trees, a_tree, in_front, add_tree, merge, forest, is_trees_only};
ghost use Rattle.binom_heap.specs.Trees.{IsFirst, trees_met, merge_places};
ghost use Rattle.binom_heap.specs.Laying.{MayLink, Linked, MayPutCell, MayInsert, MayMerge, Grown, Laid};

use heap_store::{Heap, Run};
use lazy_rec::{Item, Rec, Ref};

/// The place of the list without trees, one of the fixed places.
pub(crate) const NO_TREES: Ref = Ref(2);

/// A published tree: its place and its fields. A tree of rank r has 2^r items, the least of them at its root.
#[derive(Clone, Copy)]
pub struct BinomialTree {
    pub place: Ref,
    pub rank: u8,
    pub item: Item,
    pub kids: Ref,
}

/// The first tree of a list, and the trees after it.
#[derive(Clone, Copy)]
pub struct FirstTree {
    pub tree: BinomialTree,
    pub rest: Ref,
}

/// The first cell of a list of trees: the place of a tree, and of the trees after it.
#[derive(Clone, Copy)]
pub struct TreeCell {
    pub tree: Ref,
    pub rest: Ref,
}

/// The first cell of a list of trees, if it has one.
#[inline(always)]
pub(crate) fn tree_cell<H: Heap>(h: &mut H, list: Ref) -> Option<TreeCell>
    requires { is_trees_only (recs (H.view h.old).seen) list.0 ≡ true }
    ensures quiet { Quiet (H.view h.old) (H.view h.new) }
    ensures none { result ≡ None → forest (recs (H.view h.old).seen) list.0 ≡ no_trees }
    ensures some { IfSome result (λ c. recs (H.view h.old).seen list.0 ≡ Some (Rec.TCons c.tree c.rest)) }
{
    match h.read(list) {
        Rec::TCons { tree, rest } => Some(TreeCell { tree, rest }),
        _ => None,
    }
}

/// The first tree of a list, if it has one.
#[inline(always)]
pub(crate) fn first_tree<H: Heap>(h: &mut H, list: Ref) -> Option<FirstTree>
    requires { is_trees_only (recs (H.view h.old).seen) list.0 ≡ true }
    ensures quiet { Quiet (H.view h.old) (H.view h.new) }
    ensures none { result ≡ None → forest (recs (H.view h.old).seen) list.0 ≡ no_trees }
    ensures some { IfSome result (λ f. IsFirst (H.view h.old).seen list.0 f) }
{
    let Some(cell) = tree_cell(h, list) else {
        return None;
    };
    match h.read(cell.tree) {
        Rec::Tree { rank, item, kids } => {
            let tree = BinomialTree {
                place: cell.tree,
                rank,
                item,
                kids,
            };
            Some(FirstTree {
                tree,
                rest: cell.rest,
            })
        }
        _ => unreachable!(),
    }
}

/// Links two trees of one rank: the one with the lesser root, of equal ones the first, gets the other as its first child. It
/// takes two places, for the list of children and for the tree.
#[inline(always)]
pub(crate) fn link<H: Heap>(
    h: &mut H,
    first: BinomialTree,
    second: BinomialTree,
    run: &mut Run,
) -> BinomialTree
    requires { MayLink (H.view h.old) run.old first second }
    ensures { Linked (H.view h.old) (H.view h.new) run.old run.new first second result }
{
    if first.item.0 <= second.item.0 {
        put_under(h, first, second, run)
    } else {
        put_under(h, second, first, run)
    }
}

/// The tree that a tree becomes with another one of its rank and of no lesser root as its first child.
#[inline(always)]
fn put_under<H: Heap>(
    h: &mut H,
    top: BinomialTree,
    below: BinomialTree,
    run: &mut Run,
) -> BinomialTree
    requires trees { MayLink (H.view h.old) run.old top below }
    requires order { top.item.0 ≤ below.item.0 }
    ensures { Grown (H.view h.old) (H.view h.new) run.old run.new top below result }
{
    let kids = h.put(
        run,
        Rec::TCons {
            tree: below.place,
            rest: top.kids,
        },
    );
    let rank = top.rank + 1;
    let place = h.put(
        run,
        Rec::Tree {
            rank,
            item: top.item,
            kids,
        },
    );
    BinomialTree {
        place,
        rank,
        item: top.item,
        kids,
    }
}

/// The first tree of a list, if it has one and of this rank.
#[inline(always)]
fn first_of_rank<H: Heap>(h: &mut H, list: Ref, rank: u8) -> Option<FirstTree>
    requires { is_trees_only (recs (H.view h.old).seen) list.0 ≡ true }
    ensures quiet { Quiet (H.view h.old) (H.view h.new) }
    ensures none { result ≡ None → trees_met rank (forest (recs (H.view h.old).seen) list.0) ≡ 0 }
    ensures some { IfSome result (λ f. IsFirst (H.view h.old).seen list.0 f) }
    ensures rank { IfSome result (λ f. f.tree.rank ≡ rank) }
{
    let Some(first) = first_tree(h, list) else {
        return None;
    };
    if first.tree.rank == rank {
        Some(first)
    } else {
        None
    }
}

/// Inserts a tree into a list whose ranks rise from the tree's on: while the list begins with a tree of equal rank, it is linked
/// with it, as a carry in binary numbers. It takes two places for each link, and one.
#[inline(always)]
pub(crate) fn insert_tree<H: Heap>(h: &mut H, tree: BinomialTree, list: Ref, run: &mut Run) -> Ref
    requires { MayInsert (H.view h.old) run.old tree list.0 }
    ensures { Laid (H.view h.old) (H.view h.new) run.old run.new (2 * trees_met tree.rank (forest (recs (H.view h.old).seen) list.0) + 1) result.0 (add_tree tree.rank tree.item.0 (forest (recs (H.view h.old).seen) tree.kids.0) (forest (recs (H.view h.old).seen) list.0)) }
{
    let mut sum = tree;
    let mut rest = list;
    while let Some(first) = first_of_rank(h, rest, sum.rank) {
        sum = link(h, sum, first.tree, run);
        rest = first.rest;
    }
    put_cell(h, sum.place, rest, run)
}

/// A cell that has a tree's place in front of a list.
#[inline(always)]
pub(crate) fn put_cell<H: Heap>(h: &mut H, tree: Ref, list: Ref, run: &mut Run) -> Ref
    requires { MayPutCell (H.view h.old) run.old tree.0 list.0 }
    ensures { Laid (H.view h.old) (H.view h.new) run.old run.new 1 result.0 (in_front (forest (recs (H.view h.old).seen) tree.0) (forest (recs (H.view h.old).seen) list.0)) }
{
    h.put(run, Rec::TCons { tree, rest: list })
}

/// Merges two lists of rising ranks: a tree of a rank that the other list lacks goes in front of what the rests make, and two of
/// one rank are linked and inserted into it.
pub(crate) fn merge<H: Heap>(h: &mut H, list1: Ref, list2: Ref, run: &mut Run) -> Ref
    requires { MayMerge (H.view h.old) run.old list1.0 list2.0 }
    ensures { Laid (H.view h.old) (H.view h.new) run.old run.new (merge_places (forest (recs (H.view h.old).seen) list1.0) (forest (recs (H.view h.old).seen) list2.0)) result.0 (merge (forest (recs (H.view h.old).seen) list1.0) (forest (recs (H.view h.old).seen) list2.0)) }
{
    let Some(a) = first_tree(h, list1) else {
        return list2;
    };
    let Some(b) = first_tree(h, list2) else {
        return list1;
    };
    if a.tree.rank < b.tree.rank {
        let rest = merge(h, a.rest, list2, run);
        return put_cell(h, a.tree.place, rest, run);
    }
    if b.tree.rank < a.tree.rank {
        let rest = merge(h, list1, b.rest, run);
        return put_cell(h, b.tree.place, rest, run);
    }
    let rest = merge(h, a.rest, b.rest, run);
    let linked = link(h, a.tree, b.tree, run);
    insert_tree(h, linked, rest, run)
}
