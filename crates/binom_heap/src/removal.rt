//! The tree with the least root of a list, the trees before it put again, and its children in rising ranks.
ghost use Rattle.std.specs.Prelude.{◌≡◌, ltb, cond, true, Some};
ghost use Rattle.heap_store.specs.World.{recs};
ghost use Rattle.heap_store.specs.View.{Quiet};
ghost use Rattle.heap_store.specs.Forest.{forest, is_trees_only, ranks_rise};
ghost use Rattle.binom_heap.specs.Laying.{Laid};
ghost use Rattle.binom_heap.specs.Removal.{least_of, first_onto, turned, tree_count, IsLeast, MayPutAgain, MayTurn};

use crate::trees::{first_tree, put_cell, tree_cell};
use heap_store::{Heap, Run};
use lazy_rec::{Item, Ref};

/// The first tree with the least root of a list: the list that begins with it, its root, and how many trees stand before it.
#[derive(Clone, Copy)]
pub struct LeastTree {
    pub at: Ref,
    pub item: Item,
    pub before: u32,
}

/// The first tree with the least root of a list, if it has any.
pub(crate) fn least_tree<H: Heap>(h: &mut H, list: Ref) -> Option<LeastTree>
    requires trees { is_trees_only (recs (H.view h.old).seen) list.0 ≡ true }
    requires rise { ranks_rise 0 (forest (recs (H.view h.old).seen) list.0) ≡ true }
    ensures quiet { Quiet (H.view h.old) (H.view h.new) }
    ensures least { IsLeast (H.view h.new).seen list.0 (least_of (forest (recs (H.view h.new).seen) list.0)) result }
{
    let Some(first) = first_tree(h, list) else {
        return None;
    };
    let mut least = LeastTree {
        at: list,
        item: first.tree.item,
        before: 0,
    };
    let mut passed = 1;
    let mut rest = first.rest;
    while let Some(next) = first_tree(h, rest) {
        let here = LeastTree {
            at: rest,
            item: next.tree.item,
            before: passed,
        };
        least = lesser(least, here);
        passed += 1;
        rest = next.rest;
    }
    Some(least)
}

/// Of two trees the one with the lesser root, of equal ones the first.
#[inline(always)]
fn lesser(first: LeastTree, later: LeastTree) -> LeastTree
    ensures { result ≡ cond (ltb later.item.0 first.item.0) later first }
{
    if later.item.0 < first.item.0 {
        later
    } else {
        first
    }
}

/// The first trees of a list, so many, put again in front of another list. It takes a place for each of them.
#[inline(never)]
pub(crate) fn put_again<H: Heap>(h: &mut H, list: Ref, count: u32, onto: Ref, run: &mut Run) -> Ref
    requires { MayPutAgain (H.view h.old) run.old list.0 count onto.0 }
    ensures { Laid (H.view h.old) (H.view h.new) run.old run.new count result.0 (first_onto count (forest (recs (H.view h.old).seen) list.0) (forest (recs (H.view h.old).seen) onto.0)) }
{
    if count == 0 {
        return onto;
    }
    let Some(first) = tree_cell(h, list) else {
        unreachable!()
    };
    let more = put_again(h, first.rest, count - 1, onto, run);
    put_cell(h, first.tree, more, run)
}

/// The trees of a list in the other order, in front of another list. It takes a place for each of them.
#[inline(always)]
pub(crate) fn turn<H: Heap>(h: &mut H, list: Ref, onto: Ref, run: &mut Run) -> Ref
    requires { MayTurn (H.view h.old) run.old list.0 onto.0 }
    ensures { Laid (H.view h.old) (H.view h.new) run.old run.new (tree_count (forest (recs (H.view h.old).seen) list.0)) result.0 (turned (forest (recs (H.view h.old).seen) list.0) (forest (recs (H.view h.old).seen) onto.0)) }
{
    let mut turned = onto;
    let mut rest = list;
    while let Some(first) = tree_cell(h, rest) {
        turned = put_cell(h, first.tree, turned, run);
        rest = first.rest;
    }
    turned
}
