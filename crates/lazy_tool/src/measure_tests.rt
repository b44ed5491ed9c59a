//! Measures, of weights by hand and of the trees that a script leaves.
ghost use Rattle.std.specs.Prelude.{◌≡◌, ◌≤◌, true};
ghost use Rattle.lazy_rec.specs.declared.limits.TheConstants.{MOST_NODES};
ghost use Rattle.heap_store.specs.World.{recs, holds};
ghost use Rattle.heap_store.specs.Opened.{view_of};
ghost use Rattle.finger_level.specs.Reads.{is_tree_rec};

use crate::store_tests::on_plain;
use crate::test_scripts::script_of;
use finger_level::{Cached, Weight, measured_tree};
use heap_store::PlainHeap;
use lazy_rec::{Item, Rec, Ref};
use measures::{Greatest, LastKey, Size};
use std::alloc::Global;
use std::test::Fail;

/// Sizes and keys, with the three measures by hand: of the items 5, 9, 7 the greatest is 9 and the last 7; an item 0; no item.
const WEIGHTS: [(u32, u64, u64, (u128, u128, u128)); 3] = [
    (3, 9, 7, (3, 10, 8)),
    (1, 0, 0, (1, 1, 1)),
    (0, 0, 0, (0, 0, 0)),
];

#[test]
fn weights(rt: HostRuntime) {
    for (size, greatest, last, expected) in &WEIGHTS {
        let by_greatest = Weight {
            size: *size,
            key: Item(*greatest),
        };
        let by_last = Weight {
            size: *size,
            key: Item(*last),
        };
        let three = (
            Size::of_weight(by_last),
            Greatest::of_weight(by_greatest),
            LastKey::of_weight(by_last),
        );
        assert_eq!(rt; three, *expected);
    }
}

/// The store after a script, all of whose events are built.
fn store_of(alloc: Global, nodes: u32, text: &str) -> Result<PlainHeap, Fail>
    requires { nodes ≤ MOST_NODES }
{
    let script = script_of(alloc, text)?;
    Ok(on_plain(alloc, nodes, script.events())?)
}

/// Whether a place has a tree's value.
fn is_tree(heap: &PlainHeap, place: Ref) -> bool
    ensures { result ≡ true → holds (recs (view_of heap.now).seen) place.0 is_tree_rec ≡ true }
{
    match heap.node(place) {
        Some(node) => match node.rec {
            Rec::TEmpty | Rec::Single { .. } | Rec::Deep { .. } => true,
            _ => false,
        },
        None => false,
    }
}

/// The trees of a sequence that three items are pushed onto, by their records alone: they have no item, one, two and three.
#[test]
fn trees_of_a_script(rt: HostRuntime) -> Result<(), Fail> {
    let text = "lazy 1\nnew seq\npushr 1 9\npushl 2 5\npushr 3 7\n";
    let mut heap = store_of(rt.alloc(), 30, text)?;
    let mut trees: u128 = 0;
    for place in 0..35 {
        if is_tree(&heap, Ref(place)) {
            let size = measured_tree::<Size, PlainHeap>(&mut heap, Ref(place));
            assert_eq!(rt; size, trees, "{place}");
            trees = trees.saturating_add(1);
        }
    }
    assert_eq!(rt; trees, 4);
    Ok(())
}
