//! The empty sequence, and the items at the ends of a sequence.
ghost use Rattle.std.specs.Prelude.{◌≡◌, ◌≤◌, true, false, Some, [], option_map};
ghost use Rattle.lazy_rec.specs.declared.places.Item.{Item};
ghost use Rattle.lazy_rec.specs.Named.{is_pending};
ghost use Rattle.lazy_rec.specs.Meaning.{means};
ghost use Rattle.heap_store.specs.World.{recs, holds};
ghost use Rattle.heap_store.specs.Lawful.{is_root, is_of_level};
ghost use Rattle.heap_store.specs.Hand.{IsInHand};
ghost use Rattle.heap_store.specs.View.{Quiet};
ghost use Rattle.heap_store.specs.Jobs.{Filled};
ghost use Rattle.finger_level.specs.Few.{few_list};
ghost use Rattle.finger_level.specs.Reads.{is_tree_value};
ghost use Rattle.finger_apps.specs.Sequence.{end_of, at_side, is_leaf};

use finger_level::{Few, Side, read_digit};
use heap_store::{Heap, Run};
use lazy_rec::{Item, Kind, Rec, Ref};

/// The empty sequence. It takes no place: every store has an empty tree.
pub fn new_seq<H: Heap>(h: &mut H, run: &mut Run) -> Ref
    requires held { IsInHand (H.view h.old).hand run.old }
    requires size { run.old.next ≡ run.old.end }
    ensures filled { Filled (H.view h.old) (H.view h.new) run.old.next run.old.end }
    ensures spent { run.new.next ≡ run.new.end }
    ensures root { holds (recs (H.view h.new).seen) result.0 (is_root (recs (H.view h.new).seen) Kind.Seq result.0) ≡ true }
    ensures value { holds (recs (H.view h.new).seen) result.0 is_pending ≡ false }
    ensures empty { means (recs (H.view h.new).seen) result.0 ≡ [] }
    ensures credits { (H.view h.old).hand.credits ≤ (H.view h.new).hand.credits }
{
    Ref(4)
}

/// The item at an end of a sequence, from the place of its root. It reads one digit.
pub fn end_item<H: Heap>(h: &mut H, side: Side, root: Ref) -> Option<u64>
    requires value { holds (recs (H.view h.old).seen) root.0 is_tree_value ≡ true }
    requires of_level { is_of_level (recs (H.view h.old).seen) root.0 0 ≡ true }
    ensures quiet { Quiet (H.view h.old) (H.view h.new) }
    ensures item { end_of side (means (recs (H.view h.old).seen) root.0) ≡ result }
{
    match h.read(root) {
        Rec::Single { elem, .. } => Some(leaf_item(h, elem).0),
        Rec::Deep { left, right, .. } => {
            let digit = place_at(side, left, right);
            let few = read_digit(h, digit);
            Some(leaf_item(h, end_element(side, few)).0)
        }
        _ => None,
    }
}

/// One of two places, by the side.
fn place_at(side: Side, left: Ref, right: Ref) -> Ref
    ensures { result ≡ at_side side left right }
{
    match side {
        Side::Left => left,
        Side::Right => right,
    }
}

/// The first or the last element of a digit.
fn end_element(side: Side, few: Few) -> Ref
    ensures { end_of side (few_list few) ≡ Some result.0 }
{
    match side {
        Side::Left => match few {
            Few::One(a) | Few::Two(a, _) | Few::Three(a, _, _) | Few::Four(a, _, _, _) => a,
        },
        Side::Right => match few {
            Few::One(a) | Few::Two(_, a) | Few::Three(_, _, a) | Few::Four(_, _, _, a) => a,
        },
    }
}

/// The item of a leaf.
fn leaf_item<H: Heap>(h: &mut H, leaf: Ref) -> Item
    requires { holds (recs (H.view h.old).seen) leaf.0 is_leaf ≡ true }
    ensures quiet { Quiet (H.view h.old) (H.view h.new) }
    ensures item { recs (H.view h.old).seen leaf.0 ≡ Some (Rec.Leaf result) }
{
    match h.read(leaf) {
        Rec::Leaf { item } => item,
        _ => unreachable!(),
    }
}
