//! What a tree measures by what its record caches (Hinze and Paterson, section 4).
ghost use Rattle.std.specs.Prelude.{◌≡◌, true, Option, Some, None, List, ℕ, length};
ghost use Rattle.lazy_rec.specs.declared.events.Kind.{Kind};
ghost use Rattle.lazy_rec.specs.declared.events.Kind.TheVariants as kinds;
ghost use Rattle.lazy_rec.specs.Meaning.{means};
ghost use Rattle.measures.specs.Values.{value_of};
ghost use Rattle.heap_store.specs.World.{recs, holds};
ghost use Rattle.heap_store.specs.View.{Quiet};
ghost use Rattle.finger_level.specs.Reads.{is_tree_rec};
ghost use Rattle.finger_level.specs.Measured.{as_items, HasKeysFor, IsKeyFor, key_or_none};

use crate::few::Weight;
use crate::puts::weigh_tree;
use heap_store::Heap;
use lazy_rec::Ref;
use measures::{Greatest, LastKey, Measure, Size};

/// A measure that records cache: its value of the items below a place is told by their weight.
pub trait Cached: Measure {
    // the kind whose keys tell it, or none where the size does
    ghost kind: { Option Kind };

    /// The value of the items that weigh so much.
    fn of_weight(weight: Weight) -> u128
        ensures { (xs : List ℕ) → weight.size ≡ length xs → IsKeyFor kind weight.key.0 xs → result ≡ value_of Self.joined Self.unit_value Self.item_value (as_items xs) };
}

impl Cached for Size {
    ghost kind = { None };

    fn of_weight(weight: Weight) -> u128 {
        weight.size as u128
    }
}

impl Cached for Greatest {
    ghost kind = { Some kinds.Prio };

    fn of_weight(weight: Weight) -> u128 {
        after_key(weight)
    }
}

impl Cached for LastKey {
    ghost kind = { Some kinds.Ord };

    fn of_weight(weight: Weight) -> u128 {
        after_key(weight)
    }
}

/// One more than the key, or 0 where there is no item.
fn after_key(weight: Weight) -> u128
    ensures { result ≡ key_or_none weight.size weight.key.0 }
{
    if weight.size == 0 {
        0
    } else {
        weight.key.0 as u128 + 1
    }
}

/// The value of a tree's items, by one read of its record: of the tree at a place, a suspension or a value.
pub fn measured_tree<M: Cached, H: Heap>(h: &mut H, t: Ref) -> u128
    requires tree { holds (recs (H.view h.old).seen) t.0 is_tree_rec ≡ true }
    requires keys { HasKeysFor M.kind (recs (H.view h.old).seen) t.0 }
    ensures quiet { Quiet (H.view h.old) (H.view h.new) }
    ensures value { result ≡ value_of M.joined M.unit_value M.item_value (as_items (means (recs (H.view h.old).seen) t.0)) }
{
    M::of_weight(weigh_tree(h, t))
}
