//! Elements pushed onto a level, nothing of which is published yet.
ghost use Rattle.std.specs.Prelude.{◌≡◌, ◌≤◌, ◌+◌, ℕ, suc, Bool, true, Some, List, length};
ghost use Rattle.heap_store.specs.World.{World, recs, holds};
ghost use Rattle.heap_store.specs.Completion.{Made, push_one_left, push_one_right, node_left, node_right};
ghost use Rattle.heap_store.specs.View.{Quiet};
ghost use Rattle.finger_level.specs.Few.{group_list};
ghost use Rattle.finger_level.specs.Level.{made_of, middle_of, middle_takes_left, middle_takes_right, middle_room_left, middle_room_right, room_left, room_right, places_of, middle_places, kept_left, kept_right, kept_of, made_places};
ghost use Rattle.finger_level.specs.Reads.{AreThere, AreUnder, IsThereMiddle, IsUnderMiddle, is_tree_value};
ghost use Rattle.finger_level.specs.Keyed.{HasKeys, AreKeyed, KeyedMiddle, KeyedLevel};
ghost use Rattle.finger_level.specs.Pushes.{push_all, pushed_list, IsPushed};
ghost use Rattle.finger_level.specs.Pops.{shown_at};

use crate::few::{Few, Group};
use crate::level::{Digit, Level, Middle, Nodes, Pushed, Side, few_of};
use crate::pops::{both_ends, either};
use crate::reads::{digit_length, read_level};
use heap_store::Heap;
use lazy_rec::{Rec, Ref};

/// An element pushed onto the left end. A full digit keeps two elements, and three go into the middle as a node.
pub fn push_left(e: Ref, level: Level) -> Level
    requires room { 1 ≤ room_left level }
    ensures made { made_of result ≡ push_one_left e.0 (made_of level) }
    ensures kept { kept_right result ≡ kept_right level }
    ensures places { places_of result ≡ made_places (kept_right level) (made_of result) }
    ensures more { room_left level ≤ suc (room_left result) }
    ensures most { places_of result ≤ 6 }
    ensures stands { (w : World) → AreThere w level → AreThere w result }
    ensures under { (limit : ℕ) → AreUnder limit level → AreUnder limit result }
    ensures keys { (k : Bool) (w : World) → HasKeys k w e.0 → KeyedLevel k w level → KeyedLevel k w result }
{
    match level {
        Level::Empty => Level::One(e),
        Level::One(f) => Level::Deep {
            left: Digit::New(Few::One(e)),
            middle: Middle::Tree(None),
            right: Digit::New(Few::One(f)),
        },
        Level::Deep {
            left,
            middle,
            right,
        } => {
            let (few, middle) = match few_of(left) {
                Few::One(a) => (Few::Two(e, a), middle),
                Few::Two(a, b) => (Few::Three(e, a, b), middle),
                Few::Three(a, b, c) => (Few::Four(e, a, b, c), middle),
                Few::Four(a, b, c, d) => (Few::Two(e, a), node_left(Group::Three(b, c, d), middle)),
            };
            Level::Deep {
                left: Digit::New(few),
                middle,
                right,
            }
        }
    }
}

/// An element pushed onto the right end.
pub fn push_right(level: Level, e: Ref) -> Level
    requires room { 1 ≤ room_right level }
    ensures made { made_of result ≡ push_one_right (made_of level) e.0 }
    ensures kept { kept_left result ≡ kept_left level }
    ensures places { places_of result ≡ made_places (kept_left level) (made_of result) }
    ensures more { room_right level ≤ suc (room_right result) }
    ensures most { places_of result ≤ 6 }
    ensures stands { (w : World) → AreThere w level → AreThere w result }
    ensures under { (limit : ℕ) → AreUnder limit level → AreUnder limit result }
    ensures keys { (k : Bool) (w : World) → HasKeys k w e.0 → KeyedLevel k w level → KeyedLevel k w result }
{
    match level {
        Level::Empty => Level::One(e),
        Level::One(f) => Level::Deep {
            left: Digit::New(Few::One(f)),
            middle: Middle::Tree(None),
            right: Digit::New(Few::One(e)),
        },
        Level::Deep {
            left,
            middle,
            right,
        } => {
            let (few, middle) = match few_of(right) {
                Few::One(a) => (Few::Two(a, e), middle),
                Few::Two(a, b) => (Few::Three(a, b, e), middle),
                Few::Three(a, b, c) => (Few::Four(a, b, c, e), middle),
                Few::Four(a, b, c, d) => {
                    (Few::Two(d, e), node_right(Group::Three(a, b, c), middle))
                }
            };
            Level::Deep {
                left,
                middle,
                right: Digit::New(few),
            }
        }
    }
}

fn node_left(node: Group, middle: Middle) -> Middle
    requires room { middle_takes_left middle ≡ true }
    ensures made { middle_of result ≡ node_left (group_list node) (middle_of middle) }
    ensures more { middle_room_left middle ≤ 3 + middle_room_left result }
    ensures most { middle_places result ≤ 3 }
    ensures stands { (w : World) → IsThereMiddle w result }
    ensures under { (limit : ℕ) → IsUnderMiddle limit result }
    ensures keys { (k : Bool) (w : World) → AreKeyed k w (group_list node) → KeyedMiddle k w middle → KeyedMiddle k w result }
{
    match middle {
        Middle::Tree(tree) => Middle::PushL {
            tree,
            nodes: Nodes::One(node),
        },
        Middle::PushL {
            tree,
            nodes: Nodes::One(other),
        } => Middle::PushL {
            tree,
            nodes: Nodes::Two(node, other),
        },
        _ => unreachable!(),
    }
}

fn node_right(node: Group, middle: Middle) -> Middle
    requires room { middle_takes_right middle ≡ true }
    ensures made { middle_of result ≡ node_right (group_list node) (middle_of middle) }
    ensures more { middle_room_right middle ≤ 3 + middle_room_right result }
    ensures most { middle_places result ≤ 3 }
    ensures stands { (w : World) → IsThereMiddle w result }
    ensures under { (limit : ℕ) → IsUnderMiddle limit result }
    ensures keys { (k : Bool) (w : World) → AreKeyed k w (group_list node) → KeyedMiddle k w middle → KeyedMiddle k w result }
{
    match middle {
        Middle::Tree(tree) => Middle::PushR {
            tree,
            nodes: Nodes::One(node),
        },
        Middle::PushR {
            tree,
            nodes: Nodes::One(other),
        } => Middle::PushR {
            tree,
            nodes: Nodes::Two(other, node),
        },
        _ => unreachable!(),
    }
}

/// The level that the value at a place shows, with elements pushed onto an end of it. Of two elements on the left the second
/// is pushed first.
pub fn pushed_level<H: Heap>(h: &mut H, side: Side, es: Pushed, q: Ref) -> Level
    requires { holds (recs (H.view h.old).seen) q.0 is_tree_value ≡ true }
    ensures quiet { Quiet (H.view h.old) (H.view h.new) }
    ensures pushed { IsPushed (H.view h.new).seen side es q.0 result }
{
    let level = read_level(h, q);
    match side {
        Side::Left => match es {
            Pushed::One(e) => push_left(e, level),
            Pushed::Two(e, f) => push_left(e, push_left(f, level)),
        },
        Side::Right => match es {
            Pushed::One(e) => push_right(level, e),
            Pushed::Two(e, f) => push_right(push_right(level, e), f),
        },
    }
}

/// How many elements are pushed.
pub fn pushed_count(es: Pushed) -> u32
    ensures exact { result ≡ length (pushed_list es) }
    ensures some { 1 ≤ result }
    ensures most { result ≤ 2 }
{
    match es {
        Pushed::One(_) => 1,
        Pushed::Two(_, _) => 2,
    }
}

/// How many places the level takes that the value at a place shows with one or two elements pushed onto an end. They don't depend
/// on the elements, and of the digits only the one at that end is read: where it overflows, a node and a suspended push are made.
pub fn pushed_places<H: Heap>(h: &mut H, side: Side, count: u32, q: Ref) -> u32
    requires value { holds (recs (H.view h.old).seen) q.0 is_tree_value ≡ true }
    requires some { 1 ≤ count }
    requires few { count ≤ 2 }
    ensures quiet { Quiet (H.view h.old) (H.view h.new) }
    ensures places { (es : List ℕ) → length es ≡ count → (shown : Made) → shown_at (H.view h.new).seen q.0 ≡ Some shown → result ≡ made_places (kept_of shown) (push_all side es shown) }
    ensures most { result ≤ 4 }
{
    match h.read(q) {
        Rec::TEmpty => either(count == 1, 1, 3),
        Rec::Single { .. } => 3,
        Rec::Deep { left, right, .. } => {
            let (near, _) = both_ends(side, left, right);
            let before = digit_length(h, near);
            either(before + count > 4, 4, 2)
        }
        _ => unreachable!(),
    }
}
