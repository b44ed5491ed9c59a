//! What is left of a level whose element at an end is taken, nothing of which is published yet.
ghost use Rattle.std.specs.Prelude.{◌≡◌, ◌≤◌, ◌++◌, ◌∷◌, [], ℕ, Bool, true, cond, Some};
ghost use Rattle.heap_store.specs.World.{World, recs, holds};
ghost use Rattle.heap_store.specs.Completion.{Made, elements, of_digit};
ghost use Rattle.heap_store.specs.View.{Quiet};
ghost use Rattle.finger_level.specs.Few.{few_list, few_of_group, rest_list};
ghost use Rattle.finger_level.specs.Level.{made_of, places_of, made_places};
ghost use Rattle.finger_level.specs.Reads.{AreThere, AreUnder, is_digit_rec, is_tree_value};
ghost use Rattle.finger_level.specs.Keyed.{AreKeyed, KeyedLevel};
ghost use Rattle.finger_level.specs.Pushes.{beside};
ghost use Rattle.finger_level.specs.Pops.{both_ends, what_is_left, level_by, is_single, drawn_places, shown_at, IsUpper, IsDrawn, IsWhole, IsPopped, PopPrepared};

use crate::few::{Few, Group};
use crate::level::{Digit, Level, Middle, Side};
use crate::reads::{digit_length, read_digit, read_node};
use heap_store::{Heap, Prep, value_place};
use lazy_rec::{Rec, Ref};

/// An element at an end of a digit, and what is left of the digit.
#[derive(Clone, Copy)]
pub struct Taken {
    pub element: Ref,
    pub rest: Option<Few>,
}

pub(crate) fn take_end(side: Side, few: Few) -> Taken
    ensures { beside side (result.element.0 ∷ []) (rest_list result.rest) ≡ few_list few }
{
    let (element, rest) = match side {
        Side::Left => match few {
            Few::One(a) => (a, None),
            Few::Two(a, b) => (a, Some(Few::One(b))),
            Few::Three(a, b, c) => (a, Some(Few::Two(b, c))),
            Few::Four(a, b, c, d) => (a, Some(Few::Three(b, c, d))),
        },
        Side::Right => match few {
            Few::One(a) => (a, None),
            Few::Two(a, b) => (b, Some(Few::One(a))),
            Few::Three(a, b, c) => (c, Some(Few::Two(a, b))),
            Few::Four(a, b, c, d) => (d, Some(Few::Three(a, b, c))),
        },
    };
    Taken { element, rest }
}

/// The digits of a deep tree: first that of the side, then the other.
pub(crate) fn both_ends(side: Side, left: Ref, right: Ref) -> (Ref, Ref)
    ensures { result ≡ both_ends side left right }
{
    match side {
        Side::Left => (left, right),
        Side::Right => (right, left),
    }
}

/// The elements of a node, as those of a digit.
pub(crate) fn few_of_group(group: Group) -> Few
    ensures { result ≡ few_of_group group }
{
    match group {
        Group::Two(a, b) => Few::Two(a, b),
        Group::Three(a, b, c) => Few::Three(a, b, c),
    }
}

/// The tree of a digit's elements.
fn digit_level(few: Few) -> Level
    ensures made { made_of result ≡ of_digit (few_list few) }
    ensures places { places_of result ≡ made_places 1 (made_of result) }
    ensures stands { (w : World) → AreThere w result }
    ensures under { (limit : ℕ) → AreUnder limit result }
    ensures keys { (k : Bool) (w : World) → AreKeyed k w (few_list few) → KeyedLevel k w result }
{
    let (left, right) = match few {
        Few::One(a) => return Level::One(a),
        Few::Two(a, b) => (Few::One(a), Few::One(b)),
        Few::Three(a, b, c) => (Few::Two(a, b), Few::One(c)),
        Few::Four(a, b, c, d) => (Few::Two(a, b), Few::Two(c, d)),
    };
    Level::Deep {
        left: Digit::New(left),
        middle: Middle::Tree(None),
        right: Digit::New(right),
    }
}

/// What is left of a deep tree, by what is left of its digit on the side.
fn what_is_left(side: Side, rest: Option<Few>, tree: Ref, other: Digit) -> Middle
    ensures { result ≡ what_is_left side rest tree other }
{
    let Some(few) = rest else {
        return Middle::Tail {
            side,
            tree,
            digit: other,
        };
    };
    let (left, right) = match side {
        Side::Left => (Digit::New(few), other),
        Side::Right => (other, Digit::New(few)),
    };
    Middle::Shorter {
        side,
        left,
        tree,
        right,
    }
}

/// A deep level, from its digit on the side, its middle and its other digit.
fn level_by(side: Side, near: Few, middle: Middle, other: Digit) -> Level
    ensures { result ≡ level_by side near middle other }
{
    let (left, right) = match side {
        Side::Left => (Digit::New(near), other),
        Side::Right => (other, Digit::New(near)),
    };
    Level::Deep {
        left,
        middle,
        right,
    }
}

/// The level that the value of a middle and the digit of one side make, where nothing of the other side's digit is left: the
/// middle's node at that end becomes the digit. `q` is the middle's value, `p` the digit that there is.
pub fn drawn_level<H: Heap>(h: &mut H, side: Side, q: Ref, p: Ref) -> Level
    requires upper { IsUpper (H.view h.old).seen q.0 }
    requires digit { holds (recs (H.view h.old).seen) p.0 is_digit_rec ≡ true }
    ensures quiet { Quiet (H.view h.old) (H.view h.new) }
    ensures drawn { IsDrawn (H.view h.new).seen side q.0 p.0 result }
{
    let few = read_digit(h, p);
    let digit = Digit::Old { place: p, few };
    match h.read(q) {
        Rec::TEmpty => digit_level(few),
        Rec::Single { elem, .. } => {
            let group = read_node(h, elem);
            let node = few_of_group(group);
            level_by(side, node, Middle::Tree(None), digit)
        }
        Rec::Deep {
            left,
            middle,
            right,
            ..
        } => {
            let (near, far) = both_ends(side, left, right);
            let other = read_digit(h, far);
            let whole = read_digit(h, near);
            let taken = take_end(side, whole);
            let group = read_node(h, taken.element);
            let node = few_of_group(group);
            let far = Digit::Old {
                place: far,
                few: other,
            };
            let rest = what_is_left(side, taken.rest, middle, far);
            level_by(side, node, rest, digit)
        }
        _ => unreachable!(),
    }
}

/// What a pop finds at an end of a tree.
#[derive(Clone, Copy)]
pub enum Popped {
    /// No element.
    Nothing,
    /// The element there, and the level that is left.
    Rest { element: Ref, level: Level },
    /// A middle that has to be a value first: without the element nothing is left of the digit.
    Need(Ref),
}

/// The element at an end of the tree whose value is at a place, and the level that is left without it. It looks at the middle
/// only where the element is the only one of its digit.
pub fn popped_level<H: Heap>(h: &mut H, side: Side, root: Ref) -> Popped
    requires { IsWhole (H.view h.old).seen root.0 }
    ensures quiet { Quiet (H.view h.old) (H.view h.new) }
    ensures popped { IsPopped (H.view h.new).seen side root.0 result }
{
    match h.read(root) {
        Rec::TEmpty => Popped::Nothing,
        Rec::Single { elem, .. } => Popped::Rest {
            element: elem,
            level: Level::Empty,
        },
        Rec::Deep {
            left,
            middle,
            right,
            ..
        } => {
            let (near, far) = both_ends(side, left, right);
            let whole = read_digit(h, near);
            let taken = take_end(side, whole);
            let element = taken.element;
            let Some(rest) = taken.rest else {
                return match value_place(h, middle) {
                    Some(q) => {
                        let level = drawn_level(h, side, q, far);
                        Popped::Rest { element, level }
                    }
                    None => Popped::Need(middle),
                };
            };
            let few = read_digit(h, far);
            let other = Digit::Old { place: far, few };
            let level = level_by(side, rest, Middle::Tree(Some(middle)), other);
            Popped::Rest { element, level }
        }
        _ => unreachable!(),
    }
}

/// Whether a digit has one element.
fn has_one<H: Heap>(h: &mut H, p: Ref) -> bool
    requires { holds (recs (H.view h.old).seen) p.0 is_digit_rec ≡ true }
    ensures quiet { Quiet (H.view h.old) (H.view h.new) }
    ensures one { result ≡ is_single (elements (H.view h.new).seen p.0) }
{
    digit_length(h, p) == 1
}

/// So many places where a test holds, or else so many.
pub(crate) fn either(holds: bool, places: u32, other: u32) -> u32
    ensures { result ≡ cond holds places other }
{
    if holds { places } else { other }
}

/// How many places the level takes that is drawn from the middle's value at `q` and the digit at `p`. It reads one digit: that of
/// the side, or of an empty middle the one at `p`.
pub fn drawn_places<H: Heap>(h: &mut H, side: Side, q: Ref, p: Ref) -> u32
    requires value { holds (recs (H.view h.old).seen) q.0 is_tree_value ≡ true }
    requires digit { holds (recs (H.view h.old).seen) p.0 is_digit_rec ≡ true }
    ensures quiet { Quiet (H.view h.old) (H.view h.new) }
    ensures count { (shown : Made) → shown_at (H.view h.new).seen q.0 ≡ Some shown → result ≡ drawn_places side (elements (H.view h.new).seen p.0) shown }
    ensures most { result ≤ 4 }
{
    match h.read(q) {
        Rec::TEmpty => {
            let one = has_one(h, p);
            either(one, 1, 3)
        }
        Rec::Single { .. } => 2,
        Rec::Deep { left, right, .. } => {
            let (near, _) = both_ends(side, left, right);
            let one = has_one(h, near);
            either(one, 3, 4)
        }
        _ => unreachable!(),
    }
}

/// What a pop off the tree whose value is at a place needs, and how many places the level takes that it leaves. It reads the
/// digit of the side alone, and the middle's value where nothing is left of that digit.
#[inline]
pub fn popped_need<H: Heap>(h: &mut H, side: Side, root: Ref) -> Prep
    requires { IsWhole (H.view h.old).seen root.0 }
    ensures quiet { Quiet (H.view h.old) (H.view h.new) }
    ensures answer { PopPrepared (H.view h.new).seen side root.0 result }
{
    match h.read(root) {
        Rec::TEmpty => Prep::Ready { nodes: 0 },
        Rec::Single { .. } => Prep::Ready { nodes: 0 },
        Rec::Deep {
            left,
            middle,
            right,
            ..
        } => {
            let (near, far) = both_ends(side, left, right);
            if !has_one(h, near) {
                return Prep::Ready { nodes: 2 };
            }
            match value_place(h, middle) {
                Some(q) => {
                    let nodes = drawn_places(h, side, q, far);
                    Prep::Ready { nodes }
                }
                None => Prep::Need(middle),
            }
        }
        _ => unreachable!(),
    }
}
