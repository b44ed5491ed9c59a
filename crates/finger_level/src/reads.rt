//! What is read of a tree.
ghost use Rattle.std.specs.Prelude.{◌≡◌, ◌≤◌, true, length};
ghost use Rattle.std.specs.List.{AllByRecursion};
ghost use Rattle.lazy_rec.specs.Meaning.{means};
ghost use Rattle.heap_store.specs.World.{recs, holds};
ghost use Rattle.heap_store.specs.Completion.{elements};
ghost use Rattle.heap_store.specs.View.{Quiet};
ghost use Rattle.finger_level.specs.Few.{few_list, group_list, digit_record, few_at, group_at};
ghost use Rattle.finger_level.specs.Reads.{is_element, is_node_rec, is_digit_rec, is_tree_rec, is_tree_value, IsDigitAt, IsNodeAt, LevelRead, IsWeight, IsWeighedAt};

use crate::few::{Few, Group, WeighedFew, Weight};
use crate::level::{Digit, Level, Middle};
use heap_store::Heap;
use lazy_rec::{Rec, Ref};

/// The elements of a digit.
pub fn read_digit<H: Heap>(h: &mut H, p: Ref) -> Few
    requires { holds (recs (H.view h.old).seen) p.0 is_digit_rec ≡ true }
    ensures quiet { Quiet (H.view h.old) (H.view h.new) }
    ensures shown { IsDigitAt (H.view h.old).seen p.0 result }
{
    read_weighed(h, p).few
}

/// The elements of a digit and what it weighs, by one read.
pub fn read_weighed<H: Heap>(h: &mut H, p: Ref) -> WeighedFew
    requires { holds (recs (H.view h.old).seen) p.0 is_digit_rec ≡ true }
    ensures quiet { Quiet (H.view h.old) (H.view h.new) }
    ensures weighed { IsWeighedAt (H.view h.old).seen p.0 result }
{
    match h.read(p) {
        Rec::Digit {
            count,
            e1,
            e2,
            e3,
            e4,
            size,
            key,
        } => WeighedFew {
            few: few_elements(count, e1, e2, e3, e4),
            weight: Weight { size, key },
        },
        _ => unreachable!(),
    }
}

/// How many elements a digit has.
pub(crate) fn digit_length<H: Heap>(h: &mut H, p: Ref) -> u32
    requires { holds (recs (H.view h.old).seen) p.0 is_digit_rec ≡ true }
    ensures quiet { Quiet (H.view h.old) (H.view h.new) }
    ensures exact { result ≡ length (elements (H.view h.new).seen p.0) }
    ensures most { result ≤ 4 }
{
    match h.read(p) {
        Rec::Digit { count, .. } => u32::from(count),
        _ => unreachable!(),
    }
}

/// The elements of a node.
pub fn read_node<H: Heap>(h: &mut H, e: Ref) -> Group
    requires { holds (recs (H.view h.old).seen) e.0 is_node_rec ≡ true }
    ensures quiet { Quiet (H.view h.old) (H.view h.new) }
    ensures shown { IsNodeAt (H.view h.old).seen result e.0 }
{
    match h.read(e) {
        Rec::Node {
            count,
            e1,
            e2,
            e3,
            ..
        } => group_elements(count, e1, e2, e3),
        _ => unreachable!(),
    }
}

pub(crate) fn group_elements(count: u8, e1: Ref, e2: Ref, e3: Ref) -> Group
    ensures { result ≡ group_at count e1 e2 e3 }
{
    if count == 2 {
        Group::Two(e1, e2)
    } else {
        Group::Three(e1, e2, e3)
    }
}

fn few_elements(count: u8, e1: Ref, e2: Ref, e3: Ref, e4: Ref) -> Few
    ensures { result ≡ few_at count e1 e2 e3 e4 }
{
    match count {
        1 => Few::One(e1),
        2 => Few::Two(e1, e2),
        3 => Few::Three(e1, e2, e3),
        _ => Few::Four(e1, e2, e3, e4),
    }
}

/// The top level of a tree, from the place of its value.
pub fn read_level<H: Heap>(h: &mut H, q: Ref) -> Level
    requires { holds (recs (H.view h.old).seen) q.0 is_tree_value ≡ true }
    ensures quiet { Quiet (H.view h.old) (H.view h.new) }
    ensures read { LevelRead (H.view h.new).seen q.0 result }
{
    match h.read(q) {
        Rec::TEmpty => Level::Empty,
        Rec::Single { elem, .. } => Level::One(elem),
        Rec::Deep {
            left,
            middle,
            right,
            ..
        } => {
            let first = read_digit(h, left);
            let last = read_digit(h, right);
            Level::Deep {
                left: Digit::Old {
                    place: left,
                    few: first,
                },
                middle: Middle::Tree(Some(middle)),
                right: Digit::Old {
                    place: right,
                    few: last,
                },
            }
        }
        _ => unreachable!(),
    }
}

/// The weight of an element.
pub fn weigh<H: Heap>(h: &mut H, e: Ref) -> Weight
    requires { holds (recs (H.view h.old).seen) e.0 is_element ≡ true }
    ensures quiet { Quiet (H.view h.old) (H.view h.new) }
    ensures weight { IsWeight (H.view h.old).seen e.0 result }
{
    match h.read(e) {
        Rec::Leaf { item } => Weight { size: 1, key: item },
        Rec::Node { size, key, .. } => Weight { size, key },
        _ => unreachable!(),
    }
}
