//! Two trees in one, with a few elements between them, nothing of which is published yet (Hinze and Paterson's `app3`).
ghost use Rattle.std.specs.Prelude.{◌≡◌, ◌≤◌, ◌+◌, ◌++◌, ◌∷◌, [], List, ℕ, true, length, Some};
ghost use Rattle.heap_store.specs.World.{World, recs, holds};
ghost use Rattle.heap_store.specs.Completion.{grouped};
ghost use Rattle.heap_store.specs.View.{Quiet};
ghost use Rattle.finger_level.specs.declared.level.Side.TheVariants as sides;
ghost use Rattle.finger_level.specs.Few.{few_list, group_list};
ghost use Rattle.finger_level.specs.Level.{made_of, nodes_list, nodes_places, row_list, room_left, room_right};
ghost use Rattle.finger_level.specs.Reads.{is_digit_rec, is_tree_value};
ghost use Rattle.finger_level.specs.Concat.{IsOnto, is_whole, is_whole_middle, tree_in, full_list, grouping_list, grouping_count, IsJoined, IsConcat};

use crate::few::{Few, Group};
use crate::level::{Level, Middle, NodeRow, Nodes, few_of};
use crate::pushes::{push_left, push_right};
use crate::reads::{read_digit, read_level};
use heap_store::Heap;
use lazy_rec::Ref;

/// A few elements pushed onto the left end, the last one first.
fn push_few_left(es: Few, level: Level) -> Level
    requires room { length (few_list es) ≤ room_left level }
    ensures { IsOnto sides.Left (few_list es) level result }
{
    match es {
        Few::One(a) => push_left(a, level),
        Few::Two(a, b) => {
            let second = push_left(b, level);
            push_left(a, second)
        }
        Few::Three(a, b, c) => {
            let third = push_left(c, level);
            let second = push_left(b, third);
            push_left(a, second)
        }
        Few::Four(a, b, c, d) => {
            let fourth = push_left(d, level);
            let third = push_left(c, fourth);
            let second = push_left(b, third);
            push_left(a, second)
        }
    }
}

/// A few elements pushed onto the right end, the first one first.
fn push_few_right(level: Level, es: Few) -> Level
    requires room { length (few_list es) ≤ room_right level }
    ensures { IsOnto sides.Right (few_list es) level result }
{
    match es {
        Few::One(a) => push_right(level, a),
        Few::Two(a, b) => {
            let first = push_right(level, a);
            push_right(first, b)
        }
        Few::Three(a, b, c) => {
            let first = push_right(level, a);
            let second = push_right(first, b);
            push_right(second, c)
        }
        Few::Four(a, b, c, d) => {
            let first = push_right(level, a);
            let second = push_right(first, b);
            let third = push_right(second, c);
            push_right(third, d)
        }
    }
}

/// Nodes of three, from left to right.
#[derive(Clone, Copy)]
pub enum Full {
    None,
    One(Group),
    Two(Group, Group),
    Three(Group, Group, Group),
}

/// Elements that are grouped into nodes one by one: nodes of three, and the last few elements.
#[derive(Clone, Copy)]
pub struct Grouping {
    pub full: Full,
    pub held: Few,
}

/// One node of three more.
fn one_more(full: Full, node: Group) -> Full
    requires room { length (full_list full) ≤ 2 }
    ensures list { full_list result ≡ full_list full ++ group_list node ∷ [] }
{
    match full {
        Full::None => Full::One(node),
        Full::One(a) => Full::Two(a, node),
        Full::Two(a, b) => Full::Three(a, b, node),
        Full::Three(_, _, _) => unreachable!(),
    }
}

/// One element more. Of five the first three are a node.
fn group_one(grouping: Grouping, e: Ref) -> Grouping
    requires room { grouping_count grouping ≤ 11 }
    ensures list { (rest : List ℕ) → grouping_list result rest ≡ grouping_list grouping (e.0 ∷ rest) }
    ensures count { grouping_count result ≡ grouping_count grouping + 1 }
    ensures held { 2 ≤ length (few_list result.held) }
{
    let full = grouping.full;
    let (full, held) = match grouping.held {
        Few::One(a) => (full, Few::Two(a, e)),
        Few::Two(a, b) => (full, Few::Three(a, b, e)),
        Few::Three(a, b, c) => (full, Few::Four(a, b, c, e)),
        Few::Four(a, b, c, d) => (one_more(full, Group::Three(a, b, c)), Few::Two(d, e)),
    };
    Grouping { full, held }
}

/// A few elements more.
fn group_few(grouping: Grouping, es: Few) -> Grouping
    requires room { grouping_count grouping + length (few_list es) ≤ 12 }
    ensures list { (rest : List ℕ) → grouping_list result rest ≡ grouping_list grouping (few_list es ++ rest) }
    ensures count { grouping_count result ≡ grouping_count grouping + length (few_list es) }
    ensures held { 2 ≤ length (few_list result.held) }
{
    match es {
        Few::One(a) => group_one(grouping, a),
        Few::Two(a, b) => {
            let first = group_one(grouping, a);
            group_one(first, b)
        }
        Few::Three(a, b, c) => {
            let first = group_one(grouping, a);
            let second = group_one(first, b);
            group_one(second, c)
        }
        Few::Four(a, b, c, d) => {
            let first = group_one(grouping, a);
            let second = group_one(first, b);
            let third = group_one(second, c);
            group_one(third, d)
        }
    }
}

/// The nodes of the last few elements: of four two nodes of two.
fn last_nodes(held: Few) -> Nodes
    requires { 2 ≤ length (few_list held) }
    ensures list { nodes_list result ≡ grouped (few_list held) }
    ensures few { length (few_list held) ≤ 3 → nodes_places result ≡ 1 }
{
    match held {
        Few::One(_) => unreachable!(),
        Few::Two(a, b) => Nodes::One(Group::Two(a, b)),
        Few::Three(a, b, c) => Nodes::One(Group::Three(a, b, c)),
        Few::Four(a, b, c, d) => Nodes::Two(Group::Two(a, b), Group::Two(c, d)),
    }
}

/// One node where there is room for no more.
fn only_node(nodes: Nodes) -> Group
    requires { nodes_places nodes ≡ 1 }
    ensures { nodes_list nodes ≡ group_list result ∷ [] }
{
    match nodes {
        Nodes::One(a) => a,
        Nodes::Two(_, _) => unreachable!(),
    }
}

/// All nodes of a grouping.
fn row_of(grouping: Grouping) -> NodeRow
    requires held { 2 ≤ length (few_list grouping.held) }
    requires count { grouping_count grouping ≤ 12 }
    ensures { row_list result ≡ grouping_list grouping [] }
{
    let last = last_nodes(grouping.held);
    match grouping.full {
        Full::None => NodeRow {
            near: last,
            far: None,
        },
        Full::One(a) => NodeRow {
            near: Nodes::One(a),
            far: Some(last),
        },
        Full::Two(a, b) => NodeRow {
            near: Nodes::Two(a, b),
            far: Some(last),
        },
        Full::Three(a, b, c) => {
            let d = only_node(last);
            NodeRow {
                near: Nodes::Two(a, b),
                far: Some(Nodes::Two(c, d)),
            }
        }
    }
}

/// The elements of two digits and those between them, grouped into nodes.
fn group_all(first: Few, between: Few, last: Few) -> NodeRow
    ensures { row_list result ≡ grouped (few_list first ++ few_list between ++ few_list last) }
{
    let grouping = Grouping {
        full: Full::None,
        held: first,
    };
    let more = group_few(grouping, between);
    let all = group_few(more, last);
    row_of(all)
}

/// The tree of a middle that was read.
fn tree_of(middle: Middle) -> Ref
    requires { is_whole_middle middle ≡ true }
    ensures { tree_in middle ≡ Some result }
{
    match middle {
        Middle::Tree(Some(tree)) => tree,
        _ => unreachable!(),
    }
}

/// The level of two levels that were read, and the elements between them. Of two deep ones the outer digits stay; the inner
/// ones and the elements become nodes, which wait between the middles.
fn joined(left: Level, es: Few, right: Level) -> Level
    requires left { is_whole left ≡ true }
    requires right { is_whole right ≡ true }
    ensures { IsJoined left es right result }
{
    match left {
        Level::Empty => push_few_left(es, right),
        Level::One(a) => match right {
            Level::Empty => push_few_right(left, es),
            _ => {
                let rest = push_few_left(es, right);
                push_left(a, rest)
            }
        },
        Level::Deep {
            left: outer,
            middle: near,
            right: first,
        } => match right {
            Level::Empty => push_few_right(left, es),
            Level::One(b) => {
                let rest = push_few_right(left, es);
                push_right(rest, b)
            }
            Level::Deep {
                left: last,
                middle: far,
                right: other,
            } => {
                let row = group_all(few_of(first), es, few_of(last));
                let middle = Middle::Between {
                    left: tree_of(near),
                    row,
                    right: tree_of(far),
                };
                Level::Deep {
                    left: outer,
                    middle,
                    right: other,
                }
            }
        },
    }
}

/// The level of two trees and the elements of a digit between them. `p` and `q` are the values of the trees, `d` the digit.
pub fn concat_level<H: Heap>(h: &mut H, p: Ref, d: Ref, q: Ref) -> Level
    requires left { holds (recs (H.view h.old).seen) p.0 is_tree_value ≡ true }
    requires digit { holds (recs (H.view h.old).seen) d.0 is_digit_rec ≡ true }
    requires right { holds (recs (H.view h.old).seen) q.0 is_tree_value ≡ true }
    ensures quiet { Quiet (H.view h.old) (H.view h.new) }
    ensures concat { IsConcat (H.view h.new).seen p.0 d.0 q.0 result }
{
    let left = read_level(h, p);
    let es = read_digit(h, d);
    let right = read_level(h, q);
    joined(left, es, right)
}
