//! One level of a finger tree, as plain values: what is read of a tree, and what is made before anything is published.
ghost use Rattle.std.specs.Prelude.{◌≡◌, ◌≤◌};
ghost use Rattle.finger_level.specs.Level.{digit_few, places_of, middle_places, digit_places, nodes_places, row_places};

use crate::few::{Few, Group};
use lazy_rec::Ref;

/// A digit that stands at a place already, or one that is to be published.
#[derive(Clone, Copy)]
pub enum Digit {
    Old { place: Ref, few: Few },
    New(Few),
}

/// One or two nodes that are to be published.
#[derive(Clone, Copy)]
pub enum Nodes {
    One(Group),
    Two(Group, Group),
}

/// One to four nodes that are to be published, from left to right.
#[derive(Clone, Copy)]
pub struct NodeRow {
    pub near: Nodes,
    pub far: Option<Nodes>,
}

/// A middle: a tree that is there, or none; nodes that are to be pushed onto it; or a deep tree whose node at an end was taken.
/// Of such a tree the digit of that side is shorter, or nothing of it is left: then its own middle and its other digit wait
/// as a suspended tail. Or two middles and the nodes between them, which wait as a suspended concatenation.
#[derive(Clone, Copy)]
pub enum Middle {
    Tree(Option<Ref>),
    PushL {
        tree: Option<Ref>,
        nodes: Nodes,
    },
    PushR {
        tree: Option<Ref>,
        nodes: Nodes,
    },
    Tail {
        side: Side,
        tree: Ref,
        digit: Digit,
    },
    Shorter {
        side: Side,
        left: Digit,
        tree: Ref,
        right: Digit,
    },
    Between {
        left: Ref,
        row: NodeRow,
        right: Ref,
    },
}

/// The top level of a tree.
#[derive(Clone, Copy)]
pub enum Level {
    Empty,
    One(Ref),
    Deep {
        left: Digit,
        middle: Middle,
        right: Digit,
    },
}

/// The elements of a digit.
pub fn few_of(digit: Digit) -> Few
    ensures { result ≡ digit_few digit }
{
    match digit {
        Digit::Old { few, .. } | Digit::New(few) => few,
    }
}

/// How many places a level takes: a digit that is there, and an empty tree, take none.
pub fn places(level: Level) -> u32
    ensures exact { result ≡ places_of level }
    ensures most { result ≤ 9 }
{
    match level {
        Level::Empty => 0,
        Level::One(_) => 1,
        Level::Deep {
            left,
            middle,
            right,
        } => digit_count(left) + middle_count(middle) + digit_count(right) + 1,
    }
}

fn digit_count(digit: Digit) -> u32
    ensures exact { result ≡ digit_places digit }
    ensures most { result ≤ 1 }
{
    match digit {
        Digit::Old { .. } => 0,
        Digit::New(_) => 1,
    }
}

fn middle_count(middle: Middle) -> u32
    ensures exact { result ≡ middle_places middle }
    ensures most { result ≤ 6 }
{
    match middle {
        Middle::Tree(_) => 0,
        Middle::PushL { nodes, .. } | Middle::PushR { nodes, .. } => node_count(nodes) + 1,
        Middle::Tail { digit, .. } => digit_count(digit) + 1,
        Middle::Shorter { left, right, .. } => digit_count(left) + digit_count(right) + 1,
        Middle::Between { row, .. } => row_count(row) + 2,
    }
}

fn node_count(nodes: Nodes) -> u32
    ensures exact { result ≡ nodes_places nodes }
    ensures most { result ≤ 2 }
{
    match nodes {
        Nodes::One(_) => 1,
        Nodes::Two(_, _) => 2,
    }
}

fn row_count(row: NodeRow) -> u32
    ensures exact { result ≡ row_places row }
    ensures most { result ≤ 4 }
{
    match row.far {
        None => node_count(row.near),
        Some(far) => node_count(row.near) + node_count(far),
    }
}

/// The family of the suspension that a level's middle may become: a first one, or the next one of a claimed suspension.
#[derive(Clone, Copy)]
pub enum Family {
    First,
    Later { of: Ref, origin: Ref, off: u8 },
}

/// The side of a tree.
#[derive(Clone, Copy)]
pub enum Side {
    Left,
    Right,
}

/// One or two elements, from left to right, that are pushed onto a tree.
#[derive(Clone, Copy)]
pub enum Pushed {
    One(Ref),
    Two(Ref, Ref),
}
