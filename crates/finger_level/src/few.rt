//! The elements of digits and nodes.
ghost use Rattle.std.specs.Prelude.{◌≡◌};

use lazy_rec::{Item, Rec, Ref};

/// One to four elements, from left to right: those of a digit.
#[derive(Clone, Copy)]
pub enum Few {
    One(Ref),
    Two(Ref, Ref),
    Three(Ref, Ref, Ref),
    Four(Ref, Ref, Ref, Ref),
}

/// Two or three elements, from left to right: those of a node.
#[derive(Clone, Copy)]
pub enum Group {
    Two(Ref, Ref),
    Three(Ref, Ref, Ref),
}

/// How many items are below a place, and the greatest of them, or 0 where the tree keeps no keys.
#[derive(Clone, Copy)]
pub struct Weight {
    pub size: u32,
    pub key: Item,
}

/// The elements of a digit that stands, with what it weighs.
#[derive(Clone, Copy)]
pub struct WeighedFew {
    pub few: Few,
    pub weight: Weight,
}

ghost use Rattle.finger_level.specs.Few.{digit_record, node_record};

/// The record of a digit.
#[inline(always)]
pub(crate) fn digit(few: Few, weight: Weight) -> Rec
    ensures { result ≡ digit_record few weight }
{
    let no = Ref(0);
    let (count, e1, e2, e3, e4) = match few {
        Few::One(a) => (1, a, no, no, no),
        Few::Two(a, b) => (2, a, b, no, no),
        Few::Three(a, b, c) => (3, a, b, c, no),
        Few::Four(a, b, c, d) => (4, a, b, c, d),
    };
    Rec::Digit {
        count,
        e1,
        e2,
        e3,
        e4,
        size: weight.size,
        key: weight.key,
    }
}

/// The record of a node.
#[inline(always)]
pub(crate) fn node(group: Group, weight: Weight) -> Rec
    ensures { result ≡ node_record group weight }
{
    let (count, e1, e2, e3) = match group {
        Group::Two(a, b) => (2, a, b, Ref(0)),
        Group::Three(a, b, c) => (3, a, b, c),
    };
    Rec::Node {
        count,
        e1,
        e2,
        e3,
        size: weight.size,
        key: weight.key,
    }
}
