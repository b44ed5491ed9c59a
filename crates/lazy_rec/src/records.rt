//! The records that a place can show.

use crate::numbers::{ones, trailing_ones};
use crate::places::{Item, Ref};

/// Which structure a place belongs to, and as which part of it.
#[derive(Clone, Copy, Debug, PartialEq, Eq)]
pub enum Sort {
    Stream,
    List,
    StreamTop,
    BankTop,
    RtTop,
    HeapTop,
    TreeList,
    Tree,
    Cat,
    Element,
    Digit,
    Finger,
}

/// What a place shows once it is published. Short fields stand first, so that a record takes
/// 32 bytes.
#[derive(Clone, Copy, Debug, PartialEq, Eq)]
pub enum Rec {
    Nil,
    Cons {
        child: bool,
        value: u64,
        rest: Ref,
    },
    LNil,
    LCons {
        child: bool,
        value: u64,
        rest: Ref,
    },
    StreamTop {
        cells: Ref,
        size: u32,
    },
    BankTop {
        rotated: bool,
        front: Ref,
        lenf: u32,
        rear: Ref,
        lenr: u32,
        origin: Ref,
        n: u32,
        tails: u32,
    },
    RtTop {
        front: Ref,
        lenf: u32,
        rear: Ref,
        lenr: u32,
        sched: Ref,
    },
    HeapTop {
        list: Ref,
        size: u32,
        owed: u8,
    },
    TNil,
    TCons {
        tree: Ref,
        rest: Ref,
    },
    Tree {
        rank: u8,
        item: Item,
        kids: Ref,
    },
    CatNil,
    CatNode {
        item: Item,
        kids: Ref,
        size: u32,
    },
    TEmpty,
    Leaf {
        item: Item,
    },
    Node {
        count: u8,
        e1: Ref,
        e2: Ref,
        e3: Ref,
        size: u32,
        key: Item,
    },
    Digit {
        count: u8,
        e1: Ref,
        e2: Ref,
        e3: Ref,
        e4: Ref,
        size: u32,
        key: Item,
    },
    Single {
        elem: Ref,
        size: u32,
        key: Item,
    },
    Deep {
        left: Ref,
        middle: Ref,
        right: Ref,
        size: u32,
        key: Item,
    },
    Append {
        xs: Ref,
        ys: Ref,
        left: u32,
        origin: Ref,
        off: u32,
    },
    Reverse {
        xs: Ref,
        left: u32,
    },
    BankRot {
        xs: Ref,
        rear: Ref,
        left: u32,
        origin: Ref,
        off: u32,
    },
    RtRot {
        xs: Ref,
        rear: Ref,
        acc: Ref,
        left: u32,
        origin: Ref,
        off: u32,
    },
    HeapInsert {
        item: Item,
        list: Ref,
        size: u32,
    },
    HeapMerge {
        list1: Ref,
        list2: Ref,
        n1: u32,
        n2: u32,
    },
    LinkAll {
        queue: Ref,
        len: u32,
        size: u32,
        origin: Ref,
        off: u32,
    },
    PushL {
        count: u8,
        off: u8,
        tree: Ref,
        e1: Ref,
        e2: Ref,
        origin: Ref,
        size: u32,
        key: Item,
    },
    PushR {
        count: u8,
        off: u8,
        tree: Ref,
        e1: Ref,
        e2: Ref,
        origin: Ref,
        size: u32,
        key: Item,
    },
    DeepL {
        middle: Ref,
        digit: Ref,
        size: u32,
        origin: Ref,
        off: u8,
        key: Item,
    },
    DeepR {
        middle: Ref,
        digit: Ref,
        size: u32,
        origin: Ref,
        off: u8,
        key: Item,
    },
    Concat {
        off: u8,
        left: Ref,
        right: Ref,
        list: Ref,
        origin: Ref,
        size: u32,
        key: Item,
    },
}

impl Rec {
    ghost use Rattle.std.specs.Prelude.{◌≡◌};
    ghost use Rattle.lazy_rec.specs.Named.{sort_of, is_pending};
    ghost use Rattle.lazy_rec.specs.Units.{steps, cost};

    /// The structure that the record belongs to, and as which part.
    pub fn sort(&self) -> Sort
        ensures { result ≡ sort_of self.now }
    {
        match self {
            Rec::Nil | Rec::Cons { .. } => Sort::Stream,
            Rec::LNil | Rec::LCons { .. } => Sort::List,
            Rec::StreamTop { .. } => Sort::StreamTop,
            Rec::BankTop { .. } => Sort::BankTop,
            Rec::RtTop { .. } => Sort::RtTop,
            Rec::HeapTop { .. } => Sort::HeapTop,
            Rec::TNil | Rec::TCons { .. } => Sort::TreeList,
            Rec::Tree { .. } => Sort::Tree,
            Rec::CatNil | Rec::CatNode { .. } => Sort::Cat,
            Rec::Leaf { .. } | Rec::Node { .. } => Sort::Element,
            Rec::Digit { .. } => Sort::Digit,
            Rec::TEmpty | Rec::Single { .. } | Rec::Deep { .. } => Sort::Finger,
            Rec::Append { .. } | Rec::Reverse { .. } | Rec::BankRot { .. } | Rec::RtRot { .. } =>
                Sort::Stream,
            Rec::HeapInsert { .. } | Rec::HeapMerge { .. } => Sort::TreeList,
            Rec::LinkAll { .. } => Sort::Cat,
            Rec::PushL { .. }
            | Rec::PushR { .. }
            | Rec::DeepL { .. }
            | Rec::DeepR { .. }
            | Rec::Concat { .. } => { Sort::Finger }
        }
    }

    /// Whether the record is a suspension. A record that isn't is a value.
    pub fn is_pending(&self) -> bool
        ensures { result ≡ is_pending self.now }
    {
        matches!(
            self,
            Rec::Append { .. }
                | Rec::Reverse { .. }
                | Rec::BankRot { .. }
                | Rec::RtRot { .. }
                | Rec::HeapInsert { .. }
                | Rec::HeapMerge { .. }
                | Rec::LinkAll { .. }
                | Rec::PushL { .. }
                | Rec::PushR { .. }
                | Rec::DeepL { .. }
                | Rec::DeepR { .. }
                | Rec::Concat { .. }
        )
    }

    /// The steps of a suspension, which its state keeps once it is done. A value has none.
    pub fn steps(&self) -> u64
        ensures { result ≡ steps self.now }
    {
        match *self {
            Rec::Append { .. } | Rec::RtRot { .. } | Rec::LinkAll { .. } => 1,
            Rec::Reverse { left, .. } => left as u64,
            Rec::BankRot { left: 0, off, .. } => off as u64 + 1,
            Rec::BankRot { .. } => 1,
            Rec::HeapInsert { size, .. } => trailing_ones(size as u64) as u64 + 1,
            Rec::HeapMerge { n1, n2, .. } => 1 + ones(n1 as u64) as u64 + ones(n2 as u64) as u64,
            Rec::PushL { .. }
            | Rec::PushR { .. }
            | Rec::DeepL { .. }
            | Rec::DeepR { .. }
            | Rec::Concat { .. } => 1,
            _ => 0,
        }
    }

    /// The units of a suspension: its steps, and two credits more for a link. A value has none.
    pub fn cost(&self) -> u64
        ensures { result ≡ cost self.now }
    {
        match self {
            Rec::LinkAll { .. } => self.steps() + 2,
            _ => self.steps(),
        }
    }
}
