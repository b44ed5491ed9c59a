//! Worked values of the tables: words, digits, steps, and one record of each tag.

use crate::events::{Kind, Op};
use crate::names::{event_name, is_second, second_of};
use crate::numbers::{bits, ones, trailing_ones, zeros};
use crate::packing::decode;
use crate::places::{Item, Ref};
use crate::records::{Rec, Sort};
use crate::states::SuspState;

#[test]
fn counts_digits(rt: HostRuntime) {
    let table = [
        (0, 0, 0, 0, 0),
        (1, 1, 1, 0, 1),
        (7, 3, 3, 0, 3),
        (8, 4, 1, 3, 0),
        (11, 4, 3, 1, 2),
        (18446744073709551615, 64, 64, 0, 64),
    ];
    for (n, all, set, clear, low) in table {
        assert_eq!(rt; bits(n), all, "bits of {n}");
        assert_eq!(rt; ones(n), set, "ones of {n}");
        assert_eq!(rt; zeros(n), clear, "zeros of {n}");
        assert_eq!(rt; trailing_ones(n), low, "trailing ones of {n}");
    }
}

/// Records of all tags, with their tag, sort and cost.
fn records() -> [(Rec, u64, Sort, u64); 32] {
    [
        (Rec::Nil, 1, Sort::Stream, 0),
        (
            Rec::Cons {
                child: true,
                value: 4194303,
                rest: Ref(4194303),
            },
            2,
            Sort::Stream,
            0,
        ),
        (Rec::LNil, 3, Sort::List, 0),
        (
            Rec::LCons {
                child: false,
                value: 18446744073709551615,
                rest: Ref(1),
            },
            4,
            Sort::List,
            0,
        ),
        (
            Rec::StreamTop {
                cells: Ref(1),
                size: 2147483647,
            },
            5,
            Sort::StreamTop,
            0,
        ),
        (
            Rec::BankTop {
                front: Ref(1),
                lenf: 2,
                rear: Ref(3),
                lenr: 4,
                rotated: true,
                origin: Ref(5),
                n: 6,
                tails: 7,
            },
            6,
            Sort::BankTop,
            0,
        ),
        (
            Rec::RtTop {
                front: Ref(1),
                lenf: 2,
                rear: Ref(3),
                lenr: 4,
                sched: Ref(5),
            },
            7,
            Sort::RtTop,
            0,
        ),
        (
            Rec::HeapTop {
                list: Ref(1),
                size: 2,
                owed: 63,
            },
            8,
            Sort::HeapTop,
            0,
        ),
        (Rec::TNil, 9, Sort::TreeList, 0),
        (
            Rec::TCons {
                tree: Ref(1),
                rest: Ref(2),
            },
            10,
            Sort::TreeList,
            0,
        ),
        (
            Rec::Tree {
                rank: 31,
                item: Item(1),
                kids: Ref(2),
            },
            11,
            Sort::Tree,
            0,
        ),
        (Rec::CatNil, 12, Sort::Cat, 0),
        (
            Rec::CatNode {
                item: Item(1),
                kids: Ref(2),
                size: 3,
            },
            13,
            Sort::Cat,
            0,
        ),
        (Rec::TEmpty, 14, Sort::Finger, 0),
        (Rec::Leaf { item: Item(5) }, 15, Sort::Element, 0),
        (
            Rec::Node {
                count: 3,
                e1: Ref(1),
                e2: Ref(2),
                e3: Ref(3),
                size: 4,
                key: Item(5),
            },
            16,
            Sort::Element,
            0,
        ),
        (
            Rec::Digit {
                count: 4,
                e1: Ref(1),
                e2: Ref(2),
                e3: Ref(3),
                e4: Ref(4),
                size: 5,
                key: Item(6),
            },
            17,
            Sort::Digit,
            0,
        ),
        (
            Rec::Single {
                elem: Ref(1),
                size: 2,
                key: Item(3),
            },
            18,
            Sort::Finger,
            0,
        ),
        (
            Rec::Deep {
                left: Ref(1),
                middle: Ref(2),
                right: Ref(3),
                size: 4,
                key: Item(5),
            },
            19,
            Sort::Finger,
            0,
        ),
        (
            Rec::Append {
                xs: Ref(1),
                ys: Ref(2),
                left: 3,
                origin: Ref(4),
                off: 5,
            },
            32,
            Sort::Stream,
            1,
        ),
        (
            Rec::Reverse {
                xs: Ref(1),
                left: 4,
            },
            33,
            Sort::Stream,
            4,
        ),
        (
            Rec::BankRot {
                xs: Ref(1),
                rear: Ref(2),
                left: 3,
                origin: Ref(4),
                off: 5,
            },
            34,
            Sort::Stream,
            1,
        ),
        (
            Rec::BankRot {
                xs: Ref(1),
                rear: Ref(2),
                left: 0,
                origin: Ref(4),
                off: 5,
            },
            34,
            Sort::Stream,
            6,
        ),
        (
            Rec::RtRot {
                xs: Ref(1),
                rear: Ref(2),
                acc: Ref(3),
                left: 4,
                origin: Ref(5),
                off: 6,
            },
            35,
            Sort::Stream,
            1,
        ),
        (
            Rec::HeapInsert {
                item: Item(1),
                list: Ref(2),
                size: 7,
            },
            36,
            Sort::TreeList,
            4,
        ),
        (
            Rec::HeapMerge {
                list1: Ref(1),
                list2: Ref(2),
                n1: 3,
                n2: 5,
            },
            37,
            Sort::TreeList,
            5,
        ),
        (
            Rec::LinkAll {
                queue: Ref(1),
                len: 2,
                size: 3,
                origin: Ref(4),
                off: 5,
            },
            38,
            Sort::Cat,
            3,
        ),
        (
            Rec::PushL {
                tree: Ref(1),
                count: 2,
                e1: Ref(2),
                e2: Ref(3),
                origin: Ref(4),
                off: 5,
                size: 6,
                key: Item(7),
            },
            39,
            Sort::Finger,
            1,
        ),
        (
            Rec::PushR {
                tree: Ref(1),
                count: 1,
                e1: Ref(2),
                e2: Ref(0),
                origin: Ref(4),
                off: 5,
                size: 6,
                key: Item(7),
            },
            40,
            Sort::Finger,
            1,
        ),
        (
            Rec::DeepL {
                middle: Ref(1),
                digit: Ref(2),
                size: 3,
                origin: Ref(4),
                off: 31,
                key: Item(6),
            },
            41,
            Sort::Finger,
            1,
        ),
        (
            Rec::DeepR {
                middle: Ref(1),
                digit: Ref(2),
                size: 3,
                origin: Ref(4),
                off: 31,
                key: Item(6),
            },
            42,
            Sort::Finger,
            1,
        ),
        (
            Rec::Concat {
                left: Ref(1),
                right: Ref(2),
                list: Ref(3),
                origin: Ref(4),
                off: 5,
                size: 6,
                key: Item(7),
            },
            43,
            Sort::Finger,
            1,
        ),
    ]
}

#[test]
fn packs_each_tag(rt: HostRuntime) {
    for (rec, tag, sort, cost) in records() {
        assert!(rt; rec.fits(), "{rec:?}");
        let words = rec.pack();
        assert_eq!(rt; words[0] & 63, tag, "{rec:?}");
        assert_eq!(rt; Rec::unpack(words), Some(rec));
        assert_eq!(rt; decode(words), rec);
        assert_eq!(rt; rec.sort(), sort, "{rec:?}");
        assert_eq!(rt; rec.is_pending(), tag >= 32, "{rec:?}");
        assert_eq!(rt; rec.cost(), cost, "{rec:?}");
    }
}

#[test]
fn reads_words(rt: HostRuntime) {
    let read = [
        ([15, 5, 0, 0], Rec::Leaf { item: Item(5) }),
        (
            [15, 18446744073709551615, 0, 0],
            Rec::Leaf {
                item: Item(18446744073709551615),
            },
        ),
        (
            [66, 3, 2, 0],
            Rec::Cons {
                child: true,
                value: 3,
                rest: Ref(2),
            },
        ),
        (
            [536870982, 9007199271518211, 25165829, 7],
            Rec::BankTop {
                front: Ref(1),
                lenf: 2,
                rear: Ref(3),
                lenr: 4,
                rotated: true,
                origin: Ref(5),
                n: 6,
                tails: 7,
            },
        ),
        (
            [36, 1, 29360130, 0],
            Rec::HeapInsert {
                item: Item(1),
                list: Ref(2),
                size: 7,
            },
        ),
        (
            [2684354663, 87960946999299, 6, 7],
            Rec::PushL {
                tree: Ref(1),
                count: 2,
                e1: Ref(2),
                e2: Ref(3),
                origin: Ref(4),
                off: 5,
                size: 6,
                key: Item(7),
            },
        ),
    ];
    for (words, rec) in read {
        assert_eq!(rt; Rec::unpack(words), Some(rec));
        assert!(rt; rec.fits(), "{rec:?}");
        assert_eq!(rt; rec.pack(), words, "{rec:?}");
    }
    let refused: [([u64; 4], &'static str); 26] = [
        ([0, 0, 0, 0], "no tag 0"),
        ([20, 0, 0, 0], "no tag 20"),
        ([44, 0, 0, 0], "no tag 44"),
        ([65, 0, 0, 0], "an unused bit after a tag"),
        ([79, 5, 0, 0], "an unused bit before an item"),
        ([15, 5, 1, 0], "an unused word after an item"),
        ([14, 1, 0, 0], "an unused word"),
        ([5, 0, 0, 1], "an unused last word"),
        ([66, 4194304, 0, 0], "a child that is no place"),
        ([68, 4194304, 0, 0], "a child that is no place, in a list"),
        ([2, 0, 4194304, 0], "a place of 23 bits"),
        ([36, 0, 9007199254740992, 0], "a size of 32 bits"),
        ([8, 64, 0, 0], "64 units owed"),
        ([2059, 0, 0, 0], "a rank of 32"),
        ([268435495, 562949953421312, 0, 0], "an offset of 32"),
        ([6, 0, 1, 0], "an origin without a rotation"),
        ([6, 0, 4194304, 0], "a size of the rear without a rotation"),
        ([80, 0, 0, 0], "a node of one element"),
        ([144, 1, 0, 0], "a third element in a node of two"),
        ([17, 0, 0, 0], "a digit of no element"),
        ([337, 0, 0, 0], "a digit of five elements"),
        ([2147483729, 0, 0, 0], "a second element in a digit of one"),
        ([209, 4194304, 0, 0], "a fourth element in a digit of three"),
        ([39, 0, 0, 0], "no element pushed"),
        ([805306407, 0, 0, 0], "three elements pushed"),
        ([268435496, 1, 0, 0], "a second element where one is pushed"),
    ];
    for (words, why) in refused {
        assert_eq!(rt; Rec::unpack(words), None, "{why}");
    }
}

#[test]
fn reads_states(rt: HostRuntime) {
    let read = [
        (0, SuspState::Unforced { given_up: 0 }),
        (262140, SuspState::Unforced { given_up: 65535 }),
        (9, SuspState::Claimed { given_up: 2 }),
        (
            5497559973895,
            SuspState::Done {
                place: Ref(5),
                steps: 7,
                given_up: 1,
            },
        ),
    ];
    for (word, state) in read {
        let found = SuspState::of_word(word);
        assert_eq!(rt; found, Some(state), "{word}");
        if let Some(state) = found {
            assert_eq!(rt; state.to_word(), word, "{state:?}");
        }
    }
    for word in [2, 4611686018427387904, 9223372036854775811, 262144, 262145] {
        assert_eq!(rt; SuspState::of_word(word), None, "{word}");
    }
}

#[test]
fn numbers_operations(rt: HostRuntime) {
    let table = [
        (0, None),
        (1, Some(Op::Size)),
        (26, Some(Op::Upto)),
        (27, Some(Op::Split)),
        (28, None),
        (31, None),
        (32, Some(Op::New(Kind::Stream))),
        (39, Some(Op::New(Kind::Cat))),
        (40, None),
    ];
    for (number, op) in table {
        assert_eq!(rt; Op::of_number(number), op, "{number}");
        if let Some(op) = op {
            assert_eq!(rt; op.number(), number, "{op:?}");
        }
    }
    assert_eq!(rt; Kind::of_number(4), Some(Kind::Seq));
    assert_eq!(rt; Kind::of_number(8), None);
    assert!(rt; Kind::Seq.has(Op::Split));
    assert!(rt; !Kind::Ord.has(Op::Split));
}

#[test]
fn names_versions(rt: HostRuntime) {
    for (version, name, second) in [(4, 4, false), (2147483652, 4, true)] {
        assert_eq!(rt; event_name(version), name, "{version}");
        assert_eq!(rt; is_second(version), second, "{version}");
    }
    assert_eq!(rt; second_of(4), 2147483652);
}
