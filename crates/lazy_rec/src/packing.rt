//! Records in four words.

ghost use Rattle.std.specs.Prelude.{◌≡◌, true, IfSome, IfNone};
ghost use Rattle.lazy_rec.specs.Packed.{in_range, words_of};
ghost use Rattle.lazy_rec.specs.Shown.{shown};

use crate::fields::{
    field_at, flag_at, flag_field, place_at, place_field, size_at, size_field, small_at,
    small_field, tag_field, word2, word3, word4,
};
use crate::places::Item;
use crate::records::Rec;

impl Rec {
    /// The record's words: its tag in bits 0 to 5 of the first word, then its fields from the lowest free bit upward, where a
    /// field that would cross the end of a word starts the next one.
    #[inline(always)]
    pub fn pack(&self) -> [u64; 4]
        requires { in_range self.now ≡ true }
        ensures { result ≡ words_of self.now }
    {
        match *self {
            Rec::Nil => [1, 0, 0, 0],
            Rec::Cons { child, value, rest } => [
                word2(tag_field(2), flag_field(child)),
                value,
                rest.0 as u64,
                0,
            ],
            Rec::LNil => [3, 0, 0, 0],
            Rec::LCons { child, value, rest } => [
                word2(tag_field(4), flag_field(child)),
                value,
                rest.0 as u64,
                0,
            ],
            Rec::StreamTop { cells, size } => [
                word3(tag_field(5), place_field(cells), size_field(size)),
                0,
                0,
                0,
            ],
            Rec::BankTop {
                front,
                lenf,
                rear,
                lenr,
                rotated,
                origin,
                n,
                tails,
            } => [
                word3(tag_field(6), place_field(front), size_field(lenf)),
                word3(place_field(rear), size_field(lenr), flag_field(rotated)),
                word2(place_field(origin), size_field(n)),
                tails as u64,
            ],
            Rec::RtTop {
                front,
                lenf,
                rear,
                lenr,
                sched,
            } => [
                word3(tag_field(7), place_field(front), size_field(lenf)),
                word2(place_field(rear), size_field(lenr)),
                sched.0 as u64,
                0,
            ],
            Rec::HeapTop { list, size, owed } => [
                word3(tag_field(8), place_field(list), size_field(size)),
                owed as u64,
                0,
                0,
            ],
            Rec::TNil => [9, 0, 0, 0],
            Rec::TCons { tree, rest } => [
                word3(tag_field(10), place_field(tree), place_field(rest)),
                0,
                0,
                0,
            ],
            Rec::Tree { rank, item, kids } => [
                word2(tag_field(11), small_field(5, rank)),
                item.0,
                kids.0 as u64,
                0,
            ],
            Rec::CatNil => [12, 0, 0, 0],
            Rec::CatNode { item, kids, size } => [
                13,
                item.0,
                word2(place_field(kids), size_field(size)),
                0,
            ],
            Rec::TEmpty => [14, 0, 0, 0],
            Rec::Leaf { item } => [15, item.0, 0, 0],
            Rec::Node {
                count,
                e1,
                e2,
                e3,
                size,
                key,
            } => [
                word4(
                    tag_field(16),
                    small_field(2, count),
                    place_field(e1),
                    place_field(e2),
                ),
                word2(place_field(e3), size_field(size)),
                key.0,
                0,
            ],
            Rec::Digit {
                count,
                e1,
                e2,
                e3,
                e4,
                size,
                key,
            } => [
                word4(
                    tag_field(17),
                    small_field(3, count),
                    place_field(e1),
                    place_field(e2),
                ),
                word2(place_field(e3), place_field(e4)),
                size as u64,
                key.0,
            ],
            Rec::Single { elem, size, key } => [
                word3(tag_field(18), place_field(elem), size_field(size)),
                key.0,
                0,
                0,
            ],
            Rec::Deep {
                left,
                middle,
                right,
                size,
                key,
            } => [
                word3(tag_field(19), place_field(left), place_field(middle)),
                word2(place_field(right), size_field(size)),
                key.0,
                0,
            ],
            Rec::Append {
                xs,
                ys,
                left,
                origin,
                off,
            } => [
                word3(tag_field(32), place_field(xs), place_field(ys)),
                word2(size_field(left), place_field(origin)),
                off as u64,
                0,
            ],
            Rec::Reverse { xs, left } => [
                word3(tag_field(33), place_field(xs), size_field(left)),
                0,
                0,
                0,
            ],
            Rec::BankRot {
                xs,
                rear,
                left,
                origin,
                off,
            } => [
                word3(tag_field(34), place_field(xs), place_field(rear)),
                word2(size_field(left), place_field(origin)),
                off as u64,
                0,
            ],
            Rec::RtRot {
                xs,
                rear,
                acc,
                left,
                origin,
                off,
            } => [
                word3(tag_field(35), place_field(xs), place_field(rear)),
                word2(place_field(acc), size_field(left)),
                word2(place_field(origin), size_field(off)),
                0,
            ],
            Rec::HeapInsert { item, list, size } => [
                36,
                item.0,
                word2(place_field(list), size_field(size)),
                0,
            ],
            Rec::HeapMerge {
                list1,
                list2,
                n1,
                n2,
            } => [
                word3(tag_field(37), place_field(list1), place_field(list2)),
                word2(size_field(n1), size_field(n2)),
                0,
                0,
            ],
            Rec::LinkAll {
                queue,
                len,
                size,
                origin,
                off,
            } => [
                word3(tag_field(38), place_field(queue), size_field(len)),
                word2(size_field(size), place_field(origin)),
                off as u64,
                0,
            ],
            Rec::PushL {
                tree,
                count,
                e1,
                e2,
                origin,
                off,
                size,
                key,
            } => [
                word4(
                    tag_field(39),
                    place_field(tree),
                    small_field(2, count),
                    place_field(e1),
                ),
                word3(place_field(e2), place_field(origin), small_field(5, off)),
                size as u64,
                key.0,
            ],
            Rec::PushR {
                tree,
                count,
                e1,
                e2,
                origin,
                off,
                size,
                key,
            } => [
                word4(
                    tag_field(40),
                    place_field(tree),
                    small_field(2, count),
                    place_field(e1),
                ),
                word3(place_field(e2), place_field(origin), small_field(5, off)),
                size as u64,
                key.0,
            ],
            Rec::DeepL {
                middle,
                digit,
                size,
                origin,
                off,
                key,
            } => [
                word3(tag_field(41), place_field(middle), place_field(digit)),
                word3(size_field(size), place_field(origin), small_field(5, off)),
                key.0,
                0,
            ],
            Rec::DeepR {
                middle,
                digit,
                size,
                origin,
                off,
                key,
            } => [
                word3(tag_field(42), place_field(middle), place_field(digit)),
                word3(size_field(size), place_field(origin), small_field(5, off)),
                key.0,
                0,
            ],
            Rec::Concat {
                left,
                right,
                list,
                origin,
                off,
                size,
                key,
            } => [
                word3(tag_field(43), place_field(left), place_field(right)),
                word3(place_field(list), place_field(origin), small_field(5, off)),
                size as u64,
                key.0,
            ],
        }
    }

    /// The record in range that packs to these words, or none where no record does.
    pub fn unpack(words: [u64; 4]) -> Option<Rec>
        ensures some { IfSome result (λ r. (in_range r ≡ true) × (words ≡ words_of r)) }
        ensures none { IfNone result ((r : Rec) → in_range r ≡ true → words ≡ words_of r → ⊥) }
    {
        let rec = decode(words);
        if rec.fits() && rec.pack() == words {
            Some(rec)
        } else {
            None
        }
    }
}

/// The record that these words show. It is the record that packs to them, where one in range does; at other words it is
/// some record or other, and `Rec::unpack` tells them apart.
#[inline(always)]
pub fn decode(words: [u64; 4]) -> Rec
    ensures shown { result ≡ shown words }
    ensures packed { (r : Rec) → in_range r ≡ true → words ≡ words_of r → result ≡ r }
{
    shown(words)
}

/// The record that the words show, by the tag in the first one.
#[inline(always)]
fn shown(words: [u64; 4]) -> Rec
    ensures { result ≡ shown words }
{
    let [first, second, third, fourth] = words;
    match field_at(first, 0, 6) {
        2 => Rec::Cons {
            child: flag_at(first, 6),
            value: second,
            rest: place_at(third, 0),
        },
        3 => Rec::LNil,
        4 => Rec::LCons {
            child: flag_at(first, 6),
            value: second,
            rest: place_at(third, 0),
        },
        5 => Rec::StreamTop {
            cells: place_at(first, 6),
            size: size_at(first, 28),
        },
        6 => Rec::BankTop {
            front: place_at(first, 6),
            lenf: size_at(first, 28),
            rear: place_at(second, 0),
            lenr: size_at(second, 22),
            rotated: flag_at(second, 53),
            origin: place_at(third, 0),
            n: size_at(third, 22),
            tails: size_at(fourth, 0),
        },
        7 => Rec::RtTop {
            front: place_at(first, 6),
            lenf: size_at(first, 28),
            rear: place_at(second, 0),
            lenr: size_at(second, 22),
            sched: place_at(third, 0),
        },
        8 => Rec::HeapTop {
            list: place_at(first, 6),
            size: size_at(first, 28),
            owed: small_at(second, 0, 6),
        },
        9 => Rec::TNil,
        10 => Rec::TCons {
            tree: place_at(first, 6),
            rest: place_at(first, 28),
        },
        11 => Rec::Tree {
            rank: small_at(first, 6, 5),
            item: Item(second),
            kids: place_at(third, 0),
        },
        12 => Rec::CatNil,
        13 => Rec::CatNode {
            item: Item(second),
            kids: place_at(third, 0),
            size: size_at(third, 22),
        },
        14 => Rec::TEmpty,
        15 => Rec::Leaf { item: Item(second) },
        16 => Rec::Node {
            count: small_at(first, 6, 2),
            e1: place_at(first, 8),
            e2: place_at(first, 30),
            e3: place_at(second, 0),
            size: size_at(second, 22),
            key: Item(third),
        },
        17 => Rec::Digit {
            count: small_at(first, 6, 3),
            e1: place_at(first, 9),
            e2: place_at(first, 31),
            e3: place_at(second, 0),
            e4: place_at(second, 22),
            size: size_at(third, 0),
            key: Item(fourth),
        },
        18 => Rec::Single {
            elem: place_at(first, 6),
            size: size_at(first, 28),
            key: Item(second),
        },
        19 => Rec::Deep {
            left: place_at(first, 6),
            middle: place_at(first, 28),
            right: place_at(second, 0),
            size: size_at(second, 22),
            key: Item(third),
        },
        32 => Rec::Append {
            xs: place_at(first, 6),
            ys: place_at(first, 28),
            left: size_at(second, 0),
            origin: place_at(second, 31),
            off: size_at(third, 0),
        },
        33 => Rec::Reverse {
            xs: place_at(first, 6),
            left: size_at(first, 28),
        },
        34 => Rec::BankRot {
            xs: place_at(first, 6),
            rear: place_at(first, 28),
            left: size_at(second, 0),
            origin: place_at(second, 31),
            off: size_at(third, 0),
        },
        35 => Rec::RtRot {
            xs: place_at(first, 6),
            rear: place_at(first, 28),
            acc: place_at(second, 0),
            left: size_at(second, 22),
            origin: place_at(third, 0),
            off: size_at(third, 22),
        },
        36 => Rec::HeapInsert {
            item: Item(second),
            list: place_at(third, 0),
            size: size_at(third, 22),
        },
        37 => Rec::HeapMerge {
            list1: place_at(first, 6),
            list2: place_at(first, 28),
            n1: size_at(second, 0),
            n2: size_at(second, 31),
        },
        38 => Rec::LinkAll {
            queue: place_at(first, 6),
            len: size_at(first, 28),
            size: size_at(second, 0),
            origin: place_at(second, 31),
            off: size_at(third, 0),
        },
        39 => Rec::PushL {
            tree: place_at(first, 6),
            count: small_at(first, 28, 2),
            e1: place_at(first, 30),
            e2: place_at(second, 0),
            origin: place_at(second, 22),
            off: small_at(second, 44, 5),
            size: size_at(third, 0),
            key: Item(fourth),
        },
        40 => Rec::PushR {
            tree: place_at(first, 6),
            count: small_at(first, 28, 2),
            e1: place_at(first, 30),
            e2: place_at(second, 0),
            origin: place_at(second, 22),
            off: small_at(second, 44, 5),
            size: size_at(third, 0),
            key: Item(fourth),
        },
        41 => Rec::DeepL {
            middle: place_at(first, 6),
            digit: place_at(first, 28),
            size: size_at(second, 0),
            origin: place_at(second, 31),
            off: small_at(second, 53, 5),
            key: Item(third),
        },
        42 => Rec::DeepR {
            middle: place_at(first, 6),
            digit: place_at(first, 28),
            size: size_at(second, 0),
            origin: place_at(second, 31),
            off: small_at(second, 53, 5),
            key: Item(third),
        },
        43 => Rec::Concat {
            left: place_at(first, 6),
            right: place_at(first, 28),
            list: place_at(second, 0),
            origin: place_at(second, 22),
            off: small_at(second, 44, 5),
            size: size_at(third, 0),
            key: Item(fourth),
        },
        _ => Rec::Nil,
    }
}

/// A law: two records in range with the same words are one record.
pub fn words_determine_record(first: &Rec, second: &Rec)
    requires first_fits { in_range first.now ≡ true }
    requires second_fits { in_range second.now ≡ true }
    requires same_words { words_of first.now ≡ words_of second.now }
    ensures { first.now ≡ second.now }
{}
