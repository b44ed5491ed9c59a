//! The ranges of a record's fields.

ghost use Rattle.std.specs.Prelude.{◌≡◌, ◌^◌, eqb, leb, ltb, ◌&&◌, ◌||◌};
ghost use Rattle.lazy_rec.specs.Tests.{implies};
ghost use Rattle.lazy_rec.specs.Packed.{place, size, item, fits_field, in_range};

use crate::limits::MOST_PLACES;
use crate::places::{Item, Ref};
use crate::records::Rec;

fn is_place(r: Ref) -> bool
    ensures { result ≡ fits_field (place r) }
{
    r.0 < 1 << 22
}

fn is_size(n: u32) -> bool
    ensures { result ≡ fits_field (size n) }
{
    n < 1 << 31
}

/// Always true: an item has 64 bits.
fn is_item(x: Item) -> bool
    ensures { result ≡ fits_field (item x) }
{
    let _value = x.0;
    true
}

/// A child's value is a place.
fn is_entry(child: bool, value: u64) -> bool
    ensures { result ≡ implies child (ltb value MOST_PLACES) }
{
    !child || value < u64::from(MOST_PLACES)
}

/// A node has two or three elements, and an unused one is 0.
fn is_node_count(count: u8, e3: Ref) -> bool
    ensures { result ≡ (leb 2 count && (ltb 2 count || eqb e3.0 0)) }
{
    2 <= count && (2 < count || e3.0 == 0)
}

/// A digit has one to four elements, and an unused one is 0.
fn is_digit_count(count: u8, e2: Ref, e3: Ref, e4: Ref) -> bool
    ensures { result ≡ (leb 1 count && leb count 4 && (ltb 3 count || eqb e4.0 0) && (ltb 2 count || eqb e3.0 0) && (ltb 1 count || eqb e2.0 0)) }
{
    1 <= count
        && count <= 4
        && (3 < count || e4.0 == 0)
        && (2 < count || e3.0 == 0)
        && (1 < count || e2.0 == 0)
}

/// One or two elements are pushed, and an unused one is 0.
fn is_push_count(count: u8, e2: Ref) -> bool
    ensures { result ≡ (leb 1 count && leb count 2 && (ltb 1 count || eqb e2.0 0)) }
{
    1 <= count && count <= 2 && (1 < count || e2.0 == 0)
}

impl Rec {
    /// Whether each field of the record is in its range: places are below 4,194,304, sizes and counts of items below
    /// 2,147,483,648, and so on for the short fields; a child's value is a place, elements that a count leaves unused are
    /// 0, and a banker's queue without a rotation has 0 in the fields of one.
    pub fn fits(&self) -> bool
        ensures { result ≡ in_range self.now }
    {
        match *self {
            Rec::Nil => true,
            Rec::Cons { child, value, rest } => is_place(rest) && is_entry(child, value),
            Rec::LNil => true,
            Rec::LCons { child, value, rest } => is_place(rest) && is_entry(child, value),
            Rec::StreamTop { cells, size } => is_place(cells) && is_size(size),
            Rec::BankTop {
                front,
                lenf,
                rear,
                lenr,
                rotated,
                origin,
                n,
                tails,
            } => is_place(front)
                && is_size(lenf)
                && is_place(rear)
                && is_size(lenr)
                && is_place(origin)
                && is_size(n)
                && is_size(tails)
                && (rotated || origin.0 == 0 && n == 0 && tails == 0),
            Rec::RtTop {
                front,
                lenf,
                rear,
                lenr,
                sched,
            } => is_place(front)
                && is_size(lenf)
                && is_place(rear)
                && is_size(lenr)
                && is_place(sched),
            Rec::HeapTop { list, size, owed } => is_place(list) && is_size(size) && owed < 1 << 6,
            Rec::TNil => true,
            Rec::TCons { tree, rest } => is_place(tree) && is_place(rest),
            Rec::Tree { rank, item, kids } => rank < 1 << 5 && is_item(item) && is_place(kids),
            Rec::CatNil => true,
            Rec::CatNode { item, kids, size } => is_item(item) && is_place(kids) && is_size(size),
            Rec::TEmpty => true,
            Rec::Leaf { item } => is_item(item),
            Rec::Node {
                count,
                e1,
                e2,
                e3,
                size,
                key,
            } => count < 1 << 2
                && is_place(e1)
                && is_place(e2)
                && is_place(e3)
                && is_size(size)
                && is_item(key)
                && is_node_count(count, e3),
            Rec::Digit {
                count,
                e1,
                e2,
                e3,
                e4,
                size,
                key,
            } => count < 1 << 3
                && is_place(e1)
                && is_place(e2)
                && is_place(e3)
                && is_place(e4)
                && is_size(size)
                && is_item(key)
                && is_digit_count(count, e2, e3, e4),
            Rec::Single { elem, size, key } => is_place(elem) && is_size(size) && is_item(key),
            Rec::Deep {
                left,
                middle,
                right,
                size,
                key,
            } => is_place(left)
                && is_place(middle)
                && is_place(right)
                && is_size(size)
                && is_item(key),
            Rec::Append {
                xs,
                ys,
                left,
                origin,
                off,
            } => is_place(xs) && is_place(ys) && is_size(left) && is_place(origin) && is_size(off),
            Rec::Reverse { xs, left } => is_place(xs) && is_size(left),
            Rec::BankRot {
                xs,
                rear,
                left,
                origin,
                off,
            } => is_place(xs)
                && is_place(rear)
                && is_size(left)
                && is_place(origin)
                && is_size(off),
            Rec::RtRot {
                xs,
                rear,
                acc,
                left,
                origin,
                off,
            } => is_place(xs)
                && is_place(rear)
                && is_place(acc)
                && is_size(left)
                && is_place(origin)
                && is_size(off),
            Rec::HeapInsert { item, list, size } => is_item(item)
                && is_place(list)
                && is_size(size),
            Rec::HeapMerge {
                list1,
                list2,
                n1,
                n2,
            } => is_place(list1) && is_place(list2) && is_size(n1) && is_size(n2),
            Rec::LinkAll {
                queue,
                len,
                size,
                origin,
                off,
            } => is_place(queue)
                && is_size(len)
                && is_size(size)
                && is_place(origin)
                && is_size(off),
            Rec::PushL {
                tree,
                count,
                e1,
                e2,
                origin,
                off,
                size,
                key,
            } => is_place(tree)
                && count < 1 << 2
                && is_place(e1)
                && is_place(e2)
                && is_place(origin)
                && off < 1 << 5
                && is_size(size)
                && is_item(key)
                && is_push_count(count, e2),
            Rec::PushR {
                tree,
                count,
                e1,
                e2,
                origin,
                off,
                size,
                key,
            } => is_place(tree)
                && count < 1 << 2
                && is_place(e1)
                && is_place(e2)
                && is_place(origin)
                && off < 1 << 5
                && is_size(size)
                && is_item(key)
                && is_push_count(count, e2),
            Rec::DeepL {
                middle,
                digit,
                size,
                origin,
                off,
                key,
            } => is_place(middle)
                && is_place(digit)
                && is_size(size)
                && is_place(origin)
                && off < 1 << 5
                && is_item(key),
            Rec::DeepR {
                middle,
                digit,
                size,
                origin,
                off,
                key,
            } => is_place(middle)
                && is_place(digit)
                && is_size(size)
                && is_place(origin)
                && off < 1 << 5
                && is_item(key),
            Rec::Concat {
                left,
                right,
                list,
                origin,
                off,
                size,
                key,
            } => is_place(left)
                && is_place(right)
                && is_place(list)
                && is_place(origin)
                && off < 1 << 5
                && is_size(size)
                && is_item(key),
        }
    }
}
