//! Kinds of structures, their operations, the events of a script and the replies to them.

ghost use Rattle.std.specs.Prelude.{◌≡◌, ◌<◌, Some, slice_get};
ghost use Rattle.lazy_rec.specs.Kinds.{kind_number, belongs, uses_base, uses_other, uses_argument};
ghost use Rattle.lazy_rec.specs.Numbering.{kind_of_number, op_number, op_of_number};

use std::alloc::{AllocError, AllocFailed};
use thiserror::Error;

/// A kind of structure.
#[derive(Clone, Copy, Debug, PartialEq, Eq)]
pub enum Kind {
    /// A lazy stream with incremental append and monolithic reverse (Okasaki, chapter 4).
    Stream,
    /// The banker's queue (Okasaki, 6.3.2).
    Bankq,
    /// The real-time queue (Okasaki, 7.2).
    Rtq,
    /// The lazy binomial heap (Okasaki, 6.4.1).
    Heap,
    /// A sequence on a finger tree (Hinze and Paterson).
    Seq,
    /// A max-priority queue on a finger tree (Hinze and Paterson).
    Prio,
    /// An ordered sequence on a finger tree (Hinze and Paterson).
    Ord,
    /// The catenable list (Okasaki, 10.2.1).
    Cat,
}

/// An operation. Which kinds have it is the table `kinds_with`.
#[derive(Clone, Copy, Debug, PartialEq, Eq)]
pub enum Op {
    New(Kind),
    Size,
    Cons,
    Snoc,
    Append,
    Reverse,
    Head,
    Tail,
    Insert,
    Min,
    Delmin,
    Meld,
    Max,
    Delmax,
    Pushl,
    Pushr,
    Popl,
    Popr,
    First,
    Last,
    Nth,
    Take,
    Drop,
    Concat,
    Has,
    Remove,
    Upto,
    /// The first items, as many as the argument says, and the rest: two versions under one name.
    Split,
}

/// An operation with the versions that it starts from, and its argument. A version is a name, or `second_of` a name. A
/// field that the operation doesn't use is 0.
#[derive(Clone, Copy, Debug, PartialEq, Eq)]
pub struct Event {
    pub op: Op,
    pub base: u32,
    pub other: u32,
    pub arg: u64,
}

/// What an event answers.
#[derive(Clone, Copy, Debug, PartialEq, Eq)]
pub enum Reply {
    Ok,
    /// An item, a size, or 1 for yes and 0 for no.
    Number(u64),
    /// The operation needs an item that isn't there.
    Empty,
    /// The new version would have more than 2,147,483,647 items.
    TooLong,
}

/// Memory that was asked for couldn't be had.
#[derive(Clone, Copy, Debug, PartialEq, Eq, Error)]
#[error("out of memory")]
pub struct NoMemory;

impl From<AllocError> for NoMemory {
    fn from(_: AllocError) -> NoMemory {
        NoMemory
    }
}

impl<T: Drop> From<AllocFailed<T>> for NoMemory {
    fn from(_: AllocFailed<T>) -> NoMemory {
        NoMemory
    }
}

/// The operations but for `new`, in the order of their numbers, from 1.
const OPS: [Op; 27] = [
    Op::Size,
    Op::Cons,
    Op::Snoc,
    Op::Append,
    Op::Reverse,
    Op::Head,
    Op::Tail,
    Op::Insert,
    Op::Min,
    Op::Delmin,
    Op::Meld,
    Op::Max,
    Op::Delmax,
    Op::Pushl,
    Op::Pushr,
    Op::Popl,
    Op::Popr,
    Op::First,
    Op::Last,
    Op::Nth,
    Op::Take,
    Op::Drop,
    Op::Concat,
    Op::Has,
    Op::Remove,
    Op::Upto,
    Op::Split,
];

/// The element of a table at an index, where there is one.
#[inline]
fn element<X: Copy>(table: &[X], index: usize) -> Option<X>
    ensures { result ≡ slice_get table.now index }
{
    table.get(index).copied()
}

impl Kind {
    /// The number of the kind, from 0.
    #[inline]
    pub fn number(self) -> u32
        ensures number { result ≡ kind_number self }
        ensures small { result < 8 }
    {
        self as u32
    }

    /// The kind with the number.
    #[inline]
    pub fn of_number(number: u32) -> Option<Kind>
        ensures { result ≡ kind_of_number number }
    {
        if number >= 8 {
            return None;
        }
        Some(match number {
            0 => Kind::Stream,
            1 => Kind::Bankq,
            2 => Kind::Rtq,
            3 => Kind::Heap,
            4 => Kind::Seq,
            5 => Kind::Prio,
            6 => Kind::Ord,
            _ => Kind::Cat,
        })
    }

    /// Whether the kind has the operation.
    #[inline(always)]
    pub fn has(self, op: Op) -> bool
        ensures { result ≡ belongs self op }
    {
        match op {
            Op::New(_) => false,
            Op::Size => true,
            Op::Cons | Op::Append => matches!(self, Kind::Stream | Kind::Cat),
            Op::Snoc => matches!(self, Kind::Bankq | Kind::Rtq | Kind::Cat),
            Op::Reverse => matches!(self, Kind::Stream),
            Op::Head | Op::Tail => matches!(
                self,
                Kind::Stream | Kind::Bankq | Kind::Rtq | Kind::Cat
            ),
            Op::Insert => matches!(self, Kind::Heap | Kind::Prio | Kind::Ord),
            Op::Min => matches!(self, Kind::Heap | Kind::Ord),
            Op::Delmin => matches!(self, Kind::Heap),
            Op::Meld => matches!(self, Kind::Heap | Kind::Prio),
            Op::Max | Op::Delmax => matches!(self, Kind::Prio),
            Op::Pushl | Op::Pushr | Op::Popl | Op::Popr => matches!(self, Kind::Seq),
            Op::First | Op::Last | Op::Nth => matches!(self, Kind::Seq),
            Op::Take | Op::Drop | Op::Concat | Op::Split => matches!(self, Kind::Seq),
            Op::Has | Op::Remove | Op::Upto => matches!(self, Kind::Ord),
        }
    }
}

impl Op {
    /// The number of the operation: from 1 on, and for `new` 32 and the kind's number.
    pub fn number(self) -> u32
        ensures number { result ≡ op_number self }
        ensures small { result < 64 }
    {
        match self {
            Op::Size => 1,
            Op::Cons => 2,
            Op::Snoc => 3,
            Op::Append => 4,
            Op::Reverse => 5,
            Op::Head => 6,
            Op::Tail => 7,
            Op::Insert => 8,
            Op::Min => 9,
            Op::Delmin => 10,
            Op::Meld => 11,
            Op::Max => 12,
            Op::Delmax => 13,
            Op::Pushl => 14,
            Op::Pushr => 15,
            Op::Popl => 16,
            Op::Popr => 17,
            Op::First => 18,
            Op::Last => 19,
            Op::Nth => 20,
            Op::Take => 21,
            Op::Drop => 22,
            Op::Concat => 23,
            Op::Has => 24,
            Op::Remove => 25,
            Op::Upto => 26,
            Op::Split => 27,
            Op::New(kind) => 32 + kind.number(),
        }
    }

    /// The operation with the number.
    #[inline(always)]
    pub fn of_number(number: u32) -> Option<Op>
        ensures { result ≡ op_of_number number }
    {
        if number >= 32 {
            Some(Op::New(Kind::of_number(number - 32)?))
        } else if number == 0 {
            None
        } else {
            element(&OPS, number as usize - 1)
        }
    }

    /// Whether the operation starts from a version: each but `new` does.
    #[inline]
    pub fn uses_base(self) -> bool
        ensures { result ≡ uses_base self }
    {
        !matches!(self, Op::New(_))
    }

    /// Whether the operation starts from a second version too.
    #[inline]
    pub fn uses_other(self) -> bool
        ensures { result ≡ uses_other self }
    {
        matches!(self, Op::Append | Op::Meld | Op::Concat)
    }

    /// Whether the operation has an argument.
    #[inline]
    pub fn uses_argument(self) -> bool
        ensures { result ≡ uses_argument self }
    {
        matches!(
            self,
            Op::Cons
                | Op::Snoc
                | Op::Insert
                | Op::Pushl
                | Op::Pushr
                | Op::Nth
                | Op::Take
                | Op::Drop
                | Op::Has
                | Op::Remove
                | Op::Upto
                | Op::Split
        )
    }
}

/// A law: the number of a kind tells the kind.
pub fn number_tells_kind(kind: Kind)
    ensures { kind_of_number (kind_number kind) ≡ Some kind }
{}

/// A law: the number of an operation tells the operation.
pub fn number_tells_op(op: Op)
    ensures { op_of_number (op_number op) ≡ Some op }
{}
