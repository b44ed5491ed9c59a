//! The tables of dues and node bounds, with numbers that were worked out apart from the code.

use super::*;
use std::process::Abort;

/// The sizes at which each line is tried. The other version of an event has the size at the same distance from the end.
const SIZES: [u32; 9] = [0, 1, 2, 3, 7, 8, 1023, 1024, 2_147_483_647];

/// A line: a kind, an operation, whether it may force, its dues and its node bounds at the nine sizes.
type Line = (Kind, Op, bool, [u64; 9], [u64; 9]);

macro_rules! lines {
    ($($kind:ident $op:expr, $may_force:literal, $dues:expr, $places:expr;)*) => {
        [$((Kind::$kind, $op, $may_force, $dues, $places),)*]
    };
}

static LINES: [Line; 56] = lines! {
    Stream Op::New(Kind::Stream), false, [0, 0, 0, 0, 0, 0, 0, 0, 0], [1, 1, 1, 1, 1, 1, 1, 1, 1];
    Stream Op::Size, false, [0, 0, 0, 0, 0, 0, 0, 0, 0], [0, 0, 0, 0, 0, 0, 0, 0, 0];
    Stream Op::Cons, false, [0, 0, 0, 0, 0, 0, 0, 0, 0], [2, 2, 2, 2, 2, 2, 2, 2, 2];
    Stream Op::Append, false, [0, 1, 2, 3, 7, 8, 1023, 1024, 2147483647], [2, 2, 2, 2, 2, 2, 2, 2, 2];
    Stream Op::Reverse, false, [0, 1, 2, 3, 7, 8, 1023, 1024, 2147483647], [2, 2, 2, 2, 2, 2, 2, 2, 2];
    Stream Op::Head, true, [0, 0, 0, 0, 0, 0, 0, 0, 0], [0, 0, 0, 0, 0, 0, 0, 0, 0];
    Stream Op::Tail, true, [0, 0, 0, 0, 0, 0, 0, 0, 0], [1, 1, 1, 1, 1, 1, 1, 1, 1];
    Bankq Op::New(Kind::Bankq), false, [0, 0, 0, 0, 0, 0, 0, 0, 0], [1, 1, 1, 1, 1, 1, 1, 1, 1];
    Bankq Op::Size, false, [0, 0, 0, 0, 0, 0, 0, 0, 0], [0, 0, 0, 0, 0, 0, 0, 0, 0];
    Bankq Op::Snoc, false, [1, 1, 1, 1, 1, 1, 1, 1, 1], [3, 3, 3, 3, 3, 3, 3, 3, 3];
    Bankq Op::Head, true, [0, 0, 0, 0, 0, 0, 0, 0, 0], [0, 0, 0, 0, 0, 0, 0, 0, 0];
    Bankq Op::Tail, true, [2, 2, 2, 2, 2, 2, 2, 2, 2], [2, 2, 2, 2, 2, 2, 2, 2, 2];
    Rtq Op::New(Kind::Rtq), false, [0, 0, 0, 0, 0, 0, 0, 0, 0], [1, 1, 1, 1, 1, 1, 1, 1, 1];
    Rtq Op::Size, false, [0, 0, 0, 0, 0, 0, 0, 0, 0], [0, 0, 0, 0, 0, 0, 0, 0, 0];
    Rtq Op::Snoc, true, [1, 1, 1, 1, 1, 1, 1, 1, 1], [3, 3, 3, 3, 3, 3, 3, 3, 3];
    Rtq Op::Head, true, [0, 0, 0, 0, 0, 0, 0, 0, 0], [0, 0, 0, 0, 0, 0, 0, 0, 0];
    Rtq Op::Tail, true, [1, 1, 1, 1, 1, 1, 1, 1, 1], [2, 2, 2, 2, 2, 2, 2, 2, 2];
    Heap Op::New(Kind::Heap), false, [0, 0, 0, 0, 0, 0, 0, 0, 0], [1, 1, 1, 1, 1, 1, 1, 1, 1];
    Heap Op::Size, false, [0, 0, 0, 0, 0, 0, 0, 0, 0], [0, 0, 0, 0, 0, 0, 0, 0, 0];
    Heap Op::Insert, false, [2, 2, 2, 2, 2, 2, 2, 2, 2], [2, 2, 2, 2, 2, 2, 2, 2, 2];
    Heap Op::Min, true, [0, 1, 2, 2, 3, 4, 10, 11, 31], [1, 1, 1, 1, 1, 1, 1, 1, 1];
    Heap Op::Delmin, true, [0, 2, 4, 4, 6, 8, 20, 22, 62], [3, 5, 7, 7, 9, 11, 23, 25, 65];
    Heap Op::Meld, false, [32, 13, 13, 7, 7, 7, 13, 13, 32], [2, 2, 2, 2, 2, 2, 2, 2, 2];
    Seq Op::New(Kind::Seq), false, [0, 0, 0, 0, 0, 0, 0, 0, 0], [0, 0, 0, 0, 0, 0, 0, 0, 0];
    Seq Op::Size, false, [0, 0, 0, 0, 0, 0, 0, 0, 0], [0, 0, 0, 0, 0, 0, 0, 0, 0];
    Seq Op::Pushl, false, [1, 2, 2, 3, 4, 4, 11, 11, 32], [6, 6, 6, 6, 6, 6, 6, 6, 6];
    Seq Op::Pushr, false, [1, 2, 2, 3, 4, 4, 11, 11, 32], [6, 6, 6, 6, 6, 6, 6, 6, 6];
    Seq Op::Popl, true, [0, 1, 2, 2, 3, 4, 10, 11, 31], [6, 6, 6, 6, 6, 6, 6, 6, 6];
    Seq Op::Popr, true, [0, 1, 2, 2, 3, 4, 10, 11, 31], [6, 6, 6, 6, 6, 6, 6, 6, 6];
    Seq Op::First, false, [0, 0, 0, 0, 0, 0, 0, 0, 0], [0, 0, 0, 0, 0, 0, 0, 0, 0];
    Seq Op::Last, false, [0, 0, 0, 0, 0, 0, 0, 0, 0], [0, 0, 0, 0, 0, 0, 0, 0, 0];
    Seq Op::Nth, true, [0, 0, 0, 0, 0, 0, 0, 0, 0], [0, 0, 0, 0, 0, 0, 0, 0, 0];
    Seq Op::Take, true, [0, 1, 4, 4, 9, 16, 100, 121, 961], [4, 8, 12, 12, 16, 20, 44, 48, 128];
    Seq Op::Drop, true, [0, 1, 4, 4, 9, 16, 100, 121, 961], [4, 8, 12, 12, 16, 20, 44, 48, 128];
    Seq Op::Concat, false, [31, 11, 11, 4, 4, 4, 11, 11, 31], [8, 8, 8, 8, 8, 8, 8, 8, 8];
    Seq Op::Split, true, [0, 2, 8, 8, 18, 32, 200, 242, 1922], [8, 16, 24, 24, 32, 40, 88, 96, 256];
    Prio Op::New(Kind::Prio), false, [0, 0, 0, 0, 0, 0, 0, 0, 0], [0, 0, 0, 0, 0, 0, 0, 0, 0];
    Prio Op::Size, false, [0, 0, 0, 0, 0, 0, 0, 0, 0], [0, 0, 0, 0, 0, 0, 0, 0, 0];
    Prio Op::Insert, false, [1, 2, 2, 3, 4, 4, 11, 11, 32], [6, 6, 6, 6, 6, 6, 6, 6, 6];
    Prio Op::Max, false, [0, 0, 0, 0, 0, 0, 0, 0, 0], [0, 0, 0, 0, 0, 0, 0, 0, 0];
    Prio Op::Delmax, true, [0, 3, 10, 10, 21, 36, 210, 253, 1953], [16, 24, 32, 32, 40, 48, 96, 104, 264];
    Prio Op::Meld, false, [31, 11, 11, 4, 4, 4, 11, 11, 31], [8, 8, 8, 8, 8, 8, 8, 8, 8];
    Ord Op::New(Kind::Ord), false, [0, 0, 0, 0, 0, 0, 0, 0, 0], [0, 0, 0, 0, 0, 0, 0, 0, 0];
    Ord Op::Size, false, [0, 0, 0, 0, 0, 0, 0, 0, 0], [0, 0, 0, 0, 0, 0, 0, 0, 0];
    Ord Op::Insert, true, [1, 4, 10, 11, 22, 36, 211, 253, 1954], [20, 28, 36, 36, 44, 52, 100, 108, 268];
    Ord Op::Min, false, [0, 0, 0, 0, 0, 0, 0, 0, 0], [0, 0, 0, 0, 0, 0, 0, 0, 0];
    Ord Op::Has, true, [0, 0, 0, 0, 0, 0, 0, 0, 0], [0, 0, 0, 0, 0, 0, 0, 0, 0];
    Ord Op::Remove, true, [0, 3, 10, 10, 21, 36, 210, 253, 1953], [16, 24, 32, 32, 40, 48, 96, 104, 264];
    Ord Op::Upto, true, [0, 1, 4, 4, 9, 16, 100, 121, 961], [4, 8, 12, 12, 16, 20, 44, 48, 128];
    Cat Op::New(Kind::Cat), false, [0, 0, 0, 0, 0, 0, 0, 0, 0], [0, 0, 0, 0, 0, 0, 0, 0, 0];
    Cat Op::Size, false, [0, 0, 0, 0, 0, 0, 0, 0, 0], [0, 0, 0, 0, 0, 0, 0, 0, 0];
    Cat Op::Cons, false, [1, 1, 1, 1, 1, 1, 1, 1, 1], [6, 6, 6, 6, 6, 6, 6, 6, 6];
    Cat Op::Snoc, true, [1, 1, 1, 1, 1, 1, 1, 1, 1], [6, 6, 6, 6, 6, 6, 6, 6, 6];
    Cat Op::Append, true, [1, 1, 1, 1, 1, 1, 1, 1, 1], [6, 6, 6, 6, 6, 6, 6, 6, 6];
    Cat Op::Head, false, [0, 0, 0, 0, 0, 0, 0, 0, 0], [0, 0, 0, 0, 0, 0, 0, 0, 0];
    Cat Op::Tail, true, [2, 5, 8, 11, 23, 26, 3071, 3074, 6442450943], [8, 8, 8, 8, 8, 8, 8, 8, 8];
};

#[test]
fn every_line(rt: HostRuntime) {
    for line in &LINES {
        one_line(&rt, line);
    }
}

fn one_line(rt: &impl Abort, line: &Line) {
    let (kind, op, may_force, dues, places) = line;
    assert_eq!(rt; never_forces(*kind, *op), !*may_force);
    for i in 0..9 {
        assert_eq!(rt; due(*kind, *op, SIZES[i], SIZES[8 - i]), dues[i]);
        assert_eq!(rt; direct(*kind, *op, SIZES[i], SIZES[8 - i]), places[i]);
    }
}
