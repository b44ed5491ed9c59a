//! Scripts with replies worked out by hand.

ghost use Rattle.std.specs.Prelude.{◌≡◌, IfOk, map};
ghost use Rattle.lazy_rec.specs.History.{IsScript};

use crate::{is_script, plain_run};
use lazy_rec::limits::MOST_EVENTS;
use lazy_rec::{Event, Kind, Op, Reply};
use std::alloc::{AllocError, Global};
use std::process::Abort;
use std::test::Fail;

/// Rows of a table: an operation, its base, its other and its argument, and the reply. Events are named from 1.
macro_rules! rows {
    ($($op:ident $(($kind:ident))? $base:literal $other:literal $arg:literal => $reply:ident $(($number:literal))?),* $(,)?) => {
        [$((Event { op: Op::$op $((Kind::$kind))?, base: $base, other: $other, arg: $arg }, Reply::$reply $(($number))?)),*]
    };
}

/// Each operation of each kind, on empty and on full bases.
const EACH_OPERATION: &[(Event, Reply)] = &rows![
    New(Stream) 0 0 0 => Ok,
    Size 1 0 0 => Number(0),
    Head 1 0 0 => Empty,
    Tail 1 0 0 => Empty,
    Reverse 1 0 0 => Ok,
    Append 1 1 0 => Ok,
    Cons 4 0 30 => Ok,
    Cons 7 0 20 => Ok,
    Cons 8 0 10 => Ok,
    Head 9 0 0 => Number(10),
    Reverse 9 0 0 => Ok,
    Head 11 0 0 => Number(30),
    Append 11 9 0 => Ok,
    Size 13 0 0 => Number(6),
    Tail 13 0 0 => Ok,
    Head 15 0 0 => Number(20),
    Size 15 0 0 => Number(5),
    Append 1 9 0 => Ok,
    Head 18 0 0 => Number(10),
    New(Bankq) 0 0 0 => Ok,
    Size 20 0 0 => Number(0),
    Head 20 0 0 => Empty,
    Tail 20 0 0 => Empty,
    Snoc 20 0 1 => Ok,
    Snoc 24 0 2 => Ok,
    Head 25 0 0 => Number(1),
    Tail 25 0 0 => Ok,
    Head 27 0 0 => Number(2),
    Size 27 0 0 => Number(1),
    Tail 27 0 0 => Ok,
    Head 30 0 0 => Empty,
    New(Rtq) 0 0 0 => Ok,
    Size 32 0 0 => Number(0),
    Head 32 0 0 => Empty,
    Tail 32 0 0 => Empty,
    Snoc 32 0 7 => Ok,
    Snoc 36 0 8 => Ok,
    Snoc 36 0 9 => Ok,
    Tail 38 0 0 => Ok,
    Head 39 0 0 => Number(9),
    Size 37 0 0 => Number(2),
    Head 37 0 0 => Number(7),
    New(Heap) 0 0 0 => Ok,
    Size 43 0 0 => Number(0),
    Min 43 0 0 => Empty,
    Delmin 43 0 0 => Empty,
    Meld 43 43 0 => Ok,
    Insert 43 0 5 => Ok,
    Insert 48 0 3 => Ok,
    Insert 49 0 5 => Ok,
    Min 50 0 0 => Number(3),
    Delmin 50 0 0 => Ok,
    Min 52 0 0 => Number(5),
    Delmin 52 0 0 => Ok,
    Size 54 0 0 => Number(1),
    Min 54 0 0 => Number(5),
    Meld 49 50 0 => Ok,
    Size 57 0 0 => Number(5),
    Min 57 0 0 => Number(3),
    Meld 47 49 0 => Ok,
    Min 60 0 0 => Number(3),
    New(Seq) 0 0 0 => Ok,
    Size 62 0 0 => Number(0),
    First 62 0 0 => Empty,
    Last 62 0 0 => Empty,
    Popl 62 0 0 => Empty,
    Popr 62 0 0 => Empty,
    Nth 62 0 0 => Empty,
    Take 62 0 3 => Ok,
    Drop 62 0 3 => Ok,
    Concat 62 62 0 => Ok,
    Pushl 62 0 2 => Ok,
    Pushl 72 0 1 => Ok,
    Pushr 73 0 3 => Ok,
    First 74 0 0 => Number(1),
    Last 74 0 0 => Number(3),
    Nth 74 0 1 => Number(2),
    Nth 74 0 3 => Empty,
    Popl 74 0 0 => Ok,
    First 79 0 0 => Number(2),
    Popr 74 0 0 => Ok,
    Last 81 0 0 => Number(2),
    Take 74 0 2 => Ok,
    Last 83 0 0 => Number(2),
    Drop 74 0 2 => Ok,
    First 85 0 0 => Number(3),
    Take 74 0 9 => Ok,
    Size 87 0 0 => Number(3),
    Drop 74 0 9 => Ok,
    Size 89 0 0 => Number(0),
    Concat 85 83 0 => Ok,
    First 91 0 0 => Number(3),
    Last 91 0 0 => Number(2),
    Nth 91 0 1 => Number(1),
    New(Prio) 0 0 0 => Ok,
    Size 95 0 0 => Number(0),
    Max 95 0 0 => Empty,
    Delmax 95 0 0 => Empty,
    Meld 95 95 0 => Ok,
    Insert 95 0 4 => Ok,
    Insert 100 0 9 => Ok,
    Insert 101 0 9 => Ok,
    Max 102 0 0 => Number(9),
    Delmax 102 0 0 => Ok,
    Max 104 0 0 => Number(9),
    Delmax 104 0 0 => Ok,
    Max 106 0 0 => Number(4),
    Meld 106 104 0 => Ok,
    Size 108 0 0 => Number(3),
    Max 108 0 0 => Number(9),
    New(Ord) 0 0 0 => Ok,
    Size 111 0 0 => Number(0),
    Min 111 0 0 => Empty,
    Has 111 0 6 => Number(0),
    Remove 111 0 6 => Empty,
    Upto 111 0 6 => Ok,
    Insert 111 0 6 => Ok,
    Insert 117 0 2 => Ok,
    Insert 118 0 6 => Ok,
    Min 119 0 0 => Number(2),
    Has 119 0 6 => Number(1),
    Has 119 0 5 => Number(0),
    Remove 119 0 6 => Ok,
    Has 123 0 6 => Number(1),
    Size 123 0 0 => Number(2),
    Remove 123 0 5 => Empty,
    Size 126 0 0 => Number(2),
    Upto 119 0 5 => Ok,
    Size 128 0 0 => Number(1),
    Upto 119 0 6 => Ok,
    Size 130 0 0 => Number(3),
    New(Cat) 0 0 0 => Ok,
    Size 132 0 0 => Number(0),
    Head 132 0 0 => Empty,
    Tail 132 0 0 => Empty,
    Append 132 132 0 => Ok,
    Cons 132 0 2 => Ok,
    Snoc 137 0 3 => Ok,
    Cons 138 0 1 => Ok,
    Head 139 0 0 => Number(1),
    Tail 139 0 0 => Ok,
    Append 141 139 0 => Ok,
    Size 142 0 0 => Number(5),
    Head 142 0 0 => Number(2),
    Tail 142 0 0 => Ok,
    Head 145 0 0 => Number(3),
    Append 132 138 0 => Ok,
    Head 147 0 0 => Number(2),
];

/// A script without an event.
const NO_EVENT: &[(Event, Reply)] = &[];

/// The smallest rotation.
const SMALLEST_ROTATION: &[(Event, Reply)] = &rows![
    New(Bankq) 0 0 0 => Ok,
    Snoc 1 0 5 => Ok,
    Head 2 0 0 => Number(5),
    Tail 2 0 0 => Ok,
    Head 4 0 0 => Empty,
];

/// Branching.
const BRANCHING: &[(Event, Reply)] = &rows![
    New(Bankq) 0 0 0 => Ok,
    Snoc 1 0 10 => Ok,
    Snoc 2 0 20 => Ok,
    Snoc 3 0 30 => Ok,
    Tail 4 0 0 => Ok,
    Tail 4 0 0 => Ok,
    Head 5 0 0 => Number(20),
    Head 6 0 0 => Number(20),
];

/// A real-time queue.
const REAL_TIME_QUEUE: &[(Event, Reply)] = &rows![
    New(Rtq) 0 0 0 => Ok,
    Snoc 1 0 1 => Ok,
    Snoc 2 0 2 => Ok,
    Snoc 3 0 3 => Ok,
    Snoc 4 0 4 => Ok,
    Snoc 5 0 5 => Ok,
    Snoc 6 0 6 => Ok,
    Snoc 7 0 7 => Ok,
    Tail 1 0 0 => Empty,
    Tail 2 0 0 => Ok,
    Tail 3 0 0 => Ok,
    Tail 4 0 0 => Ok,
    Tail 5 0 0 => Ok,
    Tail 6 0 0 => Ok,
    Tail 7 0 0 => Ok,
    Tail 8 0 0 => Ok,
];

/// Ties and paying twice.
const TIES: &[(Event, Reply)] = &rows![
    New(Heap) 0 0 0 => Ok,
    Insert 1 0 4 => Ok,
    Insert 2 0 4 => Ok,
    Insert 3 0 1 => Ok,
    Min 4 0 0 => Number(1),
    Min 4 0 0 => Number(1),
    Delmin 4 0 0 => Ok,
    Min 7 0 0 => Number(4),
];

/// A heap melded with itself.
const MELDED_WITH_ITSELF: &[(Event, Reply)] = &rows![
    New(Heap) 0 0 0 => Ok,
    Insert 1 0 9 => Ok,
    Meld 2 2 0 => Ok,
    Min 3 0 0 => Number(9),
    Delmin 3 0 0 => Ok,
    Size 5 0 0 => Number(1),
    Min 5 0 0 => Number(9),
];

/// A stream.
const STREAM: &[(Event, Reply)] = &rows![
    New(Stream) 0 0 0 => Ok,
    Cons 1 0 2 => Ok,
    Cons 2 0 1 => Ok,
    Append 3 3 0 => Ok,
    Reverse 4 0 0 => Ok,
    Head 5 0 0 => Number(2),
];

/// A sequence.
const SEQUENCE: &[(Event, Reply)] = &rows![
    New(Seq) 0 0 0 => Ok,
    Pushr 1 0 0 => Ok,
    Pushr 2 0 1 => Ok,
    Pushr 3 0 2 => Ok,
    Pushr 4 0 3 => Ok,
    Pushr 5 0 4 => Ok,
    Pushr 6 0 5 => Ok,
    Pushr 7 0 6 => Ok,
    Pushr 8 0 7 => Ok,
    Pushr 9 0 8 => Ok,
    Pushr 10 0 9 => Ok,
    Pushr 11 0 10 => Ok,
    Pushr 12 0 11 => Ok,
    Pushr 13 0 12 => Ok,
    Pushr 14 0 13 => Ok,
    Pushr 15 0 14 => Ok,
    Pushr 16 0 15 => Ok,
    Pushr 17 0 16 => Ok,
    Nth 18 0 0 => Number(0),
    Nth 18 0 16 => Number(16),
    Nth 18 0 17 => Empty,
    Nth 18 0 5 => Number(5),
];

/// Both ends of a cut.
const ENDS_OF_A_CUT: &[(Event, Reply)] = &rows![
    New(Seq) 0 0 0 => Ok,
    Pushr 1 0 1 => Ok,
    Pushr 2 0 2 => Ok,
    Pushr 3 0 3 => Ok,
    Pushr 4 0 4 => Ok,
    Pushr 5 0 5 => Ok,
    Pushr 6 0 6 => Ok,
    Pushr 7 0 7 => Ok,
    Pushr 8 0 8 => Ok,
    Pushr 9 0 9 => Ok,
    New(Seq) 0 0 0 => Ok,
    Pushr 11 0 10 => Ok,
    Concat 10 12 0 => Ok,
    Take 13 0 0 => Ok,
    Take 13 0 10 => Ok,
    Drop 13 0 10 => Ok,
    Drop 13 0 9 => Ok,
    Size 14 0 0 => Number(0),
    Size 15 0 0 => Number(10),
    Size 16 0 0 => Number(0),
    First 17 0 0 => Number(10),
];

/// Equal greatest keys.
const EQUAL_GREATEST: &[(Event, Reply)] = &rows![
    New(Prio) 0 0 0 => Ok,
    Insert 1 0 5 => Ok,
    Insert 2 0 9 => Ok,
    Insert 3 0 9 => Ok,
    Max 4 0 0 => Number(9),
    Delmax 4 0 0 => Ok,
    Max 6 0 0 => Number(9),
    Delmax 6 0 0 => Ok,
    Max 8 0 0 => Number(5),
];

/// Left nesting.
const LEFT_NESTING: &[(Event, Reply)] = &rows![
    New(Cat) 0 0 0 => Ok,
    Cons 1 0 1 => Ok,
    Cons 1 0 2 => Ok,
    Cons 1 0 3 => Ok,
    Cons 1 0 4 => Ok,
    Append 2 3 0 => Ok,
    Append 6 4 0 => Ok,
    Append 7 5 0 => Ok,
    Tail 8 0 0 => Ok,
    Tail 8 0 0 => Ok,
    Head 9 0 0 => Number(2),
    Tail 9 0 0 => Ok,
    Head 12 0 0 => Number(3),
    Tail 12 0 0 => Ok,
    Head 14 0 0 => Number(4),
    Tail 14 0 0 => Ok,
    Head 16 0 0 => Empty,
];

/// An ordered sequence.
const ORDERED_SEQUENCE: &[(Event, Reply)] = &rows![
    New(Ord) 0 0 0 => Ok,
    Insert 1 0 30 => Ok,
    Insert 2 0 10 => Ok,
    Insert 3 0 20 => Ok,
    Min 4 0 0 => Number(10),
    Has 4 0 20 => Number(1),
    Has 4 0 25 => Number(0),
    Remove 4 0 20 => Ok,
    Has 8 0 20 => Number(0),
    Remove 8 0 20 => Empty,
    Size 10 0 0 => Number(2),
    Upto 4 0 20 => Ok,
    Size 12 0 0 => Number(2),
];

/// Two parts of a sequence. The number 2147483652 stands for the second version of the name 4.
const SECOND_VERSIONS: &[(Event, Reply)] = &rows![
    New(Seq) 0 0 0 => Ok,
    Pushr 1 0 1 => Ok,
    Pushr 2 0 2 => Ok,
    Split 3 0 1 => Ok,
    First 4 0 0 => Number(1),
    First 2147483652 0 0 => Number(2),
    Size 2147483652 0 0 => Number(1),
    Split 2147483652 0 5 => Ok,
    Size 2147483656 0 0 => Number(0),
    First 2147483656 0 0 => Empty,
];

/// Cuts at both ends and within, and parts put together again.
const CUTS: &[(Event, Reply)] = &rows![
    New(Seq) 0 0 0 => Ok,
    Split 1 0 0 => Ok,
    Size 2 0 0 => Number(0),
    Size 2147483650 0 0 => Number(0),
    Pushr 2147483650 0 7 => Ok,
    Pushr 5 0 8 => Ok,
    Pushr 6 0 9 => Ok,
    Split 7 0 0 => Ok,
    Size 8 0 0 => Number(0),
    Size 2147483656 0 0 => Number(3),
    Split 2147483656 0 2 => Ok,
    Last 11 0 0 => Number(8),
    First 2147483659 0 0 => Number(9),
    Concat 2147483659 11 0 => Ok,
    First 14 0 0 => Number(9),
    Last 14 0 0 => Number(8),
    Concat 11 2147483659 0 => Ok,
    Nth 17 0 2 => Number(9),
    Size 17 0 0 => Number(3),
    Split 17 0 18446744073709551615 => Ok,
    Size 20 0 0 => Number(3),
    Size 2147483668 0 0 => Number(0),
];

/// Items of more than 32 bits.
const WIDE_ITEMS: &[(Event, Reply)] = &rows![
    New(Prio) 0 0 0 => Ok,
    Insert 1 0 18446744073709551615 => Ok,
    Insert 2 0 4294967296 => Ok,
    Max 3 0 0 => Number(18446744073709551615),
    Delmax 3 0 0 => Ok,
    Max 5 0 0 => Number(4294967296),
];

fn events_of(alloc: Global, table: &[(Event, Reply)]) -> Result<Vec<Event>, AllocError>
    ensures { IfOk result (λ events. events.items ≡ map (λ row. row.0) table.now) }
{
    table.iter().map(|row| row.0).collect(alloc)
}

/// Runs the events of a table and compares each reply.
fn compare(rt: &impl Abort, alloc: Global, table: &[(Event, Reply)]) -> Result<(), Fail>
    requires { IsScript (map (λ row. row.0) table.now) }
{
    let events = events_of(alloc, table)?;
    let wanted: Vec<Reply> = table.iter().map(|row| row.1).collect(alloc)?;
    let replies = plain_run(alloc, events.as_slice())?;
    assert_eq!(rt; replies.as_slice(), wanted.as_slice());
    Ok(())
}

#[test]
fn each_operation_of_each_kind(rt: HostRuntime) -> Result<(), Fail> {
    compare(&rt, rt.alloc(), EACH_OPERATION)
}

#[test]
fn small_scripts(rt: HostRuntime) -> Result<(), Fail> {
    compare(&rt, rt.alloc(), NO_EVENT)?;
    compare(&rt, rt.alloc(), SMALLEST_ROTATION)?;
    compare(&rt, rt.alloc(), BRANCHING)?;
    compare(&rt, rt.alloc(), REAL_TIME_QUEUE)?;
    compare(&rt, rt.alloc(), TIES)?;
    compare(&rt, rt.alloc(), MELDED_WITH_ITSELF)?;
    compare(&rt, rt.alloc(), STREAM)?;
    compare(&rt, rt.alloc(), SEQUENCE)?;
    compare(&rt, rt.alloc(), ENDS_OF_A_CUT)?;
    compare(&rt, rt.alloc(), EQUAL_GREATEST)?;
    compare(&rt, rt.alloc(), LEFT_NESTING)?;
    compare(&rt, rt.alloc(), ORDERED_SEQUENCE)?;
    Ok(())
}

#[test]
fn splits_and_wide_items(rt: HostRuntime) -> Result<(), Fail> {
    compare(&rt, rt.alloc(), SECOND_VERSIONS)?;
    compare(&rt, rt.alloc(), CUTS)?;
    compare(&rt, rt.alloc(), WIDE_ITEMS)?;
    Ok(())
}

/// Rows of a table: an operation, its base, its other and its argument.
macro_rules! events {
    ($($op:ident $(($kind:ident))? $base:literal $other:literal $arg:literal),* $(,)?) => {
        [$(Event { op: Op::$op $((Kind::$kind))?, base: $base, other: $other, arg: $arg }),*]
    };
}

/// Asks whether events make a script.
fn is_it(rt: &impl Abort, alloc: Global, events: &[Event], wanted: bool) -> Result<(), Fail> {
    let is = is_script(alloc, events)?;
    assert_eq!(rt; is, wanted);
    Ok(())
}

#[test]
fn scripts_and_others(rt: HostRuntime) -> Result<(), Fail> {
    let alloc = rt.alloc();
    is_it(&rt, alloc, &events![], true)?;
    is_it(
        &rt,
        alloc,
        &events![New(Seq) 0 0 0, Pushr 1 0 5, Split 2 0 1, Concat 2147483651 3 0, Size 4 0 0],
        true,
    )?;
    is_it(
        &rt,
        alloc,
        &events![New(Heap) 0 0 0, New(Seq) 0 0 0, Insert 1 0 5, Meld 1 3 0],
        true,
    )?;
    // a field that isn't used is not 0: the base, the other, the argument
    is_it(&rt, alloc, &events![New(Seq) 0 0 0, New(Seq) 1 0 0], false)?;
    is_it(&rt, alloc, &events![New(Seq) 0 0 0, Size 1 1 0], false)?;
    is_it(&rt, alloc, &events![New(Seq) 0 0 0, Size 1 0 1], false)?;
    // no smaller name: none, the event's own, a later one, as the other
    is_it(&rt, alloc, &events![New(Seq) 0 0 0, Size 0 0 0], false)?;
    is_it(&rt, alloc, &events![New(Seq) 0 0 0, Size 2 0 0], false)?;
    is_it(
        &rt,
        alloc,
        &events![New(Seq) 0 0 0, Size 3 0 0, New(Seq) 0 0 0],
        false,
    )?;
    is_it(&rt, alloc, &events![New(Seq) 0 0 0, Concat 1 2 0], false)?;
    // the kind hasn't the operation, and two kinds that both have it
    is_it(&rt, alloc, &events![New(Seq) 0 0 0, Insert 1 0 5], false)?;
    is_it(
        &rt,
        alloc,
        &events![New(Heap) 0 0 0, New(Prio) 0 0 0, Meld 1 2 0],
        false,
    )?;
    // a second version of an event that is no split, and of none
    is_it(
        &rt,
        alloc,
        &events![New(Seq) 0 0 0, Pushr 1 0 5, Size 2147483650 0 0],
        false,
    )?;
    is_it(
        &rt,
        alloc,
        &events![New(Seq) 0 0 0, Size 2147483648 0 0],
        false,
    )
}

#[test]
fn most_events(rt: HostRuntime) -> Result<(), Fail> {
    let alloc = rt.alloc();
    let mut events = Vec::new(alloc);
    for _ in 0..MOST_EVENTS {
        events.push(events![New(Cat) 0 0 0][0])?;
    }
    is_it(&rt, alloc, events.as_slice(), true)?;
    events.push(events![New(Cat) 0 0 0][0])?;
    is_it(&rt, alloc, events.as_slice(), false)
}
