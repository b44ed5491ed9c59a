//! Books by the calls of the library.
ghost use Rattle.std.specs.Prelude.{◌≡◌, ◌≤◌, true, false, IfOk};
ghost use Rattle.lazy_rec.specs.declared.limits.TheConstants.{MOST_NODES};
ghost use Rattle.lazy_rec.specs.declared.events.Kind.TheVariants.{Bankq};
ghost use Rattle.lazy_rec.specs.Kinds.{uses_base, uses_other, uses_argument};
ghost use Rattle.heap_store.specs.Growth.{Grows};
ghost use Rattle.heap_store.specs.View.{IsLawfulView};
ghost use Rattle.kind_table.specs.Kinds.{is_built};
ghost use Rattle.version_book.specs.Calls.{HasSeen};
ghost use Rattle.version_book.specs.Solo.{IsSolo};

use crate::test_scripts::script_of;
use force_engine::Stack;
use heap_store::{PlainHeap, Version};
use lazy_rec::{Kind, Op, Reply};
use std::alloc::Global;
use std::test::Fail;
use version_book::{BookPass, Closed, Ended, Entry, Refuse, solo_book};

/// An operation of a queue on a version, under the next name.
fn extended(
    pass: &mut BookPass<PlainHeap>,
    op: Op,
    base: Version,
    arg: u64,
) -> Result<Entry, Refuse>
    requires solo { IsSolo pass.old }
    requires lawful { IsLawfulView pass.old.view }
    requires seen { HasSeen pass.old base }
    requires kind { base.kind ≡ Bankq }
    requires built { is_built Bankq op ≡ true }
    requires based { uses_base op ≡ true }
    requires alone { uses_other op ≡ false }
    requires argument { uses_argument op ≡ false → arg ≡ 0 }
    ensures solo { IsSolo pass.new }
    ensures lawful { IsLawfulView pass.new.view }
    ensures grows { Grows pass.old.view.seen pass.new.view.seen }
    ensures seen { IfOk result (λ entry. HasSeen pass.new entry.version) }
    ensures kind { IfOk result (λ entry. entry.version.kind ≡ Bankq) }
{
    let ticket = pass.draw()?;
    pass.call(ticket, op, base, base, arg)
}

/// A queue of three items, on a pass that works alone.
fn three_items(pass: &mut BookPass<PlainHeap>) -> Result<Version, Refuse>
    requires solo { IsSolo pass.old }
    requires lawful { IsLawfulView pass.old.view }
    ensures solo { IfOk result (λ _. IsSolo pass.new) }
    ensures lawful { IfOk result (λ _. IsLawfulView pass.new.view) }
    ensures seen { IfOk result (λ three. HasSeen pass.new three) }
    ensures kind { IfOk result (λ three. three.kind ≡ Bankq) }
{
    let ticket = pass.draw()?;
    let empty = pass.begin_new(ticket, Kind::Bankq)?.version;
    let one = extended(pass, Op::Snoc, empty, 5)?.version;
    let two = extended(pass, Op::Snoc, one, 6)?.version;
    let three = extended(pass, Op::Snoc, two, 7)?.version;
    Ok(three)
}

/// A queue of three items, extended twice from one version; both branches are read.
#[test]
fn two_branches(rt: HostRuntime) -> Result<(), Fail> {
    let heap = PlainHeap::open(rt.alloc(), 1_000, 100)?;
    let mut pass = BookPass::new(heap, Stack::open(rt.alloc())?, 0);
    let three = three_items(&mut pass)?;
    let longer = extended(&mut pass, Op::Snoc, three, 8)?.version;
    let shorter = extended(&mut pass, Op::Tail, three, 0)?.version;
    let first = extended(&mut pass, Op::Head, longer, 0)?.reply;
    let second = extended(&mut pass, Op::Head, shorter, 0)?.reply;
    assert_eq!(rt; (first, second), (Reply::Number(5), Reply::Number(6)));
    assert_eq!(rt; (longer.size, shorter.size), (4, 2));
    Ok(())
}

/// How a row ended, without its versions.
#[derive(Clone, Copy, Debug, PartialEq, Eq)]
enum Answer {
    Ok,
    Number(u64),
    Empty,
    Full(u64, u32),
    NoBase,
    Other,
}

fn answer_of(ended: Ended) -> Answer {
    match ended {
        Ended::Reply { reply, .. } => match reply {
            Reply::Ok => Answer::Ok,
            Reply::Number(number) => Answer::Number(number),
            Reply::Empty => Answer::Empty,
            Reply::TooLong => Answer::Other,
        },
        Ended::Full { drawn, wanted } => Answer::Full(drawn, wanted),
        Ended::NoBase => Answer::NoBase,
        Ended::Memory => Answer::Other,
    }
}

/// The smallest rotation; three items and two branches; a store of no node, and one of four.
const BOOKS: [(u32, &str, &[Answer]); 4] = [
    (
        100,
        "lazy 1\nnew bankq\nsnoc 1 5\nhead 2\ntail 2\nhead 4\n",
        &[
            Answer::Ok,
            Answer::Ok,
            Answer::Number(5),
            Answer::Ok,
            Answer::Empty,
        ],
    ),
    (
        100,
        "lazy 1\nnew bankq\nsnoc 1 10\nsnoc 2 20\nsnoc 3 30\ntail 4\ntail 4\nhead 5\nhead 6\n",
        &[
            Answer::Ok,
            Answer::Ok,
            Answer::Ok,
            Answer::Ok,
            Answer::Ok,
            Answer::Ok,
            Answer::Number(20),
            Answer::Number(20),
        ],
    ),
    (
        0,
        "lazy 1\nnew bankq\nsnoc 1 5\n",
        &[Answer::Full(0, 1), Answer::NoBase],
    ),
    (
        4,
        "lazy 1\nnew bankq\nsnoc 1 5\nhead 2\ntail 2\nhead 4\n",
        &[
            Answer::Ok,
            Answer::Ok,
            Answer::Full(4, 1),
            Answer::Full(4, 1),
            Answer::NoBase,
        ],
    ),
];

/// The closed book of a script, all of whose events are built.
fn book_of(alloc: Global, nodes: u32, text: &str) -> Result<Closed, Fail>
    requires { nodes ≤ MOST_NODES }
{
    let script = script_of(alloc, text)?;
    Ok(solo_book(alloc, nodes, script.events())?)
}

#[test]
fn books(rt: HostRuntime) -> Result<(), Fail> {
    for (nodes, text, rows) in &BOOKS {
        let closed = book_of(rt.alloc(), *nodes, text)?;
        assert_eq!(rt; closed.rows() as usize, rows.len(), "{text}");
        for name in 1..closed.rows() + 1 {
            let row = closed.row(name);
            assert_eq!(rt;
                answer_of(row.ended),
                rows[name as usize - 1],
                "{name} of {text}"
            );
        }
    }
    Ok(())
}

/// 1,022 items, 500 rotations of them from one version, and the head of each.
#[test]
fn rotations_by_the_book(rt: HostRuntime) -> Result<(), Fail> {
    let alloc = rt.alloc();
    let mut text = String::from_str(alloc, "lazy 1\nnew bankq\n")?;
    for k in 1..1_023 {
        text.push_str(format!(in alloc; "snoc {k} 7\n")?.as_str())?;
    }
    for _ in 0..500 {
        text.push_str("snoc 1023 7\n")?;
    }
    let totals = book_of(alloc, 100_000, text.as_str())?.totals();
    assert_eq!(rt; (totals.forced, totals.steps, totals.dues), (0, 0, 1_522));
    for k in 1_024..1_524 {
        text.push_str(format!(in alloc; "head {k}\n")?.as_str())?;
    }
    let closed = book_of(alloc, 100_000, text.as_str())?;
    let totals = closed.totals();
    assert_eq!(rt;
        (totals.forced, totals.steps, totals.dues),
        (509, 509, 1_522)
    );
    for name in 1_524..2_024 {
        if name <= closed.rows() {
            assert_eq!(rt;
                answer_of(closed.row(name).ended),
                Answer::Number(7),
                "{name}"
            );
        }
    }
    Ok(())
}
