use super::{Outcome, run_solo};
use crate::faults::{Why, fault_text};
use lazy_outside::{MemSink, MemSource, Source, SureSource, Taken};
use lazy_rec::{Ref, SuspState};
use script_text::Reason;
use std::alloc::{AllocError, Global};
use std::test::Fail;

// The smallest rotation, and its report.
const ROTATION: &str = "lazy 1\nnew bankq\nsnoc 1 5\nhead 2\ntail 2\nhead 4\n";

const ROTATION_REPORT: &str =
    "1 ok\n2 ok\n3 5\n4 ok\n5 empty\ntotals forced 1 steps 1 givenup 0 dues 3\n";

const NO_TOTALS: &str = "totals forced 0 steps 0 givenup 0 dues 0\n";

// A script, and its report.
const REPORTS: [(&str, &str); 12] = [
    ("lazy 1\n", NO_TOTALS),
    ("lazy 1", NO_TOTALS),
    (ROTATION, ROTATION_REPORT),
    (
        "  lazy   1\n# the smallest rotation\n\n   \nnew  bankq \nsnoc 01 0000000005\n  # reads\nhead 2\ntail  002\nhead 4",
        ROTATION_REPORT,
    ),
    (
        "lazy 1\nnew bankq\nsnoc 1 10\nsnoc 2 20\nsnoc 3 30\ntail 4\ntail 4\nhead 5\nhead 6\n",
        "1 ok\n2 ok\n3 ok\n4 ok\n5 ok\n6 ok\n7 20\n8 20\ntotals forced 3 steps 4 givenup 0 dues 7\n",
    ),
    (
        "lazy 1\nnew rtq\nsnoc 1 1\nsnoc 2 2\nsnoc 3 3\nsnoc 4 4\nsnoc 5 5\nsnoc 6 6\nsnoc 7 7\ntail 1\ntail 2\ntail 3\ntail 4\ntail 5\ntail 6\ntail 7\ntail 8\n",
        "1 ok\n2 ok\n3 ok\n4 ok\n5 ok\n6 ok\n7 ok\n8 ok\n9 empty\n10 ok\n11 ok\n12 ok\n13 ok\n14 ok\n15 ok\n16 ok\ntotals forced 4 steps 4 givenup 0 dues 15\n",
    ),
    (
        "lazy 1\nnew stream\ncons 1 2\ncons 2 1\nappend 3 3\nreverse 4\nhead 5\n",
        "1 ok\n2 ok\n3 ok\n4 ok\n5 ok\n6 2\ntotals forced 3 steps 6 givenup 0 dues 6\n",
    ),
    (
        "lazy 1\nnew heap\ninsert 1 4\ninsert 2 4\ninsert 3 1\nmin 4\nmin 4\ndelmin 4\nmin 7\n",
        "1 ok\n2 ok\n3 ok\n4 ok\n5 1\n6 1\n7 ok\n8 4\ntotals forced 3 steps 4 givenup 0 dues 16\n",
    ),
    // A heap that is melded with itself.
    (
        "lazy 1\nnew heap\ninsert 1 9\nmeld 2 2\nmin 3\ndelmin 3\nsize 5\nmin 5\n",
        "1 ok\n2 ok\n3 ok\n4 9\n5 ok\n6 1\n7 9\ntotals forced 2 steps 4 givenup 0 dues 12\n",
    ),
    // Old heaps keep their least item when a newer one has lost it.
    (
        "lazy 1\nnew heap\ninsert 1 3\ninsert 2 1\ninsert 3 2\ndelmin 4\nmin 2\nmin 3\nmin 4\nmin 5\nsize 4\n",
        "1 ok\n2 ok\n3 ok\n4 ok\n5 ok\n6 3\n7 1\n8 1\n9 2\n10 3\ntotals forced 4 steps 7 givenup 0 dues 17\n",
    ),
    // An empty heap, and melds with it.
    (
        "lazy 1\nnew heap\nmin 1\ndelmin 1\ninsert 1 5\nmeld 1 4\nmeld 4 1\nmeld 1 1\nmin 5\nmin 6\nmin 7\n",
        "1 ok\n2 empty\n3 empty\n4 ok\n5 ok\n6 ok\n7 ok\n8 5\n9 5\n10 empty\ntotals forced 1 steps 1 givenup 0 dues 9\n",
    ),
    // A sequence that is emptied from the left.
    (
        "lazy 1\nnew seq\npushr 1 1\npushr 2 2\npopl 3\nfirst 4\npopl 4\nfirst 6\n",
        "1 ok\n2 ok\n3 ok\n4 ok\n5 2\n6 ok\n7 empty\ntotals forced 0 steps 0 givenup 0 dues 6\n",
    ),
];

// The smallest rotation in stores of at least and at most so many nodes: the status and the report.
const SMALL_STORES: [(u32, u32, u8, &str); 5] = [
    (
        0,
        0,
        1,
        "1 full 0 1\n2 nobase\n3 nobase\n4 nobase\n5 nobase\ntotals forced 0 steps 0 givenup 0 dues 0\n",
    ),
    (
        1,
        3,
        1,
        "1 ok\n2 full 1 3\n3 nobase\n4 nobase\n5 nobase\ntotals forced 0 steps 0 givenup 0 dues 1\n",
    ),
    (
        4,
        4,
        1,
        "1 ok\n2 ok\n3 full 4 1\n4 full 4 1\n5 nobase\ntotals forced 0 steps 0 givenup 2 dues 3\n",
    ),
    (
        5,
        5,
        1,
        "1 ok\n2 ok\n3 5\n4 full 5 1\n5 nobase\ntotals forced 1 steps 1 givenup 0 dues 3\n",
    ),
    (6, 30, 0, ROTATION_REPORT),
];

// A text, and what is said of it.
const REFUSED: [(&str, &str); 14] = [
    ("", "line 1: no header"),
    ("\n", "line 1: no header"),
    ("lazy 1\nqueue\n", "line 2: unknown word"),
    (
        "lazy 1\nnew bankq\nsnoc 1\n",
        "line 3: wrong count of words",
    ),
    (
        "lazy 1\nnew bankq\nsnoc 1 4294967296\n",
        "line 3: bad number",
    ),
    ("lazy 1\nnew bankq\nsnoc 2 5\n", "line 3: base not earlier"),
    (
        "lazy 1\nnew bankq\ncons 1 5\n",
        "line 3: operation not of this kind",
    ),
    (
        "lazy 1\nnew stream\nnew cat\nappend 1 2\n",
        "line 4: bases of two kinds",
    ),
    ("lazy 1\nnew rtq\nsnoc 2 5\n", "line 3: base not earlier"),
    ("lazy 1\nnew cat\n", "event 1: not built"),
    ("lazy 1\nnew bankq\nnew ord\nsize 1\n", "event 2: not built"),
    (
        "lazy 1\nnew bankq\n\nsnoc 1 5\nnew prio\nhead 2\nsize 3\n",
        "event 3: not built",
    ),
    ("lazy 1\nnew seq\npushl 1 5\nnth 2 0", "event 3: not built"),
    ("lazy 2\nnew seq\nsplit 1 0\n", "event 2: not built"),
];

const OTHER_WORDS: [&[&str]; 9] = [
    &[],
    &["Plain"],
    &["plain "],
    &["plain", "plain"],
    &["plain", "--nodes", "4000001"],
    &["plain", "--nodes", "30", "--nodes=30"],
    &["run", "--workers", "0"],
    &["gen", "000000000000000000001", "0"],
    &["gen", "1", "200001"],
];

// The eight structures that begin every made script.
const EIGHT_KINDS: &str =
    "lazy 1\nnew stream\nnew bankq\nnew rtq\nnew heap\nnew seq\nnew prio\nnew ord\nnew cat\n";

fn words_of(alloc: Global, texts: &[&str]) -> Result<Vec<String>, AllocError> {
    let mut words = Vec::new(alloc);
    for text in texts {
        words.push(String::from_str(alloc, text)?)?;
    }
    Ok(words)
}

fn source(alloc: Global, text: &str, failing: &[u32]) -> Result<MemSource, AllocError> {
    Ok(MemSource::new(text.as_bytes().to_vec(alloc)?, 4, failing.to_vec(alloc)?))
}

fn sink(alloc: Global, failing: &[u32]) -> Result<MemSink, AllocError> {
    Ok(MemSink::new(vec![in alloc; 0; 256]?, 4, failing.to_vec(alloc)?))
}

#[test]
fn reports(rt: HostRuntime) -> Result<(), Fail> {
    let words = words_of(rt.alloc(), &["plain"])?;
    for (script, report) in &REPORTS {
        let mut source = source(rt.alloc(), script, &[])?;
        let mut sink = sink(rt.alloc(), &[])?;
        let outcome = run_solo(rt.alloc(), words.as_slice(), &mut source, &mut sink);
        assert_eq!(rt; outcome.status, 0, "{script}");
        assert_eq!(rt; sink.held(), report.as_bytes(), "{script}");
    }
    Ok(())
}

#[test]
fn small_stores(rt: HostRuntime) -> Result<(), Fail> {
    for (from, to, status, report) in &SMALL_STORES {
        for nodes in *from..*to + 1 {
            let number = format!(in rt.alloc(); "{nodes}")?;
            let words = words_of(rt.alloc(), &["plain", "--nodes", number.as_str()])?;
            let mut source = source(rt.alloc(), ROTATION, &[])?;
            let mut sink = sink(rt.alloc(), &[])?;
            let outcome = run_solo(rt.alloc(), words.as_slice(), &mut source, &mut sink);
            assert_eq!(rt; outcome.status, *status, "{nodes}");
            assert_eq!(rt; sink.held(), report.as_bytes(), "{nodes}");
        }
    }
    Ok(())
}

// An empty sequence takes no place: its root is a fixed record.
#[test]
fn no_node(rt: HostRuntime) -> Result<(), Fail> {
    let words = words_of(rt.alloc(), &["plain", "--nodes", "0"])?;
    let mut source = source(rt.alloc(), "lazy 1\nnew bankq\nsnoc 1 5\nnew seq\n", &[])?;
    let mut sink = sink(rt.alloc(), &[])?;
    let outcome = run_solo(rt.alloc(), words.as_slice(), &mut source, &mut sink);
    assert_eq!(rt; outcome.status, 1);
    let report = "1 full 0 1\n2 nobase\n3 ok\ntotals forced 0 steps 0 givenup 0 dues 0\n";
    assert_eq!(rt; sink.held(), report.as_bytes());
    Ok(())
}

#[test]
fn four_nodes(rt: HostRuntime) -> Result<(), Fail> {
    let words = words_of(rt.alloc(), &["plain", "--nodes=4"])?;
    let mut source = source(rt.alloc(), ROTATION, &[])?;
    let mut sink = sink(rt.alloc(), &[])?;
    let outcome = run_solo(rt.alloc(), words.as_slice(), &mut source, &mut sink);
    let closed = outcome.closed.ok_or("no book")?;
    assert_eq!(rt; closed.totals().nodes, 4);
    let (_, state) = closed.node(Ref(7)).ok_or("no node")?;
    assert_eq!(rt; state, SuspState::Unforced { given_up: 2 });
    Ok(())
}

// Two queues of one item each, of which one is looked at. Its rotation is done, the other one and a value show a state that
// was never touched.
#[test]
fn states_of_suspensions(rt: HostRuntime) -> Result<(), Fail> {
    let words = words_of(rt.alloc(), &["plain"])?;
    let text = "lazy 1\nnew bankq\nsnoc 1 5\nsnoc 1 6\nhead 2\n";
    let mut source = source(rt.alloc(), text, &[])?;
    let mut sink = sink(rt.alloc(), &[])?;
    let outcome = run_solo(rt.alloc(), words.as_slice(), &mut source, &mut sink);
    let closed = outcome.closed.ok_or("no book")?;
    let untouched = SuspState::Unforced { given_up: 0 };
    let done = SuspState::Done {
        place: Ref(12),
        steps: 1,
        given_up: 0,
    };
    for (place, state) in [(7, done), (10, untouched), (12, untouched)] {
        let (_, shown) = closed.node(Ref(place)).ok_or("no node")?;
        assert_eq!(rt; shown, state, "{place}");
    }
    assert!(rt; closed.node(Ref(13)).is_none());
    Ok(())
}

#[test]
fn other_words_read_nothing(rt: HostRuntime) -> Result<(), Fail> {
    for texts in &OTHER_WORDS {
        let words = words_of(rt.alloc(), texts)?;
        let mut source = source(rt.alloc(), ROTATION, &[])?;
        let mut sink = sink(rt.alloc(), &[])?;
        let outcome = run_solo(rt.alloc(), words.as_slice(), &mut source, &mut sink);
        assert_eq!(rt; outcome.status, 2);
        assert_eq!(rt;
            fault_text(&outcome.why).as_str(),
            "usage: lazy_tool plain [--nodes N] | gen SEED EVENTS"
        );
        let mut front = [0; 4];
        assert_eq!(rt; source.take(&mut front), Taken::Bytes(4));
        assert_eq!(rt; front, *b"lazy");
        assert_eq!(rt; sink.held().len(), 0);
    }
    Ok(())
}

#[test]
fn refused_texts(rt: HostRuntime) -> Result<(), Fail> {
    let words = words_of(rt.alloc(), &["plain"])?;
    for (text, fault) in &REFUSED {
        let mut source = source(rt.alloc(), text, &[])?;
        let mut sink = sink(rt.alloc(), &[])?;
        let outcome = run_solo(rt.alloc(), words.as_slice(), &mut source, &mut sink);
        assert_eq!(rt; outcome.status, 3, "{text}");
        assert_eq!(rt; fault_text(&outcome.why).as_str(), *fault, "{text}");
        assert_eq!(rt; sink.held().len(), 0, "{text}");
    }
    Ok(())
}

// The outcome for a text of so many line ends.
fn run_line_ends(alloc: Global, count: usize) -> Result<Outcome, AllocError> {
    let words = words_of(alloc, &["plain"])?;
    let mut source = SureSource::new(vec![in alloc; 10; count]?);
    let mut sink = sink(alloc, &[])?;
    Ok(run_solo(alloc, words.as_slice(), &mut source, &mut sink))
}

#[test]
fn large_texts(rt: HostRuntime) -> Result<(), Fail> {
    let outcome = run_line_ends(rt.alloc(), 16_777_216)?;
    assert_eq!(rt; fault_text(&outcome.why).as_str(), "line 1: no header");
    let outcome = run_line_ends(rt.alloc(), 16_777_217)?;
    assert_eq!(rt; outcome.status, 3);
    assert_eq!(rt;
        fault_text(&outcome.why).as_str(),
        "script larger than 16777216 bytes"
    );
    Ok(())
}

#[test]
fn failing_ends(rt: HostRuntime) -> Result<(), Fail> {
    let words = words_of(rt.alloc(), &["plain"])?;
    let mut bad_source = source(rt.alloc(), ROTATION, &[2])?;
    let mut good_sink = sink(rt.alloc(), &[])?;
    let outcome = run_solo(
        rt.alloc(),
        words.as_slice(),
        &mut bad_source,
        &mut good_sink,
    );
    assert_eq!(rt; outcome.status, 4);
    assert_eq!(rt; fault_text(&outcome.why).as_str(), "read fault");
    assert_eq!(rt; good_sink.held().len(), 0);
    let mut good_source = source(rt.alloc(), ROTATION, &[])?;
    let mut bad_sink = sink(rt.alloc(), &[3])?;
    let outcome = run_solo(
        rt.alloc(),
        words.as_slice(),
        &mut good_source,
        &mut bad_sink,
    );
    assert_eq!(rt; outcome.status, 5);
    assert_eq!(rt; fault_text(&outcome.why).as_str(), "write fault");
    assert_eq!(rt; bad_sink.held(), b"1 ok\n2 o".as_slice());
    assert!(rt; outcome.closed.is_some());
    Ok(())
}

#[test]
fn causes_have_texts(rt: HostRuntime) -> Result<(), Fail> {
    let faulty = Why::Script {
        line: 3,
        reason: Reason::NoSecond,
    };
    for (why, text) in [
        (Why::Nothing, ""),
        (
            Why::Usage,
            "usage: lazy_tool plain [--nodes N] | gen SEED EVENTS",
        ),
        (faulty, "line 3: no second version"),
        (Why::TooLarge, "script larger than 16777216 bytes"),
        (Why::NotBuilt { event: 4 }, "event 4: not built"),
        (Why::Read, "read fault"),
        (Why::Write, "write fault"),
        (Why::Memory, "out of memory"),
    ] {
        let said = format!(in rt.alloc(); "{why}")?;
        assert_eq!(rt; said.as_str(), text);
    }
    Ok(())
}

#[test]
fn made_scripts(rt: HostRuntime) -> Result<(), Fail> {
    for (events, text) in [("0", "lazy 1\n"), ("8", EIGHT_KINDS)] {
        let words = words_of(rt.alloc(), &["gen", "1", events])?;
        let mut source = source(rt.alloc(), ROTATION, &[])?;
        let mut good_sink = sink(rt.alloc(), &[])?;
        let outcome = run_solo(rt.alloc(), words.as_slice(), &mut source, &mut good_sink);
        assert_eq!(rt; outcome.status, 0, "{events}");
        assert_eq!(rt; good_sink.held(), text.as_bytes(), "{events}");
        assert!(rt; outcome.closed.is_none());
        let mut front = [0; 4];
        assert_eq!(rt; source.take(&mut front), Taken::Bytes(4));
        assert_eq!(rt; front, *b"lazy");
    }
    let words = words_of(rt.alloc(), &["gen", "1", "8"])?;
    let mut source = source(rt.alloc(), "", &[])?;
    let mut bad_sink = sink(rt.alloc(), &[3])?;
    let outcome = run_solo(rt.alloc(), words.as_slice(), &mut source, &mut bad_sink);
    assert_eq!(rt; outcome.status, 5);
    assert_eq!(rt; fault_text(&outcome.why).as_str(), "write fault");
    assert_eq!(rt; bad_sink.held(), b"lazy 1\nn".as_slice());
    Ok(())
}

// The status and the report of a script that may be long.
fn large_report(alloc: Global, script: &str) -> Result<(u8, Vec<u8>), AllocError> {
    let words = words_of(alloc, &["plain"])?;
    let mut source = SureSource::new(script.as_bytes().to_vec(alloc)?);
    let mut sink = MemSink::new(vec![in alloc; 0; 2_000_000]?, 65_536, Vec::new(alloc));
    let outcome = run_solo(alloc, words.as_slice(), &mut source, &mut sink);
    Ok((outcome.status, sink.held().to_vec(alloc)?))
}

// 1,022 items, a rotation of them made 500 times from one version, and then the head of each. The first 511 items were in
// front by nine rotations, whose first cells are made once for all; each new rotation makes its own first cell.
#[test]
fn rotations_of_one_version(rt: HostRuntime) -> Result<(), Fail> {
    let mut text = String::from_str(rt.alloc(), "lazy 1\nnew bankq\n")?;
    for k in 1..1_023 {
        text.push_str(format!(in rt.alloc(); "snoc {k} 7\n")?.as_str())?;
    }
    for _ in 0..500 {
        text.push_str("snoc 1023 7\n")?;
    }
    let (status, report) = large_report(rt.alloc(), text.as_str())?;
    assert_eq!(rt; status, 0);
    assert!(rt; report.ends_with(b"\n1523 ok\ntotals forced 0 steps 0 givenup 0 dues 1522\n"));
    for k in 1_024..1_524 {
        text.push_str(format!(in rt.alloc(); "head {k}\n")?.as_str())?;
    }
    let (status, report) = large_report(rt.alloc(), text.as_str())?;
    assert_eq!(rt; status, 0);
    assert!(rt; report.ends_with(b"\n2023 7\ntotals forced 509 steps 509 givenup 0 dues 1522\n"));
    Ok(())
}

// A stream of one item, to which 100 more were appended one by one: its head forces a chain of 100 appends.
#[test]
fn nested_appends(rt: HostRuntime) -> Result<(), Fail> {
    let mut text = String::from_str(rt.alloc(), "lazy 1\nnew stream\ncons 1 1\n")?;
    for k in 2..102 {
        text.push_str(format!(in rt.alloc(); "append {k} 2\n")?.as_str())?;
    }
    text.push_str("head 102\n")?;
    let (status, report) = large_report(rt.alloc(), text.as_str())?;
    assert_eq!(rt; status, 0);
    assert!(rt; report.ends_with(b"\n103 1\ntotals forced 100 steps 100 givenup 0 dues 5050\n"));
    Ok(())
}

// A stream that is appended to itself again and again: each doubles it, until 32 doublings would be too long.
#[test]
fn doubled_streams(rt: HostRuntime) -> Result<(), Fail> {
    let mut text = String::from_str(rt.alloc(), "lazy 1\nnew stream\ncons 1 1\n")?;
    for k in 2..33 {
        text.push_str(format!(in rt.alloc(); "append {k} {k}\n")?.as_str())?;
    }
    let (status, report) = large_report(rt.alloc(), text.as_str())?;
    assert_eq!(rt; status, 0);
    assert!(rt;
        report.ends_with(
            b"\n32 ok\n33 toolong\ntotals forced 0 steps 0 givenup 0 dues 2147483647\n"
        )
    );
    Ok(())
}

// A doubled stream has more cells than the store has places: the head of its reversal finds the store full, and the stream itself
// is still there.
#[test]
fn reversal_of_a_doubled_stream(rt: HostRuntime) -> Result<(), Fail> {
    let mut text = String::from_str(rt.alloc(), "lazy 1\nnew stream\ncons 1 1\n")?;
    for k in 2..33 {
        text.push_str(format!(in rt.alloc(); "append {k} {k}\n")?.as_str())?;
    }
    text.push_str("reverse 32\nhead 34\nhead 32\n")?;
    let words = words_of(rt.alloc(), &["plain", "--nodes", "100000"])?;
    let mut source = SureSource::new(text.as_bytes().to_vec(rt.alloc())?);
    let mut sink = MemSink::new(vec![in rt.alloc(); 0; 1_024]?, 1_024, Vec::new(rt.alloc()));
    let outcome = run_solo(rt.alloc(), words.as_slice(), &mut source, &mut sink);
    assert_eq!(rt; outcome.status, 1);
    let (_, last) = str::from_utf8(sink.held())?
        .split_once("\n33 toolong\n34 ok\n35 full ")
        .ok_or("no full row")?;
    assert!(rt; last.contains("\n36 1\ntotals forced "));
    Ok(())
}

// A queue that is filled event by event, and emptied again until nothing is left for the last one. A rotation with n items
// in front has n + 1 suspensions and 2n + 1 steps; they are made at n = 0, 1, 3, .., 32767 and, while it is emptied, 34463.
#[test]
fn most_events(rt: HostRuntime) -> Result<(), Fail> {
    let mut text = String::from_str(rt.alloc(), "lazy 1\nnew bankq\n")?;
    for k in 1..100_000 {
        text.push_str(format!(in rt.alloc(); "snoc {k} 7\n")?.as_str())?;
    }
    for k in 100_000..200_000 {
        text.push_str(format!(in rt.alloc(); "tail {k}\n")?.as_str())?;
    }
    let (status, report) = large_report(rt.alloc(), text.as_str())?;
    assert_eq!(rt; status, 0);
    assert_eq!(rt; report.len(), 1_888_953);
    assert!(rt;
        report.ends_with(
            b"\n200000 empty\ntotals forced 99999 steps 199981 givenup 0 dues 299999\n"
        )
    );
    Ok(())
}
