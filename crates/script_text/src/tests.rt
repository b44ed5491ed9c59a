//! Texts that are read, refused and printed.
use crate::{Reason, ScriptFault, generate, print_script, read_script};
use lazy_rec::Kind;
use std::alloc::Global;
use std::test::Fail;

// Faulty texts, each with its first faulty line and the number of that line's first reason.
const FAULTY: [(&str, u32, u8); 29] = [
    ("", 1, 1),
    ("\n", 1, 1),
    ("\nlazy 1\n", 1, 1),
    ("# remark\nlazy 1\n", 1, 1),
    ("lazy", 1, 1),
    ("lazy 4\n", 1, 1),
    ("lazy 0\n", 1, 1),
    ("lazy 2 @q\n", 1, 1),
    ("lazy 01\n", 1, 1),
    ("Lazy 1\n", 1, 1),
    ("lazy\t1\n", 1, 1),
    ("lazy 1\r\n", 1, 1),
    ("lazy 1 #\n", 1, 1),
    ("lazy 1\0\n", 1, 1),
    ("lazy 1\nnew seq\nsize 00000000001\n", 3, 4),
    ("lazy 1\nnew seq\npushl 1 4294967296\n", 3, 4),
    ("lazy 1\nnew seq\npushl 1 9999999999\n", 3, 4),
    ("lazy 1\nnew seq\nsplit 1 1\n", 3, 2),
    ("lazy 1\n@q new seq\n", 2, 2),
    ("lazy 1\nnew seq\nsize @q\n", 3, 4),
    ("lazy 1\nnew seq\nsize 1.1\n", 3, 4),
    ("lazy 2\nnew seq\npushl 1 4294967296\n", 3, 4),
    ("lazy 2\nnew seq\nsize 00000000001\n", 3, 4),
    ("lazy 3\nnew seq\npushl 1 18446744073709551616\n", 3, 4),
    ("lazy 3\nnew seq\npushl 1 99999999999999999999\n", 3, 4),
    ("lazy 3\nnew seq\npushl 1 000000000000000000001\n", 3, 4),
    ("lazy 3\nnew seq\nsize 18446744073709551615\n", 3, 5),
    ("lazy 2\nnew prio\ninsert 1 18446744073709551615\n", 3, 4),
    ("lazy 2\nnew seq\npushl @x 4294967296\n", 3, 4),
];

// Faulty lines after a header, which are so in each form.
const FAULTY_LINES: [(&str, u32, u8); 31] = [
    ("queue\n", 2, 2),
    ("New seq\n", 2, 2),
    ("new\tseq\n", 2, 2),
    ("new list\n", 2, 2),
    ("new seq\r\n", 2, 2),
    ("new seq\0", 2, 2),
    ("new séq\n", 2, 2),
    ("\u{a0}\n", 2, 2),
    ("new\n", 2, 3),
    ("new list list\n", 2, 3),
    ("new seq # remark\n", 2, 3),
    ("new seq\nsize\n", 3, 3),
    ("new seq\nsize 1 1\n", 3, 3),
    ("new seq\npushl 1\n", 3, 3),
    ("new seq\nconcat 1 1 1\n", 3, 3),
    ("new seq\nsize +1\n", 3, 4),
    ("new seq\nsize -1\n", 3, 4),
    ("new seq\nsize 1a\n", 3, 4),
    ("new seq\nsize 1\t\n", 3, 4),
    ("new seq\npushl 1 100000000000000000000000\n", 3, 4),
    ("new seq\npushl 9 #\n", 3, 4),
    ("new seq\nsize 0\n", 3, 5),
    ("new seq\nsize 4294967295\n", 3, 5),
    ("new seq\nconcat 1 2\n", 3, 5),
    ("new bankq\nsnoc 2 5", 3, 5),
    ("\n   \n#\n # remark\nsize 1\n", 6, 5),
    ("new seq\nhead 1\n", 3, 6),
    ("new seq\nnew heap\nmeld 1 2\n", 4, 6),
    ("new seq\nnew heap\nmeld 2 1\n", 4, 7),
    ("new seq\nnew heap\nconcat 1 2\n", 4, 7),
    ("new seq\nsize 2\nqueue\n", 3, 5),
];

// Faulty labels and second versions after a header, which are so in the forms that have them.
const FAULTY_LABELS: [(&str, u32, u8); 21] = [
    ("new seq\n@A size 1\n", 3, 9),
    ("new seq\n@ size 1\n", 3, 9),
    ("new seq\n@q.1 size 1\n", 3, 9),
    ("new seq\n@abcdefghijklmnop size 2\n", 3, 5),
    ("new seq\n@abcdefghijklmnopq size 1\n", 3, 9),
    ("@q new seq\n@q size 1\n", 3, 9),
    ("@q new seq\n@q\n", 3, 9),
    ("@q new seq\n@r\n", 3, 3),
    ("@q new seq\n@r queue\n", 3, 2),
    ("@q new seq\n@r # remark\n", 3, 2),
    ("@q new seq\n@r @s size 1\n", 3, 2),
    ("new seq\nsize @x\n", 3, 10),
    ("new seq\n@x size @x\n", 3, 10),
    ("@x new seq\nsize @x.3\n", 3, 10),
    ("@x new seq\nsize @X\n", 3, 10),
    ("new seq\nconcat 9 @x\n", 3, 10),
    ("new seq\nsize 1.2\n", 3, 11),
    ("new seq\nhead 1.2\n", 3, 11),
    ("new seq\nconcat 1.2 9\n", 3, 5),
    ("new seq\nsize 2.2\n", 3, 5),
    ("new seq\nsize 1.3\n", 3, 4),
];

// Every kind with every operation of its own.
const ALL: &str = "lazy 1
new stream
cons 1 2
append 2 1
reverse 3
head 4
tail 4
size 4
new bankq
snoc 8 1
head 9
tail 9
new rtq
snoc 12 1
head 13
tail 13
new heap
insert 16 5
min 17
delmin 17
meld 17 16
new seq
pushl 21 1
pushr 22 2
popl 23
popr 23
first 23
last 23
nth 23 0
take 23 1
drop 23 4294967295
concat 23 22
new prio
insert 32 1
max 33
delmax 33
meld 33 32
new ord
insert 37 1
min 38
has 38 1
remove 38 1
upto 38 1
new cat
cons 43 1
snoc 44 2
append 45 44
head 46
tail 46
";

// Texts with the canonical text of their events.
const READ: [(&str, &str); 13] = [
    ("lazy 1\n", "lazy 1\n"),
    ("lazy 1", "lazy 1\n"),
    ("  lazy   1  \n\n", "lazy 1\n"),
    (
        "lazy 1\n#\n  # new seq\n   \n#new heap\nnew  bankq ",
        "lazy 1\nnew bankq\n",
    ),
    (
        "lazy 1\nnew heap\n insert 0000000001  4294967295",
        "lazy 1\nnew heap\ninsert 1 4294967295\n",
    ),
    (
        "lazy 1\nnew seq\npushl 01 0000000000\n#",
        "lazy 1\nnew seq\npushl 1 0\n",
    ),
    (
        "lazy 1\nnew stream\nnew bankq\nnew rtq\nnew heap\nnew seq\nnew prio\nnew ord\nnew cat\n",
        "lazy 1\nnew stream\nnew bankq\nnew rtq\nnew heap\nnew seq\nnew prio\nnew ord\nnew cat\n",
    ),
    (ALL, ALL),
    (
        "lazy 2\n@q new seq\npushr @q 1\npushr 2 2\n@s split 3 1\nfirst @s\nfirst @s.2\nsize 4.2\nsplit 4.2 5\nsize 8.2\nfirst 8.2\n",
        "lazy 2\nnew seq\npushr 1 1\npushr 2 2\nsplit 3 1\nfirst 4\nfirst 4.2\nsize 4.2\nsplit 4.2 5\nsize 8.2\nfirst 8.2\n",
    ),
    (
        "lazy 3\nnew prio\ninsert 1 18446744073709551615\ninsert 2 4294967296\nmax 3\ndelmax 3\nmax 5\n",
        "lazy 3\nnew prio\ninsert 1 18446744073709551615\ninsert 2 4294967296\nmax 3\ndelmax 3\nmax 5\n",
    ),
    (
        "lazy 2\n@0123456789abcdef new seq\n@b size @0123456789abcdef.1\n size 01.1",
        "lazy 2\nnew seq\nsize 1\nsize 1\n",
    ),
    (
        "lazy 3\nnew seq\nnth 00000000000000000001 00000000000000000000",
        "lazy 3\nnew seq\nnth 1 0\n",
    ),
    ("lazy  2 \n", "lazy 2\n"),
];

// The script of the seed 1 with 40 events.
const MADE: &str = "lazy 1
new stream
new bankq
new rtq
new heap
new seq
new prio
new ord
new cat
head 1
snoc 2 95
tail 3
delmin 4
pushl 5 34
meld 6 6
has 7 27
append 8 8
reverse 1
head 10
tail 3
min 4
drop 13 16
size 6
remove 15 61
cons 16 1
tail 1
snoc 10 94
snoc 11 18
insert 12 30
popl 21
insert 6 55
insert 15 22
cons 16 41
reverse 17
head 26
size 3
insert 4 78
take 13 20
max 6
remove 15 27
size 16
";

// The faulty line and its reason's number, or 0 where there is none.
fn fault_of(alloc: Global, bytes: &[u8]) -> (u32, u8) {
    if bytes.len() > 16_777_216 {
        return (0, 0);
    }
    match read_script(alloc, bytes) {
        Err(ScriptFault::Line { line, reason }) => (line, reason as u8),
        _ => (0, 0),
    }
}

// The canonical text of the events of a text, or none.
fn printed(alloc: Global, bytes: &[u8]) -> Option<Vec<u8>> {
    if bytes.len() > 16_777_216 {
        return None;
    }
    let script = read_script(alloc, bytes).ok()?;
    print_script(alloc, &script).ok()
}

#[test]
fn faulty_texts_are_refused(rt: HostRuntime) {
    for (text, line, reason) in &FAULTY {
        assert_eq!(rt;
            fault_of(rt.alloc(), text.as_bytes()),
            (*line, *reason),
            "{text}"
        );
    }
}

#[test]
fn faulty_lines_are_refused_in_each_form(rt: HostRuntime) -> Result<(), Fail> {
    for header in ["lazy 1\n", "lazy 2\n", "lazy 3\n"] {
        for (lines, line, reason) in &FAULTY_LINES {
            let text = format!(in rt.alloc(); "{header}{lines}")?;
            let fault = fault_of(rt.alloc(), text.as_str().as_bytes());
            assert_eq!(rt; fault, (*line, *reason), "{text}");
        }
    }
    for header in ["lazy 2\n", "lazy 3\n"] {
        for (lines, line, reason) in &FAULTY_LABELS {
            let text = format!(in rt.alloc(); "{header}{lines}")?;
            let fault = fault_of(rt.alloc(), text.as_str().as_bytes());
            assert_eq!(rt; fault, (*line, *reason), "{text}");
        }
    }
    Ok(())
}

#[test]
fn texts_are_read_and_printed(rt: HostRuntime) -> Result<(), Fail> {
    for (text, canonical) in &READ {
        let bytes = printed(rt.alloc(), text.as_bytes()).ok_or("refused")?;
        assert_eq!(rt; bytes.as_slice(), canonical.as_bytes(), "{text}");
    }
    Ok(())
}

#[test]
fn kinds_are_those_of_the_bases(rt: HostRuntime) -> Result<(), Fail> {
    let script = read_script(rt.alloc(), ALL.as_bytes())?;
    assert_eq!(rt; script.events().len(), 48);
    assert_eq!(rt; script.kind_of(1), Kind::Stream);
    assert_eq!(rt; script.kind_of(11), Kind::Bankq);
    assert_eq!(rt; script.kind_of(20), Kind::Heap);
    assert_eq!(rt; script.kind_of(31), Kind::Seq);
    assert_eq!(rt; script.kind_of(48), Kind::Cat);
    Ok(())
}

#[test]
fn forms_are_those_of_the_headers(rt: HostRuntime) -> Result<(), Fail> {
    for (text, form) in [("lazy 1", 1), ("lazy 2", 2), ("lazy 3", 3)] {
        let script = read_script(rt.alloc(), text.as_bytes())?;
        assert_eq!(rt; script.form(), form);
    }
    Ok(())
}

#[test]
fn there_are_at_most_200_000_events(rt: HostRuntime) -> Result<(), Fail> {
    let mut text = Vec::new(rt.alloc());
    text.extend_from_slice(b"lazy 1\n")?;
    for _ in 0..200_000 {
        text.extend_from_slice(b"new seq\n")?;
    }
    assert_eq!(rt; fault_of(rt.alloc(), text.as_slice()), (0, 0));
    let bytes = printed(rt.alloc(), text.as_slice()).ok_or("refused")?;
    assert_eq!(rt; bytes.len(), 7 + 200_000 * 8);
    text.extend_from_slice(b"# remark\n\nqueue\n")?;
    assert_eq!(rt; fault_of(rt.alloc(), text.as_slice()), (200_004, 8));
    Ok(())
}

// The canonical text of the script of a seed, or none.
fn made_text(alloc: Global, seed: u64, events: u32) -> Option<Vec<u8>> {
    if events > 200_000 {
        return None;
    }
    let script = generate(alloc, seed, events).ok()?;
    print_script(alloc, &script).ok()
}

// A sum of bytes that tells their order.
fn checksum(bytes: &[u8]) -> u32 {
    let mut sum = 0u32;
    for byte in bytes {
        sum = sum.wrapping_mul(31).wrapping_add(u32::from(*byte));
    }
    sum
}

// The long ones were made by another program, written from the rules alone.
#[test]
fn seeds_make_scripts(rt: HostRuntime) -> Result<(), Fail> {
    let none = made_text(rt.alloc(), 1, 0).ok_or("memory")?;
    assert_eq!(rt; none.as_slice(), b"lazy 1\n".as_slice());
    let short = made_text(rt.alloc(), 1, 40).ok_or("memory")?;
    assert_eq!(rt; short.as_slice(), MADE.as_bytes());
    let long = made_text(rt.alloc(), 1, 20_000).ok_or("memory")?;
    assert_eq!(rt;
        (long.len(), checksum(long.as_slice())),
        (250_037, 305_122_087)
    );
    let last = made_text(rt.alloc(), 18_446_744_073_709_551_615, 3_000).ok_or("memory")?;
    assert_eq!(rt;
        (last.len(), checksum(last.as_slice())),
        (34_991, 2_326_340_913)
    );
    Ok(())
}

#[test]
fn faults_have_texts(rt: HostRuntime) -> Result<(), Fail> {
    for (reason, text) in [
        (Reason::NoHeader, "line 3: no header"),
        (Reason::UnknownWord, "line 3: unknown word"),
        (Reason::WrongCount, "line 3: wrong count of words"),
        (Reason::BadNumber, "line 3: bad number"),
        (Reason::BaseNotEarlier, "line 3: base not earlier"),
        (Reason::NotOfThisKind, "line 3: operation not of this kind"),
        (Reason::TwoKinds, "line 3: bases of two kinds"),
        (Reason::TooMany, "line 3: too many events"),
        (Reason::BadLabel, "line 3: bad label"),
        (Reason::UnknownLabel, "line 3: unknown label"),
        (Reason::NoSecond, "line 3: no second version"),
    ] {
        let fault = ScriptFault::Line { line: 3, reason };
        let said = format!(in rt.alloc(); "{fault}")?;
        assert_eq!(rt; said.as_str(), text);
    }
    Ok(())
}
