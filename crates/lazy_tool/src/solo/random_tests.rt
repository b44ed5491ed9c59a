//! Random scripts are answered as the plain lists answer them.
use super::run_solo;
use lazy_outside::{MemSink, SureSource};
use lazy_rec::limits::MOST_SCRIPT_BYTES;
use lazy_rec::{Event, Kind, Op, Reply};
use plain_model::plain_run;
use script_text::{Script, generate, read_script};
use std::alloc::{AllocError, Global};
use std::test::Fail;

/// How many scripts are tried.
const SCRIPTS: u64 = 300;

/// How many events each is made of, those that aren't built among them.
const EVENTS: u32 = 160;

/// The number of a version, where the events have these numbers.
fn renamed(numbers: &[u32], version: u32) -> u32 {
    numbers.get(version as usize).copied().unwrap_or(0)
}

/// Puts the line of an event behind the others. An operation's word is its name in the code.
fn push_event(
    alloc: Global,
    text: &mut String,
    event: Event,
    numbers: &[u32],
) -> Result<(), AllocError> {
    let Event {
        op,
        base,
        other,
        arg,
    } = event;
    let mut line = match op {
        Op::New(kind) => format!(in alloc; "new {kind:?}")?,
        _ => format!(in alloc; "{op:?} {}", renamed(numbers, base))?,
    };
    if op.uses_other() {
        line.push_str(format!(in alloc; " {}", renamed(numbers, other))?.as_str())?;
    }
    if op.uses_argument() {
        line.push_str(format!(in alloc; " {arg}")?.as_str())?;
    }
    line.push_str("\n")?;
    line.make_ascii_lowercase();
    text.push_str(line.as_str())
}

/// Whether an event is built and so are the events that it starts from, which have these numbers.
fn stays(event: Event, kind: Kind, numbers: &[u32]) -> bool {
    kind_table::is_built(kind, event.op)
        && (!event.op.uses_base() || renamed(numbers, event.base) > 0)
        && (!event.op.uses_other() || renamed(numbers, event.other) > 0)
}

/// The text of a script without the events that aren't built, and without those that start from them.
fn built_text(alloc: Global, script: &Script) -> Result<String, AllocError> {
    let events = script.events();
    let mut text = String::from_str(alloc, "lazy 1\n")?;
    let mut numbers = vec![in alloc; 0; 1]?;
    let mut kept: u32 = 0;
    for i in 0..events.len() {
        let kind = script.kind_of(i as u32 + 1);
        if stays(events[i], kind, numbers.as_slice()) {
            push_event(alloc, &mut text, events[i], numbers.as_slice())?;
            kept = kept.saturating_add(1);
            numbers.push(kept)?;
        } else {
            numbers.push(0)?;
        }
    }
    Ok(text)
}

/// The lines of the events, by the replies that the plain lists give.
fn plain_lines(alloc: Global, text: &str) -> Result<String, Fail> {
    let bytes = text.as_bytes();
    if bytes.len() > MOST_SCRIPT_BYTES as usize {
        return Err(Fail::new("a long script"));
    }
    let script = read_script(alloc, bytes)?;
    let replies = plain_run(alloc, script.events())?;
    let mut lines = String::new(alloc);
    for (i, reply) in replies.iter().enumerate() {
        let line = match *reply {
            Reply::Ok => format!(in alloc; "{} ok\n", i + 1)?,
            Reply::Number(number) => format!(in alloc; "{} {number}\n", i + 1)?,
            Reply::Empty => format!(in alloc; "{} empty\n", i + 1)?,
            Reply::TooLong => format!(in alloc; "{} toolong\n", i + 1)?,
        };
        lines.push_str(line.as_str())?;
    }
    Ok(lines)
}

#[test]
fn random_scripts(rt: HostRuntime) -> Result<(), Fail> {
    let alloc = rt.alloc();
    let words = vec![in alloc; String::from_str(alloc, "plain")?]?;
    for seed in 0..SCRIPTS {
        let script = generate(alloc, seed, EVENTS)?;
        let text = built_text(alloc, &script)?;
        let lines = plain_lines(alloc, text.as_str())?;
        let mut source = SureSource::new(text.as_bytes().to_vec(alloc)?);
        let mut sink = MemSink::new(vec![in alloc; 0; 8_192]?, 8_192, Vec::new(alloc));
        let outcome = run_solo(alloc, words.as_slice(), &mut source, &mut sink);
        assert_eq!(rt; outcome.status, 0, "seed {seed}");
        let report = sink.held();
        assert!(rt; report.starts_with(lines.as_bytes()), "seed {seed}");
        let totals = report.get(lines.len()..).ok_or("no totals")?;
        assert!(rt; totals.starts_with(b"totals forced "), "seed {seed}");
    }
    Ok(())
}
