//! The report of a closed book as bytes: one line for each event, and one of totals.
#![tactic(auto)]

ghost use Rattle.std.specs.Prelude.{◌≡◌, ◌++◌, ◌+◌, ◌<◌, ◌≤◌, ◌||◌, IfOk, codes, decimal, length};
ghost use Rattle.version_book.specs.Closed.{row_told};
ghost use Rattle.report_text.specs.Report.{reply_text, ended_text, told_text, field_text, totals_text, report_of, is_lost, some_given_up};
ghost use Rattle.report_text.specs.Written.{counted};

mod counter;
mod text;

use counter::Counter;
use lazy_rec::{NoMemory, Reply};
use std::alloc::AllocError;
use text::{LINE_ROOM, Text};
use version_book::{Closed, Ended, Totals};

/// A report as bytes, and whether some row in it is given up: it is full, had no memory or no base.
#[derive(Drop)]
pub struct Printed {
    pub text: Vec<u8>,
    pub has_given_up: bool,
}

#[inline(always)]
fn put_reply(text: &mut Text, reply: Reply)
    requires room { 64 ≤ text.old.room }
    ensures text { text.new.text ≡ text.old.text ++ reply_text reply }
    ensures room { text.old.room ≤ text.new.room + 20 }
{
    match reply {
        Reply::Ok => text.put_text("ok"),
        Reply::Number(n) => text.put_number(n),
        Reply::Empty => text.put_text("empty"),
        Reply::TooLong => text.put_text("toolong"),
    }
}

fn put_full(text: &mut Text, drawn: u64, wanted: u32)
    requires room { 72 ≤ text.old.room }
    ensures text { text.new.text ≡ text.old.text ++ codes "full " ++ decimal drawn ++ codes " " ++ decimal wanted }
    ensures room { text.old.room ≤ text.new.room + 46 }
{
    text.put_text("full ");
    text.put_number(drawn);
    text.put_text(" ");
    text.put_number(u64::from(wanted));
}

#[inline(always)]
fn put_ended(text: &mut Text, ended: Ended)
    requires room { 72 ≤ text.old.room }
    ensures text { text.new.text ≡ text.old.text ++ ended_text ended }
    ensures room { text.old.room ≤ text.new.room + 46 }
{
    match ended {
        Ended::Reply { reply, .. } => put_reply(text, reply),
        Ended::Full { drawn, wanted } => put_full(text, drawn, wanted),
        Ended::Memory => text.put_text("memory"),
        Ended::NoBase => text.put_text("nobase"),
    }
}

// The line of an event that replied, whose name the counter shows.
#[inline(always)]
fn put_replied(text: &mut Text, counter: &Counter, name: u32, reply: Reply)
    requires counter { counter.now ≡ counted name }
    requires room { LINE_ROOM ≤ text.old.room }
    ensures { text.new.text ≡ text.old.text ++ (decimal name ++ codes " " ++ reply_text reply ++ codes "\n") }
{
    match reply {
        Reply::Ok => text.put(counter.front(), counter.digits() + 4),
        _ => {
            text.put(counter.front(), counter.digits() + 1);
            put_reply(text, reply);
            text.put_text("\n");
        }
    }
}

// The line of an event that ended somehow, whose name the counter shows.
#[inline(always)]
fn put_other(text: &mut Text, counter: &Counter, name: u32, ended: Ended)
    requires counter { counter.now ≡ counted name }
    requires room { LINE_ROOM ≤ text.old.room }
    ensures { text.new.text ≡ text.old.text ++ (decimal name ++ codes " " ++ ended_text ended ++ codes "\n") }
{
    text.put(counter.front(), counter.digits() + 1);
    put_ended(text, ended);
    text.put_text("\n");
}

// The line of a name, which the counter shows. Notes where its row is given up. Of a row with a reply no more is read.
#[inline(always)]
fn put_line(text: &mut Text, counter: &Counter, closed: &Closed, name: u32, has_given_up: &mut bool)
    requires low { 1 ≤ name }
    requires high { name ≤ length closed.now.rows }
    requires counter { counter.now ≡ counted name }
    requires room { LINE_ROOM ≤ text.old.room }
    ensures text { text.new.text ≡ text.old.text ++ told_text (row_told closed.now name) }
    ensures given_up { has_given_up.new ≡ (has_given_up.old || is_lost closed.now name) }
{
    match closed.reply(name) {
        Some(reply) => put_replied(text, counter, name, reply),
        None => {
            let row = closed.row(name);
            put_other(text, counter, name, row.ended);
            *has_given_up = true;
        }
    }
}

// A word and its number.
fn put_field(text: &mut Text, word: &str, n: u64)
    requires room { length word.now + 24 ≤ text.old.room }
    ensures text { text.new.text ≡ text.old.text ++ field_text word.now n }
    ensures room { text.old.room ≤ text.new.room + length word.now + 20 }
{
    text.put_text(word);
    text.put_number(n);
}

// The line of the totals.
fn put_totals(text: &mut Text, totals: Totals)
    requires { LINE_ROOM ≤ text.old.room }
    ensures { text.new.text ≡ text.old.text ++ totals_text totals }
{
    put_field(text, "totals forced ", totals.forced);
    put_field(text, " steps ", totals.steps);
    put_field(text, " givenup ", totals.given_up);
    put_field(text, " dues ", totals.dues);
    text.put_text("\n");
}

#[inline(never)]
fn lines(closed: &Closed, bytes: Vec<u8>) -> Result<Printed, AllocError>
    ensures text { IfOk result (λ r. r.text.items ≡ report_of closed.now) }
    ensures given_up { IfOk result (λ r. r.has_given_up ≡ some_given_up closed.now (length closed.now.rows)) }
{
    let mut text = Text::over(bytes);
    let mut counter = Counter::new();
    let mut has_given_up = false;
    for i in 0..closed.rows() {
        text.make_room()?;
        counter.next(u64::from(i));
        put_line(&mut text, &counter, closed, i + 1, &mut has_given_up);
    }
    text.make_room()?;
    put_totals(&mut text, closed.totals());
    Ok(Printed {
        text: text.into_bytes(),
        has_given_up,
    })
}

/// The report of a closed book: a line for each row in order of name, which is the name, a space, and `ok`, the decimal
/// number, `empty`, `toolong`, `full D W` with the drawn and the wanted number, `memory` or `nobase`; then the line
/// `totals forced F steps S givenup G dues D`. It is written over the bytes, which hold nothing that matters any more, and takes
/// memory only where it is longer: a fresh page costs more than the lines that fill it.
pub fn report(closed: &Closed, bytes: Vec<u8>) -> Result<Printed, NoMemory>
    ensures text { IfOk result (λ r. r.text.items ≡ report_of closed.now) }
    ensures given_up { IfOk result (λ r. r.has_given_up ≡ some_given_up closed.now (length closed.now.rows)) }
{
    lines(closed, bytes).map_err(|_| NoMemory)
}
