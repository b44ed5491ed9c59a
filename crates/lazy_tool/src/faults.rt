//! Why a call ends as it does, and what the program says of it.
ghost use Rattle.std.specs.Prelude.{◌≡◌, ◌+◌, ◌++◌, ◌≤◌, length, decimal};
ghost use Rattle.arrayvec.specs.ArrayString.{array_string_len};
ghost use Rattle.lazy_tool.specs.Faults.{Says};

use crate::words::USAGE;
use arrayvec::ArrayString;
use itoa::Buffer;
use script_text::Reason;
use std::fmt;
use std::marker::Model;

/// Why a call ended as it did.
#[derive(Clone, Copy, Debug, PartialEq, Eq)]
pub enum Why {
    /// The whole report, or the whole text of a made script, was written.
    Nothing,
    /// The words have no reading.
    Usage,
    /// The bytes are no script: the first faulty line, counted from 1, and its first reason.
    Script { line: u32, reason: Reason },
    /// There are more bytes than a script may have.
    TooLarge,
    /// The script has an event of a kind or an operation that isn't built yet: the number of the first one.
    NotBuilt { event: u32 },
    /// A take failed.
    Read,
    /// A give failed.
    Write,
    /// Memory couldn't be had.
    Memory,
}

/// A text for standard error, of at most 96 bytes. It takes no memory.
#[derive(Drop)]
pub struct FaultText {
    text: ArrayString<96>,
}

impl Model for FaultText {
    ghost use Rattle.std.specs.Prelude.{ℕ, List};

    ghost Value = { List ℕ };

    ghost view = { λ t. t.text.bytes };
}

impl FaultText {
    /// The text.
    pub fn as_str(&self) -> &str
        ensures { result.now ≡ self.now }
    {
        self.text.as_str()
    }
}

fn push_number(text: &mut ArrayString<96>, n: u32)
    requires { array_string_len text.old ≤ 16 }
    ensures bytes { text.new.bytes ≡ text.old.bytes ++ decimal n }
    ensures short { array_string_len text.new ≤ array_string_len text.old + 40 }
{
    text.push_str(Buffer::new().format(n));
}

// The text of a fault at a line.
fn line_text(line: u32, reason: Reason) -> FaultText
    ensures { Says (Why.Script line reason) result }
{
    let mut text = ArrayString::new();
    text.push_str("line ");
    push_number(&mut text, line);
    text.push_str(": ");
    text.push_str(reason.text());
    FaultText { text }
}

// The text of an event that isn't built.
fn event_text(event: u32) -> FaultText
    ensures { Says (Why.NotBuilt event) result }
{
    let mut text = ArrayString::new();
    text.push_str("event ");
    push_number(&mut text, event);
    text.push_str(": not built");
    FaultText { text }
}

fn text_of(words: &str) -> FaultText
    requires { length words.now ≤ 96 }
    ensures { result ≡ words.now }
{
    let mut text = ArrayString::new();
    text.push_str(words);
    FaultText { text }
}

/// What the program says of a fault, without a line's end; nothing where there is none.
pub fn fault_text(why: &Why) -> FaultText
    ensures { Says why.now result }
{
    match *why {
        Why::Nothing => text_of(""),
        Why::Usage => text_of(USAGE),
        Why::Script { line, reason } => line_text(line, reason),
        Why::TooLarge => text_of("script larger than 16777216 bytes"),
        Why::NotBuilt { event } => event_text(event),
        Why::Read => text_of("read fault"),
        Why::Write => text_of("write fault"),
        Why::Memory => text_of("out of memory"),
    }
}

impl fmt::Display for Why {
    fn fmt<W: fmt::Write>(&self, f: &mut fmt::Formatter<W>) -> fmt::Result {
        f.write_str(fault_text(self).as_str())
    }
}

impl std::error::Error for Why {}
