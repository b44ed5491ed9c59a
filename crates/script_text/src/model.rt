//! Forms of scripts, and why a text is no script.
ghost use Rattle.std.specs.Prelude.{◌≡◌, ◌≤◌, length};
ghost use Rattle.script_text.specs.Reasons.{reason_text};

use std::fmt;
use thiserror::Error;

/// A form of scripts, which the first line says.
#[derive(Clone, Copy, Debug, PartialEq, Eq)]
pub enum Form {
    /// Numbers of ten digits.
    One = 1,
    /// Form 1 with labels, `split` and second versions.
    Two = 2,
    /// Form 2 with numbers of twenty digits.
    Three = 3,
}

/// Why a line is faulty. A line has the first reason of those that hold, in this order: `NoHeader`, `TooMany`, `BadLabel`,
/// `UnknownWord` of an operation, `WrongCount`, `UnknownWord` of a kind, `BadNumber`, `UnknownLabel`, `BaseNotEarlier`,
/// `NoSecond`, `NotOfThisKind`, `TwoKinds`.
#[derive(Clone, Copy, Debug, PartialEq, Eq)]
pub enum Reason {
    /// The first line isn't `lazy` and the number of a form.
    NoHeader = 1,
    /// The first word is no operation, or the word after `new` is no kind.
    UnknownWord = 2,
    /// The operation has more or fewer words after it.
    WrongCount = 3,
    /// A number isn't digits, has more of them than the form allows, or is too great for the form.
    BadNumber = 4,
    /// A base isn't the number of an earlier event.
    BaseNotEarlier = 5,
    /// The kind of the base doesn't have the operation.
    NotOfThisKind = 6,
    /// The two bases have two kinds.
    TwoKinds = 7,
    /// There are 200,000 events already.
    TooMany = 8,
    /// A line's label is none, or an earlier event has it.
    BadLabel = 9,
    /// No earlier event has the label.
    UnknownLabel = 10,
    /// The second version is asked of an event that isn't a split.
    NoSecond = 11,
}

impl Reason {
    /// The text of the reason.
    pub fn text(self) -> &'static str
        ensures text { result.now ≡ reason_text self }
        ensures short { length result.now ≤ 26 }
    {
        match self {
            Reason::NoHeader => "no header",
            Reason::UnknownWord => "unknown word",
            Reason::WrongCount => "wrong count of words",
            Reason::BadNumber => "bad number",
            Reason::BaseNotEarlier => "base not earlier",
            Reason::NotOfThisKind => "operation not of this kind",
            Reason::TwoKinds => "bases of two kinds",
            Reason::TooMany => "too many events",
            Reason::BadLabel => "bad label",
            Reason::UnknownLabel => "unknown label",
            Reason::NoSecond => "no second version",
        }
    }
}

impl fmt::Display for Reason {
    ghost use Rattle.std.specs.Prelude.{Some};
    ghost use Rattle.script_text.specs.Reasons.{reason_text};

    ghost output = { λ r. Some (reason_text r) };

    fn fmt<W: fmt::Write>(&self, f: &mut fmt::Formatter<W>) -> fmt::Result {
        f.write_str(self.text())
    }
}

impl std::error::Error for Reason {}

/// Why there is no script.
#[derive(Clone, Copy, Debug, PartialEq, Eq, Error)]
pub enum ScriptFault {
    /// The first faulty line, counted from 1, and its first reason.
    #[error("line {line}: {reason}")]
    Line { line: u32, reason: Reason },
    /// There was no memory for the script.
    #[error("{}", lazy_rec::NoMemory)]
    NoMemory,
}
