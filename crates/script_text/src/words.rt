//! The words of operations and kinds.
ghost use Rattle.std.specs.Prelude.{◌≡◌, map, slice_get, option_map};
ghost use Rattle.std.specs.Str.{bytes_eq};
ghost use Rattle.script_text.specs.Words.{operations, kinds, said_operations, said_kinds, said_row, look, has_labels, syntax_of, kind_named, row_of, op_word, op_syntax, kind_word};

use crate::model::Form;
use lazy_rec::{Kind, Op};

/// An operation with what follows its word in a line.
#[derive(Clone, Copy, Debug, PartialEq, Eq)]
pub enum Syntax {
    /// `new` and a kind.
    New,
    /// The base alone.
    Base(Op),
    /// The base, and the argument.
    Argument(Op),
    /// The base, and the other base.
    Other(Op),
}

/// The words of operations, in the order of their numbers, and `new` first.
pub const OPERATIONS: [(&str, Syntax); 28] = [
    ("new", Syntax::New),
    ("size", Syntax::Base(Op::Size)),
    ("cons", Syntax::Argument(Op::Cons)),
    ("snoc", Syntax::Argument(Op::Snoc)),
    ("append", Syntax::Other(Op::Append)),
    ("reverse", Syntax::Base(Op::Reverse)),
    ("head", Syntax::Base(Op::Head)),
    ("tail", Syntax::Base(Op::Tail)),
    ("insert", Syntax::Argument(Op::Insert)),
    ("min", Syntax::Base(Op::Min)),
    ("delmin", Syntax::Base(Op::Delmin)),
    ("meld", Syntax::Other(Op::Meld)),
    ("max", Syntax::Base(Op::Max)),
    ("delmax", Syntax::Base(Op::Delmax)),
    ("pushl", Syntax::Argument(Op::Pushl)),
    ("pushr", Syntax::Argument(Op::Pushr)),
    ("popl", Syntax::Base(Op::Popl)),
    ("popr", Syntax::Base(Op::Popr)),
    ("first", Syntax::Base(Op::First)),
    ("last", Syntax::Base(Op::Last)),
    ("nth", Syntax::Argument(Op::Nth)),
    ("take", Syntax::Argument(Op::Take)),
    ("drop", Syntax::Argument(Op::Drop)),
    ("concat", Syntax::Other(Op::Concat)),
    ("has", Syntax::Argument(Op::Has)),
    ("remove", Syntax::Argument(Op::Remove)),
    ("upto", Syntax::Argument(Op::Upto)),
    ("split", Syntax::Argument(Op::Split)),
];

/// The words of kinds, in the order of their numbers.
pub const KINDS: [(&str, Kind); 8] = [
    ("stream", Kind::Stream),
    ("bankq", Kind::Bankq),
    ("rtq", Kind::Rtq),
    ("heap", Kind::Heap),
    ("seq", Kind::Seq),
    ("prio", Kind::Prio),
    ("ord", Kind::Ord),
    ("cat", Kind::Cat),
];

/// The tables are these.
pub fn tables_are_said()
    ensures operations { operations ≡ said_operations }
    ensures kinds { kinds ≡ said_kinds }
{}

/// Whether a word is this text.
pub fn is(word: &[u8], text: &str) -> bool
    ensures { result ≡ bytes_eq word.now text.now }
{
    word == text.as_bytes()
}

// What a word stands for in a table.
fn look_up<X: Copy>(word: &[u8], rows: &[(&'static str, X)]) -> Option<X>
    ensures { result ≡ look word.now (map said_row rows.now) }
{
    for (text, value) in rows {
        if is(word, text) {
            return Some(*value);
        }
    }
    None
}

/// Whether scripts of a form have labels, `split` and second versions.
pub fn has_labels(form: Form) -> bool
    ensures { result ≡ has_labels form }
{
    !matches!(form, Form::One)
}

/// The operation of a word, and what follows it.
pub fn named_syntax(form: Form, word: &[u8]) -> Option<Syntax>
    ensures { result ≡ syntax_of form word.now }
{
    if has_labels(form) {
        look_up(word, &OPERATIONS)
    } else {
        let rows: &[(&str, Syntax)] = &OPERATIONS;
        look_up(word, &rows[..27])
    }
}

/// The kind of a word.
pub fn named_kind(word: &[u8]) -> Option<Kind>
    ensures { result ≡ kind_named word.now }
{
    look_up(word, &KINDS)
}

// The row of an operation in the table.
fn row_of(op: Op) -> usize
    ensures { result ≡ row_of op }
{
    match op {
        Op::New(_) => 0,
        _ => op.number() as usize,
    }
}

// The element at an index, where there is one.
fn element<X: Copy>(elements: &[X], index: usize) -> Option<X>
    ensures { result ≡ slice_get elements.now index }
{
    elements.get(index).copied()
}

// The row of a table at an index, where there is one.
fn row_at<X: Copy>(rows: &[(&'static str, X)], index: usize) -> Option<(&'static str, X)>
    ensures { option_map said_row result ≡ slice_get (map said_row rows.now) index }
{
    element(rows, index)
}

/// The word of an operation, and what follows it.
pub fn op_row(op: Op) -> (&'static str, Syntax)
    ensures word { result.0.now ≡ op_word op }
    ensures syntax { result.1 ≡ op_syntax op }
{
    match row_at(&OPERATIONS, row_of(op)) {
        Some(row) => row,
        None => ("", Syntax::New),
    }
}

/// The word of a kind.
pub fn kind_text(kind: Kind) -> &'static str
    ensures { result.now ≡ kind_word kind }
{
    match row_at(&KINDS, kind.number() as usize) {
        Some((word, _)) => word,
        None => "",
    }
}
