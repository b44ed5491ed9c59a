//! Lines as most are: the word of an operation, then its numbers or kind behind single spaces, then the line's end. They are
//! read in one pass. A line that is written otherwise is left to the reader of any line.
ghost use Rattle.std.specs.Prelude.{◌≡◌, ℕ, ◌<◌, ◌++◌, ◌∷◌, List, codes, length, IfSome, true, false};
ghost use Rattle.lazy_rec.specs.declared.limits.TheConstants.{MOST_EVENTS};
ghost use Rattle.lazy_rec.specs.Kinds.{is_split};
ghost use Rattle.script_text.specs.Words.{op_word, op_syntax, kind_word};
ghost use Rattle.script_text.specs.declared.words.Syntax.TheVariants.{Base, Argument, Other};
ghost use Rattle.script_text.specs.Events.{said};
ghost use Rattle.script_text.specs.Common.{IsNumberBefore, IsCommonEvent};

use crate::event_lines::{event_of_new, on_base, on_two};
use crate::front_digits::front_digits;
use crate::lines::most_number;
use crate::model::Form;
use crate::script::Script;
use crate::versions::Said;
use lazy_rec::limits::MOST_EVENTS;
use lazy_rec::{Event, Kind, Op};

// So many bytes are asked for once, so that a part of the line need not be: a word of four letters, a number of at most ten digits
// and what is looked at to read a second one.
const MOST_LINE_BYTES: usize = 32;

// Whether four bytes are these.
#[inline(always)]
fn same_four(bytes: &[u8; 4], word: &[u8; 4]) -> bool
    ensures { result ≡ true → bytes.now ≡ word.now }
{
    u32::from_le_bytes(*bytes) == u32::from_le_bytes(*word)
}

// What follows four bytes at the beginning.
#[inline(always)]
fn after_four<'a>(bytes: &'a [u8], four: &[u8; 4]) -> Option<&'a [u8]>
    ensures { IfSome result (λ r. bytes.entry.now ≡ four.now ++ r.now) }
{
    match bytes {
        [a, b, c, d, rest @ ..] if same_four(&[*a, *b, *c, *d], four) => Some(rest),
        _ => None,
    }
}

// What follows a word of four letters and a space at the beginning.
#[inline(always)]
fn after_word<'a>(bytes: &'a [u8], word: &[u8; 4]) -> Option<&'a [u8]>
    ensures { IfSome result (λ r. bytes.entry.now ≡ word.now ++ 32 ∷ r.now) }
{
    match bytes {
        [a, b, c, d, b' ', rest @ ..] if same_four(&[*a, *b, *c, *d], word) => Some(rest),
        _ => None,
    }
}

// What follows `size` and a space at the beginning. It is told from a queue's words byte by byte, so that these are told alone.
#[inline(always)]
fn after_size(bytes: &[u8]) -> Option<&[u8]>
    ensures { IfSome result (λ r. bytes.entry.now ≡ codes "size" ++ 32 ∷ r.now) }
{
    match bytes {
        [b's', b'i', b'z', b'e', b' ', rest @ ..] => Some(rest),
        _ => None,
    }
}

// The same as `with_argument` of the words that scripts of sequences and heaps have most, by their first four bytes.
#[inline(always)]
fn often_with_argument(bytes: &[u8]) -> Option<(Op, &[u8])>
    ensures word { IfSome result (λ r. bytes.entry.now ≡ op_word r.0 ++ 32 ∷ r.1.now) }
    ensures syntax { IfSome result (λ r. op_syntax r.0 ≡ Argument r.0) }
    ensures in_form { IfSome result (λ r. is_split r.0 ≡ false) }
{
    if let Some(rest) = after_four(bytes, b"push") {
        return match rest {
            [b'l', b' ', rest @ ..] => Some((Op::Pushl, rest)),
            [b'r', b' ', rest @ ..] => Some((Op::Pushr, rest)),
            _ => None,
        };
    }
    match after_four(bytes, b"inse")? {
        [b'r', b't', b' ', rest @ ..] => Some((Op::Insert, rest)),
        _ => None,
    }
}

// The same as `with_base` of such words.
#[inline(always)]
fn often_with_base(bytes: &[u8]) -> Option<(Op, &[u8])>
    ensures word { IfSome result (λ r. bytes.entry.now ≡ op_word r.0 ++ 32 ∷ r.1.now) }
    ensures syntax { IfSome result (λ r. op_syntax r.0 ≡ Base r.0) }
    ensures in_form { IfSome result (λ r. is_split r.0 ≡ false) }
{
    if let Some(rest) = after_word(bytes, b"popl") {
        return Some((Op::Popl, rest));
    }
    if let Some(rest) = after_word(bytes, b"popr") {
        return Some((Op::Popr, rest));
    }
    if let Some(rest) = after_four(bytes, b"min ") {
        return Some((Op::Min, rest));
    }
    match after_four(bytes, b"delm")? {
        [b'i', b'n', b' ', rest @ ..] => Some((Op::Delmin, rest)),
        _ => None,
    }
}

// An operation with an argument, whose word and a space begin the bytes, and what follows them. `split`, which form 1 lacks, isn't
// looked for.
#[inline(always)]
fn with_argument(bytes: &[u8]) -> Option<(Op, &[u8])>
    ensures word { IfSome result (λ r. bytes.entry.now ≡ op_word r.0 ++ 32 ∷ r.1.now) }
    ensures syntax { IfSome result (λ r. op_syntax r.0 ≡ Argument r.0) }
    ensures in_form { IfSome result (λ r. is_split r.0 ≡ false) }
{
    match bytes {
        [b'c', b'o', b'n', b's', b' ', rest @ ..] => Some((Op::Cons, rest)),
        [b'n', b't', b'h', b' ', rest @ ..] => Some((Op::Nth, rest)),
        [b't', b'a', b'k', b'e', b' ', rest @ ..] => Some((Op::Take, rest)),
        [b'd', b'r', b'o', b'p', b' ', rest @ ..] => Some((Op::Drop, rest)),
        [b'h', b'a', b's', b' ', rest @ ..] => Some((Op::Has, rest)),
        [b'r', b'e', b'm', b'o', b'v', b'e', b' ', rest @ ..] => Some((Op::Remove, rest)),
        [b'u', b'p', b't', b'o', b' ', rest @ ..] => Some((Op::Upto, rest)),
        _ => None,
    }
}

// An operation with a base alone, whose word and a space begin the bytes, and what follows them.
#[inline(always)]
fn with_base(bytes: &[u8]) -> Option<(Op, &[u8])>
    ensures word { IfSome result (λ r. bytes.entry.now ≡ op_word r.0 ++ 32 ∷ r.1.now) }
    ensures syntax { IfSome result (λ r. op_syntax r.0 ≡ Base r.0) }
    ensures in_form { IfSome result (λ r. is_split r.0 ≡ false) }
{
    match bytes {
        [b's', b'i', b'z', b'e', b' ', rest @ ..] => Some((Op::Size, rest)),
        [b'r', b'e', b'v', b'e', b'r', b's', b'e', b' ', rest @ ..] => Some((Op::Reverse, rest)),
        [b'm', b'a', b'x', b' ', rest @ ..] => Some((Op::Max, rest)),
        [b'd', b'e', b'l', b'm', b'a', b'x', b' ', rest @ ..] => Some((Op::Delmax, rest)),
        [b'f', b'i', b'r', b's', b't', b' ', rest @ ..] => Some((Op::First, rest)),
        [b'l', b'a', b's', b't', b' ', rest @ ..] => Some((Op::Last, rest)),
        _ => None,
    }
}

// An operation with two bases, whose word and a space begin the bytes, and what follows them.
#[inline(always)]
fn with_other(bytes: &[u8]) -> Option<(Op, &[u8])>
    ensures word { IfSome result (λ r. bytes.entry.now ≡ op_word r.0 ++ 32 ∷ r.1.now) }
    ensures syntax { IfSome result (λ r. op_syntax r.0 ≡ Other r.0) }
    ensures in_form { IfSome result (λ r. is_split r.0 ≡ false) }
{
    match bytes {
        [b'a', b'p', b'p', b'e', b'n', b'd', b' ', rest @ ..] => Some((Op::Append, rest)),
        [b'm', b'e', b'l', b'd', b' ', rest @ ..] => Some((Op::Meld, rest)),
        [b'c', b'o', b'n', b'c', b'a', b't', b' ', rest @ ..] => Some((Op::Concat, rest)),
        _ => None,
    }
}

// What follows `new` and a space at the beginning.
#[inline(always)]
fn after_new(bytes: &[u8]) -> Option<&[u8]>
    ensures { IfSome result (λ r. bytes.entry.now ≡ codes "new" ++ 32 ∷ r.now) }
{
    match bytes {
        [b'n', b'e', b'w', b' ', rest @ ..] => Some(rest),
        _ => None,
    }
}

// The kind whose word and a line's end begin the bytes, and what follows them.
#[inline(always)]
fn kind_before_end(bytes: &[u8]) -> Option<(Kind, &[u8])>
    ensures { IfSome result (λ r. bytes.entry.now ≡ kind_word r.0 ++ 10 ∷ r.1.now) }
{
    match bytes {
        [b's', b't', b'r', b'e', b'a', b'm', b'\n', rest @ ..] => Some((Kind::Stream, rest)),
        [b'b', b'a', b'n', b'k', b'q', b'\n', rest @ ..] => Some((Kind::Bankq, rest)),
        [b'r', b't', b'q', b'\n', rest @ ..] => Some((Kind::Rtq, rest)),
        [b'h', b'e', b'a', b'p', b'\n', rest @ ..] => Some((Kind::Heap, rest)),
        [b's', b'e', b'q', b'\n', rest @ ..] => Some((Kind::Seq, rest)),
        [b'p', b'r', b'i', b'o', b'\n', rest @ ..] => Some((Kind::Prio, rest)),
        [b'o', b'r', b'd', b'\n', rest @ ..] => Some((Kind::Ord, rest)),
        [b'c', b'a', b't', b'\n', rest @ ..] => Some((Kind::Cat, rest)),
        _ => None,
    }
}

// The number of at most ten digits that bytes begin with, where this byte stands behind it, and what follows that byte.
#[inline(always)]
fn number_before(form: Form, bytes: &[u8], end: u8) -> Option<(u64, &[u8])>
    ensures { IfSome result (λ r. IsNumberBefore form bytes.entry.now end r.0 r.1.now) }
{
    if bytes.len() < 16 {
        return None;
    }
    let (value, count) = front_digits(bytes)?;
    if value > most_number(form) {
        return None;
    }
    match &bytes[count..] {
        [first, rest @ ..] if *first == end => Some((value, rest)),
        _ => None,
    }
}

// The first version of an event.
#[inline(always)]
fn first_of(name: u64) -> Said
    ensures { result ≡ said false name }
{
    Said {
        name,
        second: false,
    }
}

// The event of an operation with a base alone, behind its word and a space, and the bytes after the line.
#[inline(always)]
fn base_line<'a>(before: &Script, op: Op, bytes: &'a [u8]) -> Option<(Event, &'a [u8])>
    requires room { length before.now.events < MOST_EVENTS }
    requires syntax { op_syntax op ≡ Base op }
    requires in_form { is_split op ≡ false }
    ensures { IfSome result (λ r. (line : List ℕ) → line ≡ op_word op ++ 32 ∷ bytes.entry.now → IsCommonEvent before.now line r.0 r.1.now) }
{
    let form = before.form_of();
    let (base, after) = number_before(form, bytes, b'\n')?;
    let Ok(event) = on_base(before, op, first_of(base), 0) else {
        return None;
    };
    Some((event, after))
}

// The same with an argument.
#[inline(always)]
fn argument_line<'a>(before: &Script, op: Op, bytes: &'a [u8]) -> Option<(Event, &'a [u8])>
    requires room { length before.now.events < MOST_EVENTS }
    requires syntax { op_syntax op ≡ Argument op }
    requires in_form { is_split op ≡ false }
    ensures { IfSome result (λ r. (line : List ℕ) → line ≡ op_word op ++ 32 ∷ bytes.entry.now → IsCommonEvent before.now line r.0 r.1.now) }
{
    let form = before.form_of();
    let (base, more) = number_before(form, bytes, b' ')?;
    let (arg, after) = number_before(form, more, b'\n')?;
    let Ok(event) = on_base(before, op, first_of(base), arg) else {
        return None;
    };
    Some((event, after))
}

// The same with two bases.
#[inline(always)]
fn other_line<'a>(before: &Script, op: Op, bytes: &'a [u8]) -> Option<(Event, &'a [u8])>
    requires room { length before.now.events < MOST_EVENTS }
    requires syntax { op_syntax op ≡ Other op }
    requires in_form { is_split op ≡ false }
    ensures { IfSome result (λ r. (line : List ℕ) → line ≡ op_word op ++ 32 ∷ bytes.entry.now → IsCommonEvent before.now line r.0 r.1.now) }
{
    let form = before.form_of();
    let (base, more) = number_before(form, bytes, b' ')?;
    let (other, after) = number_before(form, more, b'\n')?;
    let Ok(event) = on_two(before, op, first_of(base), first_of(other)) else {
        return None;
    };
    Some((event, after))
}

// The event of a line of a queue's words, of which each has a way of its own, and the bytes after the line. `size`, which every
// kind has, is one of the others too.
#[inline(always)]
fn queue_event<'a>(before: &Script, bytes: &'a [u8]) -> Option<(Event, &'a [u8])>
    requires { length before.now.events < MOST_EVENTS }
    ensures { IfSome result (λ r. IsCommonEvent before.now bytes.entry.now r.0 r.1.now) }
{
    if let Some(rest) = after_word(bytes, b"snoc") {
        return argument_line(before, Op::Snoc, rest);
    }
    if let Some(rest) = after_word(bytes, b"head") {
        return base_line(before, Op::Head, rest);
    }
    if let Some(rest) = after_word(bytes, b"tail") {
        return base_line(before, Op::Tail, rest);
    }
    base_line(before, Op::Size, after_size(bytes)?)
}

// The event of a line of another word, and the bytes after the line.
#[inline(always)]
fn other_event<'a>(before: &Script, bytes: &'a [u8]) -> Option<(Event, &'a [u8])>
    requires { length before.now.events < MOST_EVENTS }
    ensures { IfSome result (λ r. IsCommonEvent before.now bytes.entry.now r.0 r.1.now) }
{
    if let Some((op, rest)) = often_with_argument(bytes) {
        return argument_line(before, op, rest);
    }
    if let Some((op, rest)) = often_with_base(bytes) {
        return base_line(before, op, rest);
    }
    if let Some((op, rest)) = with_base(bytes) {
        return base_line(before, op, rest);
    }
    if let Some((op, rest)) = with_argument(bytes) {
        return argument_line(before, op, rest);
    }
    if let Some((op, rest)) = with_other(bytes) {
        return other_line(before, op, rest);
    }
    let (kind, after) = kind_before_end(after_new(bytes)?)?;
    Some((event_of_new(kind), after))
}

/// The event of the first line and the bytes after the line, where the line is as most are and its event may stand next: of a
/// queue's words, or of the others. The last lines of a text are left to the reader of any line.
#[inline(always)]
pub fn common_event<'a>(
    before: &Script,
    bytes: &'a [u8],
    of_queues: bool,
) -> Option<(Event, &'a [u8])>
    ensures { IfSome result (λ r. IsCommonEvent before.now bytes.entry.now r.0 r.1.now) }
{
    if before.count() >= MOST_EVENTS as usize || bytes.len() < MOST_LINE_BYTES {
        return None;
    }
    if of_queues {
        queue_event(before, bytes)
    } else {
        other_event(before, bytes)
    }
}
