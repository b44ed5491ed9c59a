//! The event of a line.
ghost use Rattle.std.specs.Prelude.{◌≡◌};
ghost use Rattle.std.specs.Result.{result_map_both};
ghost use Rattle.script_text.specs.Lines.{words_of};
ghost use Rattle.script_text.specs.Labels.{names_in};
ghost use Rattle.lazy_rec.specs.declared.events.Op.TheVariants.{New};
ghost use Rattle.script_text.specs.Events.{event, on_base, on_two, new_event, event_with, labels_line, after_label, event_at};

use crate::lines::{begins_with, is_label, next_word, number, one_word, two_words};
use crate::model::{Form, Reason};
use crate::script::Script;
use crate::versions::{Labels, Said, kind_before, name_of, said_of, version_of};
use crate::words::{Syntax, has_labels, named_kind, named_syntax};
use lazy_rec::limits::MOST_EVENTS;
use lazy_rec::{Event, Kind, Op};

/// The event with a base, and no other.
#[inline(always)]
pub fn on_base(before: &Script, op: Op, base: Said, arg: u64) -> Result<Event, Reason>
    ensures { result ≡ on_base before.now.events op base arg }
{
    let kind = kind_before(before, base.name)?;
    let version = version_of(before, base)?;
    if !kind.has(op) {
        return Err(Reason::NotOfThisKind);
    }
    Ok(Event {
        op,
        base: version,
        other: 0,
        arg,
    })
}

/// The event with two bases.
pub fn on_two(before: &Script, op: Op, base: Said, other: Said) -> Result<Event, Reason>
    ensures { result ≡ on_two before.now.events op base other }
{
    let kind = kind_before(before, base.name)?;
    let second = kind_before(before, other.name)?;
    let first_version = version_of(before, base)?;
    let second_version = version_of(before, other)?;
    if !kind.has(op) {
        return Err(Reason::NotOfThisKind);
    }
    if kind != second {
        return Err(Reason::TwoKinds);
    }
    Ok(Event {
        op,
        base: first_version,
        other: second_version,
        arg: 0,
    })
}

/// The event that makes an empty structure.
pub fn event_of_new(kind: Kind) -> Event
    ensures { result ≡ event (New kind) 0 0 0 }
{
    Event {
        op: Op::New(kind),
        base: 0,
        other: 0,
        arg: 0,
    }
}

// The event that makes an empty structure of a named kind.
fn new_event(word: &[u8]) -> Result<Event, Reason>
    ensures { result ≡ new_event word.now }
{
    let kind = named_kind(word).ok_or(Reason::UnknownWord)?;
    Ok(event_of_new(kind))
}

// The event of an operation and the words after it.
#[tactic(auto, unfolding(crate::specs::Events::event_with))]
fn event_with(
    before: &Script,
    labels: &Labels,
    syntax: Syntax,
    rest: &[u8],
) -> Result<Event, Reason>
    ensures { result ≡ event_with before.now (names_in labels.now) syntax (words_of rest.now) }
{
    let form = before.form_of();
    match syntax {
        Syntax::New => {
            let word = one_word(rest).ok_or(Reason::WrongCount)?;
            new_event(word)
        }
        Syntax::Base(op) => {
            let word = one_word(rest).ok_or(Reason::WrongCount)?;
            let said = said_of(form, labels, word)?;
            let base = said.ok_or(Reason::UnknownLabel)?;
            on_base(before, op, base, 0)
        }
        Syntax::Argument(op) => {
            let (first, second) = two_words(rest).ok_or(Reason::WrongCount)?;
            let said = said_of(form, labels, first)?;
            let arg = number(form, second)?;
            let base = said.ok_or(Reason::UnknownLabel)?;
            on_base(before, op, base, arg)
        }
        Syntax::Other(op) => {
            let (first, second) = two_words(rest).ok_or(Reason::WrongCount)?;
            let first_said = said_of(form, labels, first)?;
            let second_said = said_of(form, labels, second)?;
            let base = first_said.ok_or(Reason::UnknownLabel)?;
            let other = second_said.ok_or(Reason::UnknownLabel)?;
            on_two(before, op, base, other)
        }
    }
}

/// Whether a line's first word labels its event.
pub fn labels_line(form: Form, first: &[u8]) -> bool
    ensures { result ≡ labels_line form first.now }
{
    has_labels(form) && begins_with(first, b'@')
}

// The first word of the event itself, and what follows it.
#[tactic(auto, unfolding(crate::specs::Events::after_label))]
fn after_label<'a>(
    form: Form,
    labels: &Labels,
    first: &'a [u8],
    rest: &'a [u8],
) -> Result<(&'a [u8], &'a [u8]), Reason>
    ensures { result_map_both (λ p. (p.0.now, words_of p.1.now)) (λ e. e) result ≡ after_label form (names_in labels.now) first.now (words_of rest.now) }
{
    if !labels_line(form, first) {
        return Ok((first, rest));
    }
    if !is_label(first) || name_of(labels, first).is_some() {
        return Err(Reason::BadLabel);
    }
    next_word(rest).ok_or(Reason::WrongCount)
}

/// The event of a line with this first word and this rest.
#[tactic(auto, unfolding(crate::specs::Events::event_at))]
pub fn event_at(
    before: &Script,
    labels: &Labels,
    first: &[u8],
    rest: &[u8],
) -> Result<Event, Reason>
    ensures { result ≡ event_at before.now (names_in labels.now) first.now (words_of rest.now) }
{
    if before.count() >= MOST_EVENTS as usize {
        return Err(Reason::TooMany);
    }
    let form = before.form_of();
    let (word, words) = after_label(form, labels, first, rest)?;
    let syntax = named_syntax(form, word).ok_or(Reason::UnknownWord)?;
    event_with(before, labels, syntax, words)
}
