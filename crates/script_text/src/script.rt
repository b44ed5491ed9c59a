//! A script as a value, and its reader.
ghost use Rattle.std.specs.Prelude.{◌≡◌, ℕ, suc, ◌+◌, ◌≤◌, ◌⊎◌, ◌++◌, ◌∷◌, [], List, length, IfOk, OnOk, Ok, Err, Some};
ghost use Rattle.lazy_rec.specs.History.{event_of, kind_of};
ghost use Rattle.lazy_rec.specs.declared.events.Event.{Event};
ghost use Rattle.script_text.specs.Lines.{words_of};
ghost use Rattle.script_text.specs.Words.{look};
ghost use Rattle.script_text.specs.Labels.{names_in};
ghost use Rattle.script_text.specs.Events.{ScriptView, is_split_at};
ghost use Rattle.script_text.specs.Text.{IsText, IsFirstFault, IsWritable, Follows, AreKindsOf, events_with, labels_with, form_words, form_said, form_number};
ghost use Rattle.script_text.specs.Common.{ReadOn};
ghost use Rattle.script_text.specs.declared.model.Reason.{Reason};
ghost use Rattle.script_text.specs.declared.model.ScriptFault.TheVariants.{Line, NoMemory};

use crate::common_lines::common_event;
use crate::event_lines::{event_at, labels_line};
use crate::lines::{begins_with, next_line, next_word, two_words};
use crate::model::{Form, Reason, ScriptFault};
use crate::versions::{Labels, keep_label};
use crate::words::is;
use lazy_rec::limits::{MOST_EVENTS, MOST_SCRIPT_BYTES};
use lazy_rec::{Event, Kind, Op, event_name};
use std::alloc::{AllocError, Global};
use std::collections::HashMap;
use std::marker::Model;

/// A list of events that keeps the rules of scripts, and the form in which it is written.
#[derive(Drop)]
pub struct Script {
    form: Form,
    events: Vec<Event>,
    kinds: Vec<Kind>,
}

impl Model for Script {
    ghost use Rattle.script_text.specs.Events.{ScriptView};
    ghost use Rattle.script_text.specs.Text.{IsWritable, AreKindsOf};

    ghost Value = { ScriptView };

    ghost view = { λ s. record { form = s.form; events = s.events.items } };

    ghost invariant = { λ s. IsWritable (record { form = s.form; events = s.events.items }) × AreKindsOf s.events.items s.kinds.items };
}

impl Script {
    /// The script with no event.
    pub(crate) fn new(alloc: Global, form: Form) -> Self
        ensures { result ≡ record { form = form; events = [] } }
    {
        Script {
            form,
            events: Vec::new(alloc),
            kinds: Vec::new(alloc),
        }
    }

    /// The number of the form: 1, 2 or 3.
    pub fn form(&self) -> u32
        ensures { result ≡ form_number self.now.form }
    {
        self.form as u32
    }

    /// The form.
    pub(crate) fn form_of(&self) -> Form
        ensures { result ≡ self.now.form }
    {
        self.form
    }

    /// The events.
    pub fn events(&self) -> &[Event]
        ensures same { result.now ≡ self.now.events }
        ensures rules { IsWritable self.now }
    {
        self.events.as_slice()
    }

    /// The kinds of the events, in order.
    pub fn kinds(&self) -> &[Kind]
        ensures kinds { AreKindsOf self.now.events result.now }
        ensures rules { IsWritable self.now }
    {
        self.kinds.as_slice()
    }

    /// The number of events.
    pub(crate) fn count(&self) -> usize
        ensures count { result ≡ length self.now.events }
        ensures few { result ≤ MOST_EVENTS }
    {
        self.events.len()
    }

    /// The kind of the event with this name, in both versions of a split.
    pub fn kind_of(&self, name: u32) -> Kind
        requires from_one { 1 ≤ name }
        requires held { name ≤ length self.now.events }
        ensures { Some result ≡ kind_of (event_of self.now.events) name }
    {
        self.kinds[name as usize - 1]
    }

    /// Whether the event of a name is a split.
    pub(crate) fn is_split_at(&self, name: u32) -> bool
        ensures { result ≡ is_split_at self.now.events name }
    {
        if name == 0 {
            return false;
        }
        match self.events.get(name as usize - 1) {
            Some(event) => matches!(event.op, Op::Split),
            None => false,
        }
    }

    // The kind that a next event has.
    fn kind_made(&self, event: Event) -> Kind
        requires { Follows self.now event }
        ensures { Some result ≡ kind_of (event_of (self.now.events ++ event ∷ [])) (suc (length self.now.events)) }
    {
        if let Op::New(kind) = event.op {
            return kind;
        }
        self.kind_of(event_name(event.base))
    }

    /// Puts one more event behind the others.
    #[inline(always)]
    pub(crate) fn push(&mut self, event: Event) -> Result<(), AllocError>
        requires { Follows self.old event }
        ensures { OnOk result (self.new ≡ events_with self.old event) }
    {
        let kind = self.kind_made(event);
        self.kinds.push(kind)?;
        match self.events.push(event) {
            Ok(()) => Ok(()),
            Err(_) => {
                let _ = self.kinds.pop();
                Err(AllocError)
            }
        }
    }
}

impl From<AllocError> for ScriptFault {
    ghost from_gives = { λ _ e. e ≡ NoMemory };

    fn from(_: AllocError) -> ScriptFault {
        ScriptFault::NoMemory
    }
}

/// Bytes are a text of one script at most. They have one first faulty line at most, with one first reason, and none where
/// they are a text.
pub fn one_reading()
    ensures one { (bytes : List ℕ) (s t : ScriptView) → IsText bytes s → IsText bytes t → s ≡ t }
    ensures none { (bytes : List ℕ) (s : ScriptView) (line : ℕ) (reason : Reason) → IsText bytes s → IsFirstFault bytes line reason → ⊥ }
    ensures first { (bytes : List ℕ) (l m : ℕ) (r s : Reason) → IsFirstFault bytes l r → IsFirstFault bytes m s → (l ≡ m) × (r ≡ s) }
{}

// The form of a number as a word.
fn form_word(word: &[u8]) -> Option<Form>
    ensures { result ≡ look word.now form_words }
{
    if is(word, "1") {
        Some(Form::One)
    } else if is(word, "2") {
        Some(Form::Two)
    } else if is(word, "3") {
        Some(Form::Three)
    } else {
        None
    }
}

// The form that a header says.
fn form_said(line: &[u8]) -> Option<Form>
    ensures { result ≡ form_said (words_of line.now) }
{
    let (first, second) = two_words(line)?;
    if is(first, "lazy") {
        form_word(second)
    } else {
        None
    }
}

// The labels with that of a line, if it has one.
fn with_label<'a>(
    labels: &mut Labels<'a>,
    before: &Script,
    first: &'a [u8],
) -> Result<(), AllocError>
    ensures { (kept : List (List ℕ × ℕ)) → ((w : List ℕ) → names_in labels.old w ≡ look w kept) → OnOk result ((w : List ℕ) → names_in labels.new w ≡ look w (labels_with before.now.form first.now (suc (length before.now.events)) kept)) }
{
    if labels_line(before.form_of(), first) {
        keep_label(labels, first, before.count() as u32 + 1)?;
    }
    Ok(())
}

// Reads the lines of a queue's words, or of others, that are as most are, up to the first that isn't, and answers what follows
// them. `number` is that of the last line that was read.
#[inline(always)]
fn read_lines<'a>(
    script: &mut Script,
    number: &mut u32,
    bytes: &'a [u8],
    of_queues: bool,
) -> Result<&'a [u8], AllocError>
    requires few { number.old + length bytes.now ≤ MOST_SCRIPT_BYTES + 1 }
    ensures { IfOk result (λ rest. ReadOn script.old (number.old + 1) bytes.entry.now script.new (number.new + 1) rest.now) }
{
    let mut rest = bytes;
    while let Some((event, after)) = common_event(script, rest, of_queues) {
        script.push(event)?;
        *number += 1;
        rest = after;
    }
    Ok(rest)
}

// Those of a queue's words, in a function of its own that has the registers for itself.
#[inline(never)]
fn read_queue_lines<'a>(
    script: &mut Script,
    number: &mut u32,
    bytes: &'a [u8],
) -> Result<&'a [u8], AllocError>
    requires few { number.old + length bytes.now ≤ MOST_SCRIPT_BYTES + 1 }
    ensures { IfOk result (λ rest. ReadOn script.old (number.old + 1) bytes.entry.now script.new (number.new + 1) rest.now) }
{
    read_lines(script, number, bytes, true)
}

// Those of other words.
#[inline(never)]
fn read_other_lines<'a>(
    script: &mut Script,
    number: &mut u32,
    bytes: &'a [u8],
) -> Result<&'a [u8], AllocError>
    requires few { number.old + length bytes.now ≤ MOST_SCRIPT_BYTES + 1 }
    ensures { IfOk result (λ rest. ReadOn script.old (number.old + 1) bytes.entry.now script.new (number.new + 1) rest.now) }
{
    read_lines(script, number, bytes, false)
}

// Those of either sort, as long as there are others between lines of queues.
fn read_common_lines<'a>(
    script: &mut Script,
    number: &mut u32,
    bytes: &'a [u8],
) -> Result<&'a [u8], AllocError>
    requires few { number.old + length bytes.now ≤ MOST_SCRIPT_BYTES + 1 }
    ensures { IfOk result (λ rest. ReadOn script.old (number.old + 1) bytes.entry.now script.new (number.new + 1) rest.now) }
{
    let mut rest = read_queue_lines(script, number, bytes)?;
    let mut after = read_other_lines(script, number, rest)?;
    while after.len() < rest.len() {
        rest = read_queue_lines(script, number, after)?;
        after = read_other_lines(script, number, rest)?;
    }
    Ok(after)
}

/// Reads a script of at most 16,777,216 bytes.
pub fn read_script(alloc: Global, bytes: &[u8]) -> Result<Script, ScriptFault>
    requires { length bytes.now ≤ MOST_SCRIPT_BYTES }
    ensures script { IfOk result (λ s. IsText bytes.now s) }
    ensures fault { (line : ℕ) (reason : Reason) → result ≡ Err (Line line reason) → IsFirstFault bytes.now line reason }
    ensures each_text { (s : ScriptView) → IsText bytes.now s → (result ≡ Ok s) ⊎ (result ≡ Err NoMemory) }
    ensures each_fault { (line : ℕ) (reason : Reason) → IsFirstFault bytes.now line reason → (result ≡ Err (Line line reason)) ⊎ (result ≡ Err NoMemory) }
{
    let no_header = ScriptFault::Line {
        line: 1,
        reason: Reason::NoHeader,
    };
    let Some((header, after)) = next_line(bytes) else {
        return Err(no_header);
    };
    let Some(form) = form_said(header) else {
        return Err(no_header);
    };
    let mut script = Script::new(alloc, form);
    let mut labels = HashMap::new(alloc);
    let mut number = 1;
    let mut rest = after;
    while let Some((line, after)) = next_line(read_common_lines(&mut script, &mut number, rest)?) {
        rest = after;
        number += 1;
        let Some((word, words)) = next_word(line) else {
            continue;
        };
        if begins_with(word, b'#') {
            continue;
        }
        match event_at(&script, &labels, word, words) {
            Ok(event) => {
                with_label(&mut labels, &script, word)?;
                script.push(event)?;
            }
            Err(reason) => {
                return Err(ScriptFault::Line {
                    line: number,
                    reason,
                });
            }
        }
    }
    Ok(script)
}
