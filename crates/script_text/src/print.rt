//! The canonical text of a script.
ghost use Rattle.std.specs.Prelude.{◌≡◌, ℕ, List, ◌++◌, ◌∷◌, IfOk, OnOk, decimal};
ghost use Rattle.lazy_rec.specs.declared.events.Event.{Event};
ghost use Rattle.script_text.specs.Events.{ScriptView};
ghost use Rattle.script_text.specs.Text.{IsText, IsFirstFault, IsWritable, canonical_text, header_text, line_text, event_words, new_word, version_word};
ghost use Rattle.script_text.specs.declared.model.Reason.{Reason};

use crate::model::Form;
use crate::script::Script;
use crate::words::{Syntax, kind_text, op_row};
use itoa::Buffer;
use lazy_rec::{Event, NoMemory, Op, event_name, is_second};
use std::alloc::{AllocError, Global};

/// The canonical text of what is a script is a text of this script, of no other, and has no faulty line. What has a text is
/// such a script.
pub fn canonical_texts()
    ensures back { (s : ScriptView) → IsWritable s → IsText (canonical_text s) s }
    ensures script { (bytes : List ℕ) (s : ScriptView) → IsText bytes s → IsWritable s }
    ensures only { (bytes : List ℕ) (s read : ScriptView) → IsWritable s → bytes ≡ canonical_text s → IsText bytes read → read ≡ s }
    ensures no_fault { (bytes : List ℕ) (s : ScriptView) (line : ℕ) (reason : Reason) → IsWritable s → bytes ≡ canonical_text s → IsFirstFault bytes line reason → ⊥ }
{}

fn push_text(out: &mut Vec<u8>, text: &str) -> Result<(), AllocError>
    ensures { OnOk result (out.new.items ≡ out.old.items ++ text.now) }
{
    out.extend_from_slice(text.as_bytes())?;
    Ok(())
}

// A space and a number.
fn push_number(out: &mut Vec<u8>, buffer: &mut Buffer, n: u64) -> Result<(), AllocError>
    ensures { OnOk result (out.new.items ≡ out.old.items ++ 32 ∷ decimal n) }
{
    out.push(b' ')?;
    out.extend_from_slice(buffer.format(n).as_bytes())?;
    Ok(())
}

// A space and a version.
fn push_version(out: &mut Vec<u8>, buffer: &mut Buffer, version: u32) -> Result<(), AllocError>
    ensures { OnOk result (out.new.items ≡ out.old.items ++ 32 ∷ version_word version) }
{
    push_number(out, buffer, u64::from(event_name(version)))?;
    if is_second(version) {
        push_text(out, ".2")?;
    }
    Ok(())
}

// The word of the kind that `new` makes.
fn new_text(op: Op) -> &'static str
    ensures { result.now ≡ new_word op }
{
    match op {
        Op::New(kind) => kind_text(kind),
        _ => "",
    }
}

// The line of an event.
fn push_event(out: &mut Vec<u8>, buffer: &mut Buffer, event: Event) -> Result<(), AllocError>
    ensures { OnOk result (out.new.items ≡ out.old.items ++ line_text (event_words event)) }
{
    let (word, syntax) = op_row(event.op);
    push_text(out, word)?;
    match syntax {
        Syntax::New => {
            push_text(out, " ")?;
            push_text(out, new_text(event.op))?;
        }
        Syntax::Base(_) => push_version(out, buffer, event.base)?,
        Syntax::Argument(_) => {
            push_version(out, buffer, event.base)?;
            push_number(out, buffer, event.arg)?;
        }
        Syntax::Other(_) => {
            push_version(out, buffer, event.base)?;
            push_version(out, buffer, event.other)?;
        }
    }
    push_text(out, "\n")?;
    Ok(())
}

// The header of a form.
fn header_text(form: Form) -> &'static str
    ensures { result.now ≡ header_text form }
{
    match form {
        Form::One => "lazy 1\n",
        Form::Two => "lazy 2\n",
        Form::Three => "lazy 3\n",
    }
}

fn text_of(alloc: Global, form: Form, events: &[Event]) -> Result<Vec<u8>, AllocError>
    ensures { IfOk result (λ v. v.items ≡ canonical_text (record { form = form; events = events.now })) }
{
    let mut out = Vec::new(alloc);
    let mut buffer = Buffer::new();
    push_text(&mut out, header_text(form))?;
    for event in events {
        push_event(&mut out, &mut buffer, *event)?;
    }
    Ok(out)
}

/// The canonical text of a script: its header, then a line for each event with single spaces, no leading zeros and no
/// labels.
pub fn print_script(alloc: Global, script: &Script) -> Result<Vec<u8>, NoMemory>
    ensures { IfOk result (λ v. v.items ≡ canonical_text script.now) }
{
    text_of(alloc, script.form_of(), script.events()).map_err(|_| NoMemory)
}
