//! The versions that words name.
ghost use Rattle.std.specs.Prelude.{◌≡◌, ℕ, ◌≤◌, List, IfOk, OnOk, Some, cond};
ghost use Rattle.std.specs.Str.{bytes_eq};
ghost use Rattle.script_text.specs.Events.{ending_of, said_of, kind_before, version_of};
ghost use Rattle.script_text.specs.Labels.{names_in};

use crate::lines::{begins_with, cut_ending, number};
use crate::model::{Form, Reason};
use crate::script::Script;
use crate::words::has_labels;
use lazy_rec::limits::MOST_EVENTS;
use lazy_rec::{Kind, second_of};
use std::alloc::AllocError;
use std::collections::HashMap;

/// The labels of the earlier events, with these events' names.
pub type Labels<'a> = HashMap<&'a [u8], u32>;

/// What a word says of a version: the name of its event, and whether it is the second one.
#[derive(Clone, Copy, Debug, PartialEq, Eq)]
pub struct Said {
    pub name: u64,
    pub second: bool,
}

/// The name of the event that has a label.
pub fn name_of(labels: &Labels, label: &[u8]) -> Option<u32>
    ensures { result ≡ names_in labels.now label.now }
{
    labels.get(label).copied()
}

/// Keeps the label of an event.
pub fn keep_label<'a>(labels: &mut Labels<'a>, label: &'a [u8], name: u32) -> Result<(), AllocError>
    ensures { OnOk result ((w : List ℕ) → names_in labels.new w ≡ cond (bytes_eq w label.now) (Some name) (names_in labels.old w)) }
{
    labels.insert(label, name)?;
    Ok(())
}

// A word without its ending, where the form has endings.
fn ending_of(form: Form, word: &[u8]) -> (&[u8], bool)
    ensures { (result.0.now, result.1) ≡ ending_of form word.entry.now }
{
    if has_labels(form) {
        cut_ending(word)
    } else {
        (word, false)
    }
}

/// What a word in a base's place says: nothing where it is a label that no earlier event has.
pub fn said_of(form: Form, labels: &Labels, word: &[u8]) -> Result<Option<Said>, Reason>
    ensures { result ≡ said_of form (names_in labels.now) word.now }
{
    let (stem, second) = ending_of(form, word);
    if has_labels(form) && begins_with(stem, b'@') {
        let name = name_of(labels, stem);
        return Ok(name.map(|name| Said {
            name: u64::from(name),
            second,
        }));
    }
    let name = number(form, stem)?;
    Ok(Some(Said { name, second }))
}

/// The kind of the event with this name, which is one of those before.
pub fn kind_before(before: &Script, name: u64) -> Result<Kind, Reason>
    ensures kind { result ≡ kind_before before.now.events name }
    ensures low { IfOk result (λ _. name ≤ MOST_EVENTS) }
{
    if name == 0 || name > before.count() as u64 {
        return Err(Reason::BaseNotEarlier);
    }
    Ok(before.kind_of(name as u32))
}

/// The version of an earlier event.
pub fn version_of(before: &Script, base: Said) -> Result<u32, Reason>
    requires { base.name ≤ MOST_EVENTS }
    ensures { result ≡ version_of before.now.events base }
{
    let name = base.name as u32;
    if !base.second {
        return Ok(name);
    }
    if !before.is_split_at(name) {
        return Err(Reason::NoSecond);
    }
    Ok(second_of(name))
}
