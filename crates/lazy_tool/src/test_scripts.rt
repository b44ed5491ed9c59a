//! The scripts of tests, by their texts.
ghost use Rattle.std.specs.Prelude.{IfOk};
ghost use Rattle.kind_table.specs.Kinds.{AreBuilt};

use crate::built::first_unbuilt;
use lazy_rec::limits::MOST_SCRIPT_BYTES;
use script_text::{Script, read_script};
use std::alloc::Global;
use std::test::Fail;

/// The script of a text, all of whose events are built.
pub(crate) fn script_of(alloc: Global, text: &str) -> Result<Script, Fail>
    ensures { IfOk result (λ script. AreBuilt script.events) }
{
    let bytes = text.as_bytes();
    if bytes.len() > MOST_SCRIPT_BYTES as usize {
        return Err(Fail::new("a long script"));
    }
    let script = read_script(alloc, bytes)?;
    match first_unbuilt(&script) {
        None => Ok(script),
        Some(_) => Err(Fail::new("an event that isn't built")),
    }
}
