//! The first event of a script that isn't built yet.
ghost use Rattle.std.specs.Prelude.{◌≡◌, ◌||◌, true, not, MatchOption};
ghost use Rattle.lazy_rec.specs.Kinds.{belongs, uses_base};
ghost use Rattle.kind_table.specs.Kinds.{is_built, AreBuilt};
ghost use Rattle.lazy_tool.specs.Scripts.{IsFirstUnbuilt};

use kind_table::{is_built, is_kind_built};
use lazy_rec::{Kind, Op};
use script_text::Script;

/// Whether an event is built, by its kind and its operation, which the kind has. Most kinds are built with all that they have.
#[inline(always)]
fn is_event_built(kind: Kind, op: Op) -> bool
    ensures { (belongs kind op || not (uses_base op)) ≡ true → is_built kind op ≡ result }
{
    is_kind_built(kind) || is_built(kind, op)
}

/// The number of the first event that isn't built, where there is one.
pub fn first_unbuilt(script: &Script) -> Option<u32>
    ensures { MatchOption result (AreBuilt script.now.events) (λ name. IsFirstUnbuilt script.now.events name) }
{
    let kinds = script.kinds();
    let events = script.events();
    for i in 0..kinds.len() {
        if !is_event_built(kinds[i], events[i].op) {
            return Some(i as u32 + 1);
        }
    }
    None
}
