//! How the row of a begun event is ended, as its work came out.
ghost use Rattle.std.specs.Prelude.{◌≡◌, Some};
ghost use Rattle.heap_store.specs.Rows.{Row, row_at};
ghost use Rattle.version_book.specs.RowSteps.{RowEnded};
ghost use Rattle.version_book.specs.Finish.{MayEnd, MayEndRefused, ending_made, ending_refused, answer_made, refusal_made};

use crate::answers::{Entry, Refuse};
use crate::event_work::Outcome;
use crate::row_steps::{end_for_memory, end_full, end_with_reply};
use force_engine::GiveUp;
use heap_store::{Heap, Rows, Version};
use lazy_rec::Kind;

/// Ends the row of a begun event whose work was stopped.
#[cold]
#[inline(never)]
fn end_stopped<R: Rows>(heap: &mut R, name: u32, cause: GiveUp)
    requires may { MayEndRefused (R.view heap.old) name cause }
    ensures { (r : Row) → row_at (R.view heap.old).seen name ≡ Some r → RowEnded (R.view heap.old) (R.view heap.new) name (record r { ending = ending_refused cause }) }
{
    match cause {
        GiveUp::Full(refusal) => end_full(heap, name, refusal),
        GiveUp::NoMemory => end_for_memory(heap, name),
    }
}

/// What is answered where the work was stopped. It is told apart from the row, so that no room for an entry is needed.
fn refusal(cause: GiveUp) -> Refuse
    ensures { result ≡ refusal_made cause }
{
    match cause {
        GiveUp::Full(refusal) => Refuse::StoreFull(refusal),
        GiveUp::NoMemory => Refuse::NoMemory,
    }
}

/// Ends the row of a begun event as its work came out, and answers what the row says.
#[inline(always)]
pub(crate) fn finish<R: Rows>(
    heap: &mut R,
    name: u32,
    kind: Kind,
    made: Result<Outcome, GiveUp>,
) -> Result<Entry, Refuse>
    requires may { MayEnd (R.view heap.old) name kind made }
    ensures ended { (r : Row) → row_at (R.view heap.old).seen name ≡ Some r → RowEnded (R.view heap.old) (R.view heap.new) name (record r { ending = ending_made name kind made }) }
    ensures answer { result ≡ answer_made name kind made }
{
    let outcome = match made {
        Ok(outcome) => outcome,
        Err(cause) => {
            end_stopped(heap, name, cause);
            return Err(refusal(cause));
        }
    };
    let version = Version {
        name,
        kind,
        size: outcome.size,
        root: outcome.root,
    };
    end_with_reply(heap, outcome.reply, version);
    Ok(Entry {
        name,
        reply: outcome.reply,
        version,
        second: None,
    })
}
