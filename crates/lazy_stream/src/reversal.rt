//! Reversals: all cells of a stream at once, the last one first.
ghost use Rattle.std.specs.Prelude.{◌≡◌, ◌<◌, true, Some};
ghost use Rattle.heap_store.specs.World.{recs};
ghost use Rattle.heap_store.specs.View.{Quiet};
ghost use Rattle.heap_store.specs.Jobs.{cursor_fits, Prepared, IsBuildable, IsBuilt};
ghost use Rattle.heap_store.specs.OneStage.{nothing_told};
ghost use Rattle.lazy_stream.specs.Stream.{is_stream_work, goes_on_at};

use heap_store::{Built, Cursor, Heap, Prep, Run, first_cell, value_place};
use lazy_rec::{Rec, Ref};

/// The fields of a reversal's record: the `left` cells of `xs`.
#[derive(Clone, Copy)]
pub(crate) struct Reversal {
    pub xs: Ref,
    pub left: u32,
}

/// Passes the cells that are known, from where the cursor stands. A reversal needs the first one that isn't.
pub(crate) fn prepare_reversal<H: Heap>(
    h: &mut H,
    s: Ref,
    of: Reversal,
    cursor: &mut Cursor,
) -> Prep
    requires rec { recs (H.view h.old).seen s.0 ≡ Some (Rec.Reverse of.xs of.left) }
    requires cursor { cursor_fits (H.view h.old).seen s.0 cursor.old ≡ true }
    ensures quiet { Quiet (H.view h.old) (H.view h.new) }
    ensures cursor { cursor_fits (H.view h.new).seen s.0 cursor.new ≡ true }
    ensures goes_on { goes_on_at (H.view h.new).seen (Rec.Reverse of.xs of.left) cursor.new result ≡ true }
    ensures answer { Prepared is_stream_work nothing_told (H.view h.new).seen s.0 result }
{
    let mut place = stands_at(cursor, of.xs);
    let passed = cursor.passed;
    for i in passed..of.left {
        match value_place(h, place) {
            Some(value) => {
                let cell = first_cell(h, value);
                place = cell.rest;
            }
            None => {
                *cursor = Cursor { place, passed: i };
                return Prep::Need(place);
            }
        }
    }
    *cursor = Cursor {
        place,
        passed: of.left,
    };
    Prep::Ready { nodes: of.left }
}

/// Where a cursor stands: a new one at the first cell.
fn stands_at(cursor: &Cursor, first: Ref) -> Ref
    ensures first { cursor.now.passed ≡ 0 → result ≡ first }
    ensures later { 0 < cursor.now.passed → result ≡ cursor.now.place }
{
    if cursor.passed == 0 {
        first
    } else {
        cursor.place
    }
}

/// Makes the value of a reversal: a new cell for each of its cells, before those that came before it.
pub(crate) fn build_reversal<H: Heap>(h: &mut H, s: Ref, of: Reversal, run: &mut Run) -> Built
    requires rec { recs (H.view h.old).seen s.0 ≡ Some (Rec.Reverse of.xs of.left) }
    requires build { IsBuildable nothing_told (H.view h.old) s run.old }
    ensures { IsBuilt (H.view h.old) (H.view h.new) s.0 run.old run.new result.place.0 result.steps }
{
    let count = of.left;
    let mut rest = of.xs;
    let mut place = Ref(0);
    for i in 0..count {
        let cell = first_cell(h, rest);
        place = h.put(
            run,
            Rec::Cons {
                child: false,
                value: cell.value,
                rest: place,
            },
        );
        rest = cell.rest;
    }
    Built {
        place,
        steps: count,
    }
}
