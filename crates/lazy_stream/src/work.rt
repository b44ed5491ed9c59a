//! The pending work of streams: one stream behind another, and one reversed.
ghost use Rattle.std.specs.Prelude.{◌≡◌, true, Some};
ghost use Rattle.heap_store.specs.World.{recs};
ghost use Rattle.heap_store.specs.View.{Quiet};
ghost use Rattle.heap_store.specs.Jobs.{cursor_fits, Prepared, IsBuildable, IsBuilt};
ghost use Rattle.heap_store.specs.OneStage.{nothing_told};
ghost use Rattle.lazy_stream.specs.Stream.{is_stream_work, goes_on_at};

use crate::append::{Append, build_append, prepare_append};
use crate::reversal::{Reversal, build_reversal, prepare_reversal};
use heap_store::{Built, Cursor, Heap, Prep, Run};
use lazy_rec::{Rec, Ref};

/// What an append needs: its first cell; and a reversal: its cells one after another, which the cursor passes. So a prepare
/// after a force goes on where the one before it stood, and the prepares of a reversal of n cells read n cells in all.
pub fn prepare<H: Heap>(rec: &Rec, h: &mut H, s: Ref, cursor: &mut Cursor) -> Prep
    requires rec { recs (H.view h.old).seen s.0 ≡ Some rec.now }
    requires mine { is_stream_work rec.now ≡ true }
    requires cursor { cursor_fits (H.view h.old).seen s.0 cursor.old ≡ true }
    ensures quiet { Quiet (H.view h.old) (H.view h.new) }
    ensures cursor { cursor_fits (H.view h.new).seen s.0 cursor.new ≡ true }
    ensures goes_on { goes_on_at (H.view h.new).seen rec.now cursor.new result ≡ true }
    ensures answer { Prepared is_stream_work nothing_told (H.view h.new).seen s.0 result }
{
    match *rec {
        Rec::Append {
            xs,
            ys,
            left,
            origin,
            off,
        } => {
            let append = Append {
                xs,
                ys,
                left,
                origin,
                off,
            };
            prepare_append(h, s, append)
        }
        Rec::Reverse { xs, left } => prepare_reversal(h, s, Reversal { xs, left }, cursor),
        _ => unreachable!(),
    }
}

/// Makes the value of an append, in one step: its first cell before the next append, or before the other stream after the
/// last one. Or that of a reversal, in as many steps as it has cells.
pub fn build<H: Heap>(rec: &Rec, h: &mut H, s: Ref, cursor: &Cursor, run: &mut Run) -> Built
    requires rec { recs (H.view h.old).seen s.0 ≡ Some rec.now }
    requires mine { is_stream_work rec.now ≡ true }
    requires cursor { cursor_fits (H.view h.old).seen s.0 cursor.now ≡ true }
    requires build { IsBuildable nothing_told (H.view h.old) s run.old }
    ensures { IsBuilt (H.view h.old) (H.view h.new) s.0 run.old run.new result.place.0 result.steps }
{
    match *rec {
        Rec::Append {
            xs,
            ys,
            left,
            origin,
            off,
        } => {
            let append = Append {
                xs,
                ys,
                left,
                origin,
                off,
            };
            build_append(h, s, append, run)
        }
        Rec::Reverse { xs, left } => build_reversal(h, s, Reversal { xs, left }, run),
        _ => unreachable!(),
    }
}
