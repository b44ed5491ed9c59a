//! Appends: one stream behind another, cell by cell.
ghost use Rattle.std.specs.Prelude.{◌≡◌, ◌<◌, true, Some};
ghost use Rattle.heap_store.specs.World.{recs};
ghost use Rattle.heap_store.specs.View.{Quiet};
ghost use Rattle.heap_store.specs.Jobs.{Prepared, IsBuildable, IsBuilt};
ghost use Rattle.heap_store.specs.OneStage.{nothing_told};
ghost use Rattle.lazy_stream.specs.Stream.{is_stream_work};

use heap_store::{Built, Heap, Prep, Run, first_cell, value_place};
use lazy_rec::{Rec, Ref};

/// The fields of an append's record: `left` cells of `xs` stand before those of `ys`, and `off` more did at its origin.
#[derive(Clone, Copy)]
pub(crate) struct Append {
    pub xs: Ref,
    pub ys: Ref,
    pub left: u32,
    pub origin: Ref,
    pub off: u32,
}

/// An append needs its first cell. The last one has no next append to publish.
pub(crate) fn prepare_append<H: Heap>(h: &mut H, s: Ref, of: Append) -> Prep
    requires { recs (H.view h.old).seen s.0 ≡ Some (Rec.Append of.xs of.ys of.left of.origin of.off) }
    ensures quiet { Quiet (H.view h.old) (H.view h.new) }
    ensures answer { Prepared is_stream_work nothing_told (H.view h.new).seen s.0 result }
{
    match value_place(h, of.xs) {
        Some(_) => Prep::Ready {
            nodes: if of.left == 1 { 1 } else { 2 },
        },
        None => Prep::Need(of.xs),
    }
}

/// Makes the value of an append: its first cell, before the next append or, after the last cell, before `ys`.
pub(crate) fn build_append<H: Heap>(h: &mut H, s: Ref, of: Append, run: &mut Run) -> Built
    requires rec { recs (H.view h.old).seen s.0 ≡ Some (Rec.Append of.xs of.ys of.left of.origin of.off) }
    requires build { IsBuildable nothing_told (H.view h.old) s run.old }
    ensures { IsBuilt (H.view h.old) (H.view h.new) s.0 run.old run.new result.place.0 result.steps }
{
    if of.left == 1 {
        build_last(h, s, of, run)
    } else {
        build_next(h, s, of, run)
    }
}

fn build_last<H: Heap>(h: &mut H, s: Ref, of: Append, run: &mut Run) -> Built
    requires rec { recs (H.view h.old).seen s.0 ≡ Some (Rec.Append of.xs of.ys of.left of.origin of.off) }
    requires last { of.left ≡ 1 }
    requires build { IsBuildable nothing_told (H.view h.old) s run.old }
    ensures { IsBuilt (H.view h.old) (H.view h.new) s.0 run.old run.new result.place.0 result.steps }
{
    let cell = first_cell(h, of.xs);
    let place = h.put(
        run,
        Rec::Cons {
            child: false,
            value: cell.value,
            rest: of.ys,
        },
    );
    Built { place, steps: 1 }
}

fn build_next<H: Heap>(h: &mut H, s: Ref, of: Append, run: &mut Run) -> Built
    requires rec { recs (H.view h.old).seen s.0 ≡ Some (Rec.Append of.xs of.ys of.left of.origin of.off) }
    requires more { 1 < of.left }
    requires build { IsBuildable nothing_told (H.view h.old) s run.old }
    ensures { IsBuilt (H.view h.old) (H.view h.new) s.0 run.old run.new result.place.0 result.steps }
{
    let cell = first_cell(h, of.xs);
    let next = h.put(
        run,
        Rec::Append {
            xs: cell.rest,
            ys: of.ys,
            left: of.left - 1,
            origin: of.origin,
            off: of.off + 1,
        },
    );
    let place = h.put(
        run,
        Rec::Cons {
            child: false,
            value: cell.value,
            rest: next,
        },
    );
    Built { place, steps: 1 }
}
