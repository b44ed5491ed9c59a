//! The pending work of streams alone.
ghost use Rattle.heap_store.specs.OneStage.{nothing_told};
ghost use Rattle.lazy_stream.specs.Stream.{is_stream_work};

use crate::work;
use heap_store::{Built, Cursor, Heap, Jobs, Prep, Run};
use lazy_rec::Ref;

/// Appends and reversals of streams.
#[derive(Clone, Copy)]
pub struct StreamJobs;

impl Jobs for StreamJobs {
    ghost does = { λ _. is_stream_work };

    ghost told = { λ _. nothing_told };

    fn prepare<H: Heap>(&self, h: &mut H, s: Ref, cursor: &mut Cursor) -> Prep {
        let rec = h.read(s);
        work::prepare(&rec, h, s, cursor)
    }

    fn build<H: Heap>(&self, h: &mut H, s: Ref, cursor: &Cursor, run: &mut Run) -> Built {
        let rec = h.read(s);
        work::build(&rec, h, s, cursor, run)
    }
}
