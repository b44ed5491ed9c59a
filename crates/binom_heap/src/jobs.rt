//! The pending work of heaps alone.
ghost use Rattle.binom_heap.specs.Work.{is_heap_work, heap_told};

use crate::work;
use heap_store::{Built, Cursor, Heap, Jobs, Prep, Run};
use lazy_rec::Ref;

/// Inserts and merges of lazy binomial heaps.
#[derive(Clone, Copy)]
pub struct HeapJobs;

impl Jobs for HeapJobs {
    ghost does = { λ _. is_heap_work };

    ghost told = { λ _. heap_told };

    fn prepare<H: Heap>(&self, h: &mut H, s: Ref, cursor: &mut Cursor) -> Prep {
        let rec = h.read(s);
        work::prepare(&rec, h, s, cursor)
    }

    fn build<H: Heap>(&self, h: &mut H, s: Ref, cursor: &Cursor, run: &mut Run) -> Built {
        let rec = h.read(s);
        work::build(&rec, h, s, cursor, run)
    }
}
