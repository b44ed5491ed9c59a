//! The pending work of real-time queues alone.
ghost use Rattle.heap_store.specs.Lawful.{is_any_rt_rotation};
ghost use Rattle.heap_store.specs.OneStage.{nothing_told};

use crate::rotation;
use heap_store::{Built, Cursor, Heap, Jobs, Prep, Run};
use lazy_rec::Ref;

/// Rotations of real-time queues.
#[derive(Clone, Copy)]
pub struct RtJobs;

impl Jobs for RtJobs {
    ghost does = { λ _. is_any_rt_rotation };

    ghost told = { λ _. nothing_told };

    fn prepare<H: Heap>(&self, h: &mut H, s: Ref, cursor: &mut Cursor) -> Prep {
        let rec = h.read(s);
        rotation::prepare(&rec, h, s, cursor)
    }

    fn build<H: Heap>(&self, h: &mut H, s: Ref, cursor: &Cursor, run: &mut Run) -> Built {
        let rec = h.read(s);
        rotation::build(&rec, h, s, cursor, run)
    }
}
