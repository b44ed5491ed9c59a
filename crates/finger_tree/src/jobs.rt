//! The pending work of finger trees alone.
ghost use Rattle.finger_tree.specs.Work.{is_finger_work, LevelTold};

use crate::work;
use heap_store::{Built, Cursor, Heap, Jobs, Prep, Run};
use lazy_rec::Ref;

/// Suspended pushes, tails and concatenations of finger trees.
#[derive(Clone, Copy)]
pub struct FingerJobs;

impl Jobs for FingerJobs {
    ghost does = { λ _. is_finger_work };

    ghost told = { λ _. LevelTold };

    fn prepare<H: Heap>(&self, h: &mut H, s: Ref, cursor: &mut Cursor) -> Prep {
        let rec = h.read(s);
        work::prepare(&rec, h, s, cursor)
    }

    fn build<H: Heap>(&self, h: &mut H, s: Ref, cursor: &Cursor, run: &mut Run) -> Built {
        let rec = h.read(s);
        work::build(&rec, h, s, cursor, run)
    }
}
