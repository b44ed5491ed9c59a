//! The pending work of all kinds that are built, as one way to do a job.
ghost use Rattle.kind_table.specs.Kinds.{is_any_work, told_by};

use bank_queue::BankJobs;
use binom_heap::HeapJobs;
use finger_tree::FingerJobs;
use heap_store::{Built, Cursor, Heap, Jobs, Prep, Run};
use lazy_rec::{Rec, Ref};
use lazy_stream::StreamJobs;
use rt_queue::RtJobs;

/// The pending work of all kinds that are built, told apart by its record. Only the variant is looked at here, and the kind reads
/// the record again: what is handed on would be decoded for every kind ahead of the jump.
#[derive(Clone, Copy)]
pub struct AllKinds;

impl Jobs for AllKinds {
    ghost does = { λ _. is_any_work };

    ghost told = { λ _. told_by };

    fn prepare<H: Heap>(&self, h: &mut H, s: Ref, cursor: &mut Cursor) -> Prep {
        match h.read(s) {
            Rec::Append { .. } | Rec::Reverse { .. } => StreamJobs.prepare(h, s, cursor),
            Rec::BankRot { .. } => BankJobs.prepare(h, s, cursor),
            Rec::RtRot { .. } => RtJobs.prepare(h, s, cursor),
            Rec::HeapInsert { .. } | Rec::HeapMerge { .. } => HeapJobs.prepare(h, s, cursor),
            Rec::PushL { .. }
            | Rec::PushR { .. }
            | Rec::DeepL { .. }
            | Rec::DeepR { .. }
            | Rec::Concat { .. } => FingerJobs.prepare(h, s, cursor),
            _ => unreachable!(),
        }
    }

    fn build<H: Heap>(&self, h: &mut H, s: Ref, cursor: &Cursor, run: &mut Run) -> Built {
        match h.read(s) {
            Rec::Append { .. } | Rec::Reverse { .. } => StreamJobs.build(h, s, cursor, run),
            Rec::BankRot { .. } => BankJobs.build(h, s, cursor, run),
            Rec::RtRot { .. } => RtJobs.build(h, s, cursor, run),
            Rec::HeapInsert { .. } | Rec::HeapMerge { .. } => HeapJobs.build(h, s, cursor, run),
            Rec::PushL { .. }
            | Rec::PushR { .. }
            | Rec::DeepL { .. }
            | Rec::DeepR { .. }
            | Rec::Concat { .. } => FingerJobs.build(h, s, cursor, run),
            _ => unreachable!(),
        }
    }
}
