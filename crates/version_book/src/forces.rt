//! How an event forces what it needs.
ghost use Rattle.std.specs.Prelude.{◌≡◌, Bool, true, false, ◌&&◌, [], IfOk, IfErr, OnOk};
ghost use Rattle.heap_store.specs.View.{About};
ghost use Rattle.force_engine.specs.Forced.{IsForcible};
ghost use Rattle.kind_table.specs.Kinds.{is_any_work};
ghost use Rattle.version_book.specs.Works.{ForcedOn, Stopped, is_empty};

use force_engine::{GiveUp, Stack, force_solo};
use heap_store::Rows;
use kind_table::AllKinds;
use lazy_rec::Ref;

/// How an event forces what it needs. A heap that several threads share wants another way than one that is worked on alone.
pub trait Forces {
    /// Whether it serves a heap, by what never changes of that.
    ghost serves: { Self → About → Bool };

    /// Forces a suspension of the kinds that are built, which is paid for, while no claim is in hand. Every claim that it wins is
    /// done or given back.
    fn force<R: Rows>(&mut self, heap: &mut R, s: Ref) -> Result<Ref, GiveUp>
        requires serves { serves self.old (R.view heap.old).about ≡ true }
        requires there { IsForcible is_any_work (R.view heap.old).seen s.0 }
        requires idle { (R.view heap.old).hand.claims ≡ [] }
        ensures ok { IfOk result (λ place. ForcedOn (R.view heap.old) (R.view heap.new) s.0 place.0) }
        ensures err { IfErr result (λ cause. Stopped (R.view heap.old) (R.view heap.new) 0 cause) }
        ensures same { (about : About) → serves self.new about ≡ serves self.old about };
}

/// The stack of a force on a heap that no other thread works on.
impl Forces for Stack {
    ghost serves = { λ stack about. about.alone && is_empty stack };

    #[inline(never)]
    fn force<R: Rows>(&mut self, heap: &mut R, s: Ref) -> Result<Ref, GiveUp> {
        force_solo(heap, &AllKinds, self, s)
    }
}
