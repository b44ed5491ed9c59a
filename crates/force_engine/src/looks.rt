//! A look at a place that forces nothing.
ghost use Rattle.std.specs.Prelude.{◌≡◌, true, Some};
ghost use Rattle.heap_store.specs.World.{recs, is_published};
ghost use Rattle.heap_store.specs.View.{Quiet};
ghost use Rattle.force_engine.specs.Shown.{shown_at};

use crate::shown::Peek;
use heap_store::Heap;
use lazy_rec::{Ref, SuspState};

/// What a place shows, by one load of its state. It waits for nothing and takes no memory. A value shows itself.
pub fn peek<H: Heap>(pass: &mut H, s: Ref) -> Peek
    requires { is_published (recs (H.view pass.old).seen) s.0 ≡ true }
    ensures quiet { Quiet (H.view pass.old) (H.view pass.new) }
    ensures shown { shown_at (H.view pass.new).seen s ≡ Some result }
{
    if !pass.read(s).is_pending() {
        return Peek::Value(s);
    }
    match pass.state(s) {
        SuspState::Unforced { .. } => Peek::Unforced,
        SuspState::Claimed { .. } => Peek::Claimed,
        SuspState::Done { place, .. } => Peek::Value(place),
    }
}

#[cfg(test)]
mod tests {
    use super::*;
    use heap_store::PlainHeap;
    use std::test::Fail;

    /// The end of streams, the first fixed record, is a value.
    #[test]
    fn a_value_shows_itself(rt: HostRuntime) -> Result<(), Fail> {
        let mut heap = PlainHeap::open(rt.alloc(), 0, 0)?;
        assert_eq!(rt; peek(&mut heap, Ref(0)), Peek::Value(Ref(0)));
        Ok(())
    }
}
