//! The states of one suspension, by the same calls on both stores.
ghost use Rattle.std.specs.Prelude.{◌≡◌, ◌≤◌, true, [], None, IfOk};
ghost use Rattle.heap_store.specs.Budget.{is_funded_at};
ghost use Rattle.heap_store.specs.Jobs.{IsWork};
ghost use Rattle.kind_table.specs.Kinds.{is_any_work};
ghost use Rattle.version_book.specs.RowSteps.{IsCaller};
ghost use Rattle.version_book.specs.Calls.{IsIdle};

use super::longer;
use crate::tries::{Share, Turn, need_of_head, take_turn};
use force_engine::{Peek, Stack, peek};
use heap_store::{Claim, Claims, Heap, PlainHeap, Rows};
use kind_table::AllKinds;
use lazy_rec::{Kind, Ref, SuspState};
use std::alloc::Global;
use std::test::Fail;
use version_book::{BookPass, Refuse};
use word_store::Store;

/// What a suspension shows and answers: before it is claimed, to a second claim, after the claim is given back, when it is completed,
/// to a claim after that, and to a look.
#[derive(Clone, Copy, Debug, PartialEq, Eq)]
struct Shown {
    unforced: SuspState,
    second: Claim,
    given_back: SuspState,
    completed: Turn,
    third: Claim,
    look: Peek,
}

fn suspension_shows<R: Rows>(heap: &mut R, s: Ref) -> Option<Shown>
    requires idle { (R.view heap.old).hand.claims ≡ [] }
    requires work { IsWork is_any_work (R.view heap.old).seen s.0 }
    requires funded { is_funded_at (R.view heap.old).seen s.0 ≡ true }
{
    let unforced = heap.state(s);
    let Claim::Won = heap.claim(s) else {
        return None;
    };
    let Claim::Busy = heap.claim(s) else {
        return None;
    };
    heap.give_up(s);
    let given_back = heap.state(s);
    let completed = take_turn(heap, &AllKinds, s, &mut Share::new());
    let third = heap.claim(s);
    let look = peek(heap, s);
    Some(Shown {
        unforced,
        second: Claim::Busy,
        given_back,
        completed,
        third,
        look,
    })
}

/// A queue of one item, which owes a rotation.
fn queue_of_one<R: Rows + Drop>(heap: R, stack: Stack) -> Result<R, Refuse>
    requires idle { IsIdle (R.view heap) }
    requires caller { IsCaller (R.view heap) 0 }
    requires free { (R.view heap).about.plan ≡ None }
    requires stack { stack ≡ [] }
    ensures idle { IfOk result (λ h. (R.view h).hand.claims ≡ []) }
    ensures about { IfOk result (λ h. (R.view h).about ≡ (R.view heap).about) }
{
    let mut pass = BookPass::new(heap, stack, 0);
    let ticket = pass.draw()?;
    let empty = pass.begin_new(ticket, Kind::Bankq)?.version;
    let _one = longer(&mut pass, empty)?;
    Ok(pass.into_heap())
}

fn shown_on<R: Rows + Drop>(heap: R, alloc: Global) -> Result<Shown, Fail>
    requires idle { IsIdle (R.view heap) }
    requires caller { IsCaller (R.view heap) 0 }
    requires free { (R.view heap).about.plan ≡ None }
    requires rows { 2 ≤ (R.view heap).about.rows }
{
    let mut heap = queue_of_one(heap, Stack::open(alloc)?)?;
    let s = need_of_head(&mut heap, 2).ok_or("a rotation")?;
    Ok(suspension_shows(&mut heap, s).ok_or("a claim")?)
}

#[test]
fn states_of_one_suspension(rt: HostRuntime) -> Result<(), Fail> {
    let expected = Shown {
        unforced: SuspState::Unforced { given_up: 0 },
        second: Claim::Busy,
        given_back: SuspState::Unforced { given_up: 1 },
        completed: Turn::Done(Ref(9)),
        third: Claim::Done(Ref(9)),
        look: Peek::Value(Ref(9)),
    };
    let plain = PlainHeap::open(rt.alloc(), 20, 2)?;
    assert_eq!(rt; shown_on(plain, rt.alloc())?, expected);
    let mut store = Store::open(rt.alloc(), 20, 2, 1)?;
    assert_eq!(rt; shown_on(store.pass()?, rt.alloc())?, expected);
    Ok(())
}
