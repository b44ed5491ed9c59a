//! Small calls, the same on both stores.
ghost use Rattle.std.specs.Prelude.{◌≡◌, ◌+◌, ◌-◌, ◌<◌, ◌≤◌, true, [], None, IfSome, IfNone};
ghost use Rattle.heap_store.specs.Hand.{IsInHand};
ghost use Rattle.version_book.specs.RowSteps.{IsCaller};
ghost use Rattle.version_book.specs.Calls.{IsIdle};

use force_engine::Stack;
use heap_store::{Full, Heap, NamesFull, PlainHeap, Rows, Run};
use lazy_rec::{Item, Kind, Rec};
use std::alloc::Global;
use std::test::Fail;
use version_book::{BookPass, Look, Refuse};
use word_store::Store;

/// The first word of the row of a `new stream` that caller 0 begins.
const NEW_STREAM: u64 = 32 * 256 + 1;

/// Begins an empty stream under the next name, which may take one place.
fn begun_stream<R: Rows>(heap: &mut R) -> Option<u32>
    requires caller { IsCaller (R.view heap.old) 0 }
    requires free { (R.view heap.old).about.plan ≡ None }
    ensures about { (R.view heap.new).about ≡ (R.view heap.old).about }
    ensures place { IfSome result (λ _. (R.view heap.new).hand.allowance ≡ (R.view heap.old).hand.allowance + 1) }
{
    let Ok(name) = heap.draw_name() else {
        return None;
    };
    heap.store_row(name, 0, NEW_STREAM);
    Some(name)
}

/// Fills a run with leaves.
fn fill<H: Heap>(heap: &mut H, mut run: Run)
    requires { IsInHand (H.view heap.old).hand run }
    ensures { (H.view heap.new).hand.allowance ≡ (H.view heap.old).hand.allowance }
{
    while run.left() > 0 {
        let _place = heap.put(&mut run, Rec::Leaf { item: Item(5) });
    }
    run.finish();
}

/// Reserves and fills so many places; the refusal where there is no room.
fn refusal<H: Heap>(heap: &mut H, k: u32) -> Option<Full>
    requires { k ≤ (H.view heap.old).hand.allowance }
    ensures { (H.view heap.old).hand.allowance ≤ (H.view heap.new).hand.allowance + k }
{
    match heap.reserve(k) {
        Ok(run) => {
            fill(heap, run);
            None
        }
        Err(full) => Some(full),
    }
}

/// Three rows are worked on, which may take three places in all.
fn refusals<R: Rows>(heap: &mut R) -> Option<[Option<Full>; 3]>
    requires caller { IsCaller (R.view heap.old) 0 }
    requires free { (R.view heap.old).about.plan ≡ None }
{
    let Some(_) = begun_stream(heap) else {
        return None;
    };
    let Some(_) = begun_stream(heap) else {
        return None;
    };
    let Some(_) = begun_stream(heap) else {
        return None;
    };
    let two = refusal(heap, 2);
    let one = refusal(heap, 1);
    let none = refusal(heap, 0);
    Some([two, one, none])
}

#[test]
fn two_places(rt: HostRuntime) -> Result<(), Fail> {
    let full = Full {
        drawn: 2,
        wanted: 1,
    };
    let expected = Some([None, Some(full), None]);
    let mut plain = PlainHeap::open(rt.alloc(), 2, 3)?;
    assert_eq!(rt; refusals(&mut plain), expected);
    let mut store = Store::open(rt.alloc(), 2, 3, 1)?;
    let mut pass = store.pass()?;
    assert_eq!(rt; refusals(&mut pass), expected);
    Ok(())
}

/// What the second of two names shows before its event begins, and what a third draw answers.
fn two_names<R: Rows + Drop>(heap: R, stack: Stack) -> Result<(Look, Option<Refuse>), Refuse>
    requires idle { IsIdle (R.view heap) }
    requires caller { IsCaller (R.view heap) 0 }
    requires free { (R.view heap).about.plan ≡ None }
    requires rows { 2 ≤ (R.view heap).about.rows }
    requires stack { stack ≡ [] }
{
    let mut pass = BookPass::new(heap, stack, 0);
    let ticket = pass.draw()?;
    let _first = pass.begin_new(ticket, Kind::Stream);
    let ticket = pass.draw()?;
    let look = pass.lookup(2);
    let _second = pass.begin_new(ticket, Kind::Stream);
    match pass.draw() {
        Ok(ticket) => {
            let _third = pass.begin_new(ticket, Kind::Stream);
            Ok((look, None))
        }
        Err(refuse) => Ok((look, Some(refuse))),
    }
}

#[test]
fn two_rows(rt: HostRuntime) -> Result<(), Fail> {
    let expected = (
        Look::NotYet,
        Some(Refuse::NamesFull(NamesFull { drawn: 2 })),
    );
    let plain = PlainHeap::open(rt.alloc(), 10, 2)?;
    assert_eq!(rt; two_names(plain, Stack::open(rt.alloc())?)?, expected);
    let mut store = Store::open(rt.alloc(), 10, 2, 1)?;
    assert_eq!(rt;
        two_names(store.pass()?, Stack::open(rt.alloc())?)?,
        expected
    );
    Ok(())
}
