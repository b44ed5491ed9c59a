ghost use Rattle.std.specs.Prelude.{◌≡◌, ◌≤◌};
ghost use Rattle.heap_store.specs.Hand.{IsInHand};
ghost use Rattle.heap_store.specs.Opened.{view_of};

use super::*;
use lazy_rec::Item;
use std::test::Fail;

/// The first word of the row of a `new bankq` that caller 0 begins.
const NEW_BANKQ: u64 = 33 * 256 + 1;

/// Fills a run with leaves.
fn fill(heap: &mut PlainHeap, mut run: Run)
    requires { IsInHand (view_of heap.old).hand run }
{
    while run.left() > 0 {
        let _place = heap.put(&mut run, Rec::Leaf { item: Item(5) });
    }
    run.finish();
}

/// Reserves and fills so many places; the refusal where there was no room.
fn refusal(heap: &mut PlainHeap, k: u32) -> Option<Full>
    requires { k ≤ (view_of heap.old).hand.allowance }
{
    match heap.reserve(k) {
        Ok(run) => {
            fill(heap, run);
            None
        }
        Err(full) => Some(full),
    }
}

/// A store of no place refuses the place of an empty queue.
#[test]
fn full_store(rt: HostRuntime) -> Result<(), Fail> {
    let mut heap = PlainHeap::open(rt.alloc(), 0, 1)?;
    assert_eq!(rt; heap.load_row(1, 0), 0);
    let Ok(name) = heap.draw_name() else {
        return wrong("a name");
    };
    heap.store_row(name, 0, NEW_BANKQ);
    let full = Full {
        drawn: 0,
        wanted: 1,
    };
    assert_eq!(rt; refusal(&mut heap, 1), Some(full));
    assert_eq!(rt; heap.draw_name(), Err(NamesFull { drawn: 1 }));
    assert_eq!(rt; heap.load_counts(), (1, 0));
    Ok(())
}

/// A store of one place gives it.
#[test]
fn small_store(rt: HostRuntime) -> Result<(), Fail> {
    let mut heap = PlainHeap::open(rt.alloc(), 1, 1)?;
    let Ok(name) = heap.draw_name() else {
        return wrong("a name");
    };
    heap.store_row(name, 0, NEW_BANKQ);
    assert_eq!(rt; refusal(&mut heap, 1), None);
    assert_eq!(rt; heap.load_counts(), (1, 1));
    Ok(())
}

/// A test that has failed.
fn wrong(what: &'static str) -> Result<(), Fail> {
    let none: Option<()> = None;
    none.ok_or(what)?;
    Ok(())
}
