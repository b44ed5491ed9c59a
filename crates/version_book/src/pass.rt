//! A heap with what one caller needs to extend versions on it.
ghost use Rattle.std.specs.Prelude.{◌≡◌, [], IfOk};
ghost use Rattle.version_book.specs.Pass.{Pass};
ghost use Rattle.version_book.specs.RowSteps.{IsCaller};
ghost use Rattle.version_book.specs.Calls.{IsIdle};

use force_engine::Stack;
use heap_store::{Heap, PlainHeap, Rows};
use lazy_rec::NoMemory;
use std::alloc::Global;
use std::marker::Model;

/// A heap with its rows, the stack of its forces, and the number of the caller whose rows it stores. It is seen as the view of
/// its heap, what was seen and what is in hand, with that number. Between two calls no claim, no place and no row is in hand.
#[derive(Drop)]
pub struct BookPass<R: Rows> {
    pub(crate) heap: R,
    pub(crate) stack: Stack,
    pub(crate) caller: u32,
}

impl<R: Rows> Model for BookPass<R> {
    ghost use Rattle.std.specs.Prelude.{◌≡◌, []};
    ghost use Rattle.version_book.specs.Pass.{Pass};
    ghost use Rattle.version_book.specs.RowSteps.{IsCaller};
    ghost use Rattle.version_book.specs.Calls.{IsIdle};

    ghost Value = { Pass };

    ghost view = { λ p. record { view = R.view p.heap; caller = p.caller } };

    ghost invariant = { λ p. IsIdle (R.view p.heap) × IsCaller (R.view p.heap) p.caller × (p.stack ≡ []) };
}

impl<R: Rows> BookPass<R> {
    /// A pass over a heap that has nothing in hand but names of which no word is stored. It stores its rows with the caller's
    /// number: below 64, and the heap's own where it is bound to one. The stack holds no claim.
    pub fn new(heap: R, stack: Stack, caller: u32) -> BookPass<R>
        requires idle { IsIdle (R.view heap) }
        requires caller { IsCaller (R.view heap) caller }
        requires stack { stack ≡ [] }
        ensures { result ≡ record { view = R.view heap; caller = caller } }
    {
        BookPass {
            heap,
            stack,
            caller,
        }
    }

    /// The heap, with all that the calls did to it.
    pub fn into_heap(self) -> R
        ensures heap { R.view result ≡ self.view }
        ensures idle { IsIdle (R.view result) }
    {
        self.heap
    }
}
