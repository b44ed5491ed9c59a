//! A store of words, from which each caller takes a pass.
ghost use Rattle.std.specs.Prelude.{◌≡◌, ℕ, ◌+◌, ◌-◌, ◌<◌, ◌≤◌, [], IfOk};
ghost use Rattle.std.specs.Arc.{arc_value};
ghost use Rattle.lazy_rec.specs.declared.limits.TheConstants.{MOST_CALLERS, MOST_EVENTS, MOST_NODES};
ghost use Rattle.heap_store.specs.Hand.{places_from};
ghost use Rattle.word_world.specs.Words.{word_count};
ghost use Rattle.word_store.specs.Opened.{opened_sight};

use crate::pass::{Pass, Seat, Words};
use crate::rule::Deal;
use crate::sight::Size;
use heap_store::Full;
use lazy_rec::NoMemory;
use std::alloc::Global;
use std::sync::Arc;
use word_world::Layout;

/// A store for several callers: one table of words. Each caller takes its pass once, before or while others work.
#[derive(Drop)]
pub struct Store {
    pub(crate) table: Arc<Words, Global>,
    pub(crate) seat: Seat,
    pub(crate) layout: Layout,
    callers: u32,
    next: u32,
    ghost tied: { seat.table_id ≡ (arc_value table).shared.table_id },
    ghost long: { seat.table_id.words ≡ word_count layout.nodes layout.rows },
    ghost small: { (layout.nodes ≤ MOST_NODES) × (layout.rows ≤ MOST_EVENTS) × (1 ≤ callers) × (callers ≤ MOST_CALLERS) × (next ≤ callers) },
    ghost seen: { seat.me.0 ≡ opened_sight layout.nodes layout.rows callers (places_from next (callers - next)) },
    ghost bare: { seat.me.1 ≡ [] },
    ghost keyed: { ((arc_value table).shared.key.nodes ≡ layout.nodes) × ((arc_value table).shared.key.rows ≡ layout.rows) × ((arc_value table).shared.key.callers ≡ callers) },
}

impl Store {
    ghost use Rattle.word_store.specs.Stores.{IsOpened, next_caller, caller_count, place_count, row_count, store_id, SameStore};
    ghost use Rattle.word_store.specs.Passes.{store_of, view_of};
    ghost use Rattle.word_store.specs.Opened.{opened_view};

    /// A store of so many places beside the five fixed ones, of so many rows, for so many callers. It fails only for want of
    /// memory.
    pub fn open(alloc: Global, nodes: u32, rows: u32, callers: u32) -> Result<Store, NoMemory>
        requires nodes { nodes ≤ MOST_NODES }
        requires rows { rows ≤ MOST_EVENTS }
        requires some { 1 ≤ callers }
        requires few { callers ≤ MOST_CALLERS }
        ensures { IfOk result (λ s. IsOpened s nodes rows callers) }
    {
        let layout = Layout { nodes, rows };
        let Ok(words) = layout.first_words(alloc) else {
            return Err(NoMemory)
        };
        let size = Size {
            nodes,
            rows,
            callers,
        };
        let Ok((table, seat)) = Words::of_words(alloc, words.as_slice(), &size) else {
            return Err(NoMemory)
        };
        let Ok(table) = Arc::new(alloc, table) else {
            return Err(NoMemory)
        };
        Ok(Store {
            table,
            seat,
            layout,
            callers,
            next: 0,
        })
    }

    /// The pass of the next caller, from number 0 on.
    pub fn pass(&mut self) -> Result<Pass, NoMemory>
        requires left { next_caller self.old < caller_count self.old }
        ensures ok { IfOk result (λ p. view_of p ≡ opened_view (place_count self.old) (row_count self.old) (caller_count self.old) (next_caller self.old)) }
        ensures of_it { IfOk result (λ p. store_of p ≡ store_id self.old) }
        ensures store { SameStore self.old self.new }
        ensures next { IfOk result (λ p. next_caller self.new ≡ next_caller self.old + 1) }
    {
        let Ok(table) = Arc::try_clone(&self.table) else {
            return Err(NoMemory)
        };
        let seat = self.table.shared.split_seat::<Deal>(&mut self.seat);
        let caller = self.next;
        self.next += 1;
        Ok(Pass {
            table,
            seat,
            layout: self.layout,
            caller,
            drawn: 0,
            named: 0,
            refused: 0,
            last: Full {
                drawn: 0,
                wanted: 0,
            },
        })
    }
}

#[cfg(test)]
mod tests;
