//! A script run by the only caller of a store.
ghost use Rattle.std.specs.Prelude.{◌≡◌, length, IfSome};
ghost use Rattle.lazy_rec.specs.History.{IsScript};
ghost use Rattle.kind_table.specs.Kinds.{AreBuilt};
ghost use Rattle.version_book.specs.Solo.{RowsAreRun};
ghost use Rattle.word_store.specs.Stores.{store_id, next_caller, caller_count, place_count, row_count};
ghost use Rattle.word_store.specs.Closing.{IsLast};
ghost use Rattle.store_runs.specs.Alone.{IsRunAlone};

use force_engine::Stack;
use lazy_rec::Event;
use std::alloc::Global;
use version_book::{BookPass, run_events};
use word_store::{ClosedStore, NamedPass, Naming, Store};

/// Runs the events in order over a store that was opened for one caller, and closes it. Its last world is the book of the events: it keeps
/// the bound, and `drawn` and `names` of the closed store tell the published places and the events. There is no answer for want of memory.
pub fn run_alone<J: Naming>(
    alloc: Global,
    mut store: Store,
    events: &[Event],
) -> Option<ClosedStore>
    requires name { store_id store ≡ J.store }
    requires first { next_caller store ≡ 0 }
    requires one { caller_count store ≡ 1 }
    requires rows { row_count store ≡ length events.now }
    requires script { IsScript events.now }
    requires built { AreBuilt events.now }
    ensures last { IfSome result IsLast }
    ensures rows { IfSome result (λ l. length l.world.rows ≡ length events.now) }
    ensures told { IfSome result (IsRunAlone (place_count store) events.now) }
    ensures run { IfSome result (λ l. RowsAreRun (place_count store) l.world events.now (length events.now)) }
{
    let Ok(pass) = store.pass() else {
        return None;
    };
    let Ok(stack) = Stack::open(alloc) else {
        return None;
    };
    let mut pass = BookPass::new(NamedPass::<J>::new(pass), stack, 0);
    let _charged = run_events(&mut pass, events);
    let mut passes = Vec::new(alloc);
    let Ok(()) = passes.push(pass.into_heap()) else {
        return None;
    };
    match store.close(alloc, passes) {
        Ok(closed) => Some(closed),
        Err(_) => None,
    }
}
