//! Closing a store: one seat takes all others in, and the last words are handed out.
ghost use Rattle.std.specs.Prelude.{◌≡◌, ℕ, ◌<◌, Some, None, [], length, slice_index, slice_get, map, IfOk, IfErr};
ghost use Rattle.std.specs.Vec.{vec_len};
ghost use Rattle.std.specs.Arc.{arc_value};
ghost use Rattle.word_world.specs.Words.{word_count};
ghost use Rattle.word_store.specs.declared.sight.Sight.{Sight};
ghost use Rattle.word_store.specs.declared.pass.Pass.{Pass};
ghost use Rattle.word_store.specs.Passes.{sight_of, store_of};
ghost use Rattle.word_store.specs.Plays.{LookedLast};
ghost use Rattle.word_store.specs.Joined.{MayClose, IsLastSeat, joined, gathered};

use crate::closed::ClosedStore;
use crate::named::{NamedPass, Naming};
use crate::pass::{Pass, Seat, Words};
use crate::rule::{Gather, LastLook, Look};
use crate::store::Store;
use std::alloc::Global;
use std::sync::Arc;
use word_world::Layout;
use word_world::layout::PLACES;

/// The seat that takes the others in.
#[derive(Drop)]
pub(crate) struct LastSeat {
    table: Arc<Words, Global>,
    seat: Seat,
    layout: Layout,
    ghost tied: { seat.table_id ≡ (arc_value table).shared.table_id },
    ghost long: { seat.table_id.words ≡ word_count layout.nodes layout.rows },
    ghost bare: { seat.me.1 ≡ [] },
    ghost keyed: { ((arc_value table).shared.key.nodes ≡ layout.nodes) × ((arc_value table).shared.key.rows ≡ layout.rows) },
    ghost sized: { (seat.me.0.nodes ≡ layout.nodes) × (seat.me.0.rows ≡ layout.rows) × (seat.me.0.callers ≡ (arc_value table).shared.key.callers) × (seat.me.0.plan ≡ None) },
    ghost wide: { length seat.me.0.words ≡ word_count layout.nodes layout.rows },
}

impl LastSeat {
    /// The seat of a pass that has no claim, no place and no begun row in hand.
    fn take_in(&mut self, pass: Pass)
        requires store { store_of pass ≡ self.old.seat.table_id }
        requires idle { MayClose self.old.seat.me.0.hand }
        requires closable { MayClose (sight_of pass).hand }
        ensures store { self.new.seat.table_id ≡ self.old.seat.table_id }
        ensures layout { self.new.layout ≡ self.old.layout }
        ensures joined { self.new.seat.me.0 ≡ joined self.old.seat.me.0 (sight_of pass) }
    {
        let Pass { seat, .. } = pass;
        self.table.shared.join_seat::<Gather>(&mut self.seat, seat);
    }

    /// The seats of all these passes.
    fn take_in_all<J: Naming>(&mut self, mut passes: Vec<NamedPass<J>>)
        requires store { self.old.seat.table_id ≡ J.store }
        requires idle { MayClose self.old.seat.me.0.hand }
        requires closable { (j : ℕ) (p : Pass) → slice_get (map (λ q. q.pass) passes.items) j ≡ Some p → MayClose (sight_of p).hand }
        ensures store { self.new.seat.table_id ≡ self.old.seat.table_id }
        ensures layout { self.new.layout ≡ self.old.layout }
        ensures gathered { self.new.seat.me.0 ≡ gathered self.old.seat.me.0 (map sight_of (map (λ q. q.pass) passes.items)) }
    {
        while let Some(named) = passes.pop() {
            self.take_in(named.pass);
        }
    }

    /// Sees the words as they are. From here on nothing changes them, where it is the seat of all callers.
    fn look_last(&mut self)
        requires some { 0 < length self.old.seat.me.0.numbers }
        ensures layout { self.new.layout ≡ self.old.layout }
        ensures play { LookedLast self.old.seat.me self.new.seat.me }
    {
        self.table.shared.load::<LastLook>(&mut self.seat, PLACES);
    }

    /// A word.
    fn word(&mut self, i: usize) -> u64
        requires inside { i < word_count self.old.layout.nodes self.old.layout.rows }
        requires last { IsLastSeat self.old.seat.me.0 }
        ensures layout { self.new.layout ≡ self.old.layout }
        ensures last { IsLastSeat self.new.seat.me.0 }
        ensures same { self.new.seat.me.0.words ≡ self.old.seat.me.0.words }
        ensures word { result ≡ slice_index self.old.seat.me.0.words i }
    {
        self.table.shared.load::<Look>(&mut self.seat, i)
    }

    /// Copies all words.
    fn copy(&mut self, words: &mut Vec<u64>)
        requires long { length words.old.items ≡ word_count self.old.layout.nodes self.old.layout.rows }
        requires last { IsLastSeat self.old.seat.me.0 }
        ensures { words.new.items ≡ self.old.seat.me.0.words }
    {
        let mut i = 0;
        while i < words.len() {
            words[i] = self.word(i);
            i += 1;
        }
    }
}

/// There was no memory to close the store. It comes back, with all its passes.
#[derive(Drop)]
pub struct NotClosed<J: Naming> {
    pub store: Store,
    pub passes: Vec<NamedPass<J>>,
}

impl Store {
    ghost use Rattle.word_store.specs.Stores.{store_id, next_caller, caller_count, place_count, row_count};
    ghost use Rattle.word_store.specs.Closing.{IsClosing};

    /// The last words of the store, which is given with all passes that were taken from it. No pass may have a claim, a reserved
    /// place or a begun row in hand. It fails only for want of memory, and then hands all back.
    pub fn close<J: Naming>(
        self,
        alloc: Global,
        passes: Vec<NamedPass<J>>,
    ) -> Result<ClosedStore, NotClosed<J>>
        requires store { store_id self ≡ J.store }
        requires all { vec_len passes ≡ next_caller self }
        requires closable { (j : ℕ) (p : Pass) → slice_get (map (λ q. q.pass) passes.items) j ≡ Some p → MayClose (sight_of p).hand }
        ensures ok { IfOk result (λ closed. IsClosing (place_count self) (row_count self) (caller_count self) (map (λ q. q.pass) passes.items) closed) }
        ensures err { IfErr result (λ back. (back.store ≡ self) × (back.passes ≡ passes)) }
    {
        let Ok(mut words) = Vec::from_elem(alloc, 0, self.layout.word_count()) else {
            return Err(NotClosed {
                store: self,
                passes,
            });
        };
        let Store {
            table,
            seat,
            layout,
            ..
        } = self;
        let mut last = LastSeat {
            table,
            seat,
            layout,
        };
        last.take_in_all(passes);
        last.look_last();
        last.copy(&mut words);
        Ok(ClosedStore::of(layout, words))
    }
}
