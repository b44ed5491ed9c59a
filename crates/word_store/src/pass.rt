//! A pass, through which one caller uses the store.
ghost use Rattle.std.specs.Prelude.{◌≡◌, ℕ, ◌≤◌, [], ◌∷◌};
ghost use Rattle.std.specs.Arc.{arc_value};
ghost use Rattle.heap_store.specs.View.{IsLawfulView};
ghost use Rattle.heap_store.specs.Props.{IsLawfulView-prop};
ghost use Rattle.word_world.specs.Words.{word_count};
ghost use Rattle.word_store.specs.Views.{view_with};
ghost use Rattle.word_store.specs.Sound.{IsSound};
ghost use Rattle.word_store.specs.Props.{IsSound-prop};

use crate::rule::Order;
use crate::sight::{Sight, Size};
use atomic_table::Table;
use heap_store::Full;
use std::alloc::Global;
use std::sync::Arc;
use word_world::Layout;

/// The table of a store.
pub type Words = Table<u8, Sight, Size, Order, Global>;

/// What a pass steps with.
pub type Seat = atomic_table::Seat<u8, Sight>;

/// A pass, through which one caller uses the store. Two passes may be used in two threads at once. It is alone exactly where the
/// store was opened for one caller.
#[derive(Drop)]
pub struct Pass {
    pub(crate) table: Arc<Words, Global>,
    pub(crate) seat: Seat,
    pub(crate) layout: Layout,
    pub(crate) caller: u32,
    // The numbers of drawn places and names, as they were read last.
    pub(crate) drawn: u64,
    pub(crate) named: u64,
    // How many reserves were refused, and the numbers of the last one.
    pub(crate) refused: u64,
    pub(crate) last: Full,
    ghost tied: { seat.table_id ≡ (arc_value table).shared.table_id },
    ghost sized: { (seat.me.0.nodes ≡ layout.nodes) × (seat.me.0.rows ≡ layout.rows) },
    ghost long: { seat.table_id.words ≡ word_count layout.nodes layout.rows },
    ghost number: { seat.me.0.numbers ≡ caller ∷ [] },
    ghost bare: { seat.me.1 ≡ [] },
    ghost sound: { IsSound seat.me.0 } by { IsSound-prop seat.me.0 },
    ghost law: { IsLawfulView (view_with seat.me.0 caller refused last drawn named) } by { IsLawfulView-prop (view_with seat.me.0 caller refused last drawn named) },
}

impl Pass {
    ghost use Rattle.std.specs.Prelude.{◌≡◌, Some};
    ghost use Rattle.word_store.specs.Passes.{view_of};

    /// The number of the caller, from 0 on.
    pub fn caller(&self) -> u32
        ensures { (view_of self.now).about.caller ≡ Some result }
    {
        self.caller
    }

    /// How many rows the store has.
    pub fn rows(&self) -> u32
        ensures { result ≡ (view_of self.now).about.rows }
    {
        self.layout.rows
    }
}
