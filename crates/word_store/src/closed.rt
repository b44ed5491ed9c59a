//! A closed store.
ghost use Rattle.std.specs.Prelude.{◌≡◌, ◌<◌, ◌≤◌, None, length};
ghost use Rattle.heap_store.specs.World.{node_at};
ghost use Rattle.heap_store.specs.Rows.{word_at};
ghost use Rattle.lazy_rec.specs.declared.limits.TheConstants.{MOST_EVENTS, MOST_NODES};
ghost use Rattle.word_world.specs.Words.{word_count};
ghost use Rattle.word_world.specs.LawfulWords.{IsLawfulWords};
ghost use Rattle.word_store.specs.Closing.{last_of};

use heap_store::Node;
use lazy_rec::{Ref, decode};
use std::marker::Model;
use word_world::layout::{NAMES, PLACES};
use word_world::{Layout, state_of};

/// The last words of a store that was closed. It is seen as the numbers of drawn places and names, and the world.
#[derive(Drop)]
pub struct ClosedStore {
    layout: Layout,
    words: Vec<u64>,
}

impl Model for ClosedStore {
    ghost use Rattle.std.specs.Prelude.{◌≡◌, ◌≤◌, None, length};
    ghost use Rattle.lazy_rec.specs.declared.limits.TheConstants.{MOST_EVENTS, MOST_NODES};
    ghost use Rattle.word_world.specs.Words.{word_count};
    ghost use Rattle.word_world.specs.LawfulWords.{IsLawfulWords};
    ghost use Rattle.word_store.specs.Closing.{Last, last_of};

    ghost Value = { Last };

    ghost view = { λ c. last_of c.layout.nodes c.layout.rows c.words.items };

    ghost invariant = { λ c. (length c.words.items ≡ word_count c.layout.nodes c.layout.rows) × (c.layout.nodes ≤ MOST_NODES) × (c.layout.rows ≤ MOST_EVENTS) × IsLawfulWords c.layout.nodes c.layout.rows None c.words.items };
}

impl ClosedStore {
    /// The store with these words.
    pub(crate) fn of(layout: Layout, words: Vec<u64>) -> ClosedStore
        requires long { length words.items ≡ word_count layout.nodes layout.rows }
        requires small { (layout.nodes ≤ MOST_NODES) × (layout.rows ≤ MOST_EVENTS) }
        requires lawful { IsLawfulWords layout.nodes layout.rows None words.items }
        ensures { result ≡ last_of layout.nodes layout.rows words.items }
    {
        ClosedStore { layout, words }
    }

    /// How many places were drawn, with those that were added in vain.
    pub fn drawn(&self) -> u64
        ensures { result ≡ self.now.places }
    {
        self.words[PLACES]
    }

    /// How many names were drawn, with those that were drawn in vain.
    pub fn names(&self) -> u64
        ensures { result ≡ self.now.names }
    {
        self.words[NAMES]
    }

    /// The record and the state of a place, where it is published. A value's state is unforced, with no attempt given back.
    pub fn node(&self, place: Ref) -> Option<Node>
        ensures { result ≡ node_at self.now.world place.0 }
    {
        if place.0 as usize >= self.layout.nodes as usize + 5 {
            return None;
        }
        let at = Layout::record_word(place);
        if self.words[at] == 0 {
            return None;
        }
        let rec = decode([
            self.words[at],
            self.words[at + 1],
            self.words[at + 2],
            self.words[at + 3],
        ]);
        let state = state_of(self.words[Layout::state_word(place)]);
        Some(Node { rec, state })
    }

    /// A word of the row of a name.
    pub fn row_word(&self, name: u32, word: u32) -> u64
        requires low { 1 ≤ name }
        requires high { name ≤ length self.now.world.rows }
        requires word { word < 8 }
        ensures { result ≡ word_at self.now.world name word }
    {
        self.words[self.layout.row_word(name, word)]
    }
}
