//! The steps of a pass, each on one word.
ghost use Rattle.std.specs.Prelude.{◌≡◌, ℕ, ◌+◌, ◌<◌, ◌≤◌, [], ◌∷◌, true, slice_index};
ghost use mathlib.Core.Option.{none};
ghost use Rattle.atomic_table.specs.Table.{step};
ghost use Rattle.lazy_rec.specs.Named.{is_pending};
ghost use Rattle.lazy_rec.specs.Packed.{words_of};
ghost use Rattle.lazy_rec.specs.States.{state_word};
ghost use Rattle.heap_store.specs.World.{recs, holds};
ghost use Rattle.heap_store.specs.Hand.{contains, holds_claim};
ghost use Rattle.heap_store.specs.Budget.{is_funded_at};
ghost use Rattle.heap_store.specs.View.{Fits};
ghost use Rattle.heap_store.specs.RowCalls.{MayStore};
ghost use Rattle.word_world.specs.Words.{word_count, record_word_at, state_word_at, row_word_at};
ghost use Rattle.word_store.specs.Rule.{seen_by};
ghost use Rattle.word_store.specs.Claims.{MaySpend};
ghost use Rattle.word_store.specs.Plays.{Looked, Noted, Drew, Filled, Published, Tried, Spent, DrewName, StoredWord};

use crate::pass::Pass;
use crate::rule::{Draw, DrawName, Fill, Look, Note, Publish, Spend, StoreWord, Try};
use lazy_rec::{Rec, Ref, SuspState};
use word_world::Layout;
use word_world::layout::{NAMES, PLACES};

impl Pass {
    ghost use Rattle.word_store.specs.Passes.{Stays, sight_of, view_of, slots_of};

    /// A load.
    #[inline(always)]
    pub(crate) fn look(&mut self, word: usize) -> u64
        requires { word < word_count self.old.layout.nodes self.old.layout.rows }
        ensures stays { Stays self.old self.new }
        ensures play { Looked (step (slots_of self.old) word 0 0 none) self.old.seat.me result self.new.seat.me }
    {
        self.table.shared.load::<Look>(&mut self.seat, word)
    }

    /// A load with which each row that is worked on takes note of a refusal.
    pub(crate) fn note(&mut self) -> u64
        ensures stays { Stays self.old self.new }
        ensures play { Noted (step (slots_of self.old) 0 0 0 none) self.old.seat.me result self.new.seat.me }
    {
        self.table.shared.load::<Note>(&mut self.seat, PLACES)
    }

    /// Adds `k` to the number of drawn places, and answers what it was.
    pub(crate) fn draw(&mut self, k: u64) -> u64
        requires some { 0 < k }
        requires room { slice_index (sight_of self.old).words 0 + k ≤ self.old.layout.nodes }
        requires places { k ≤ (sight_of self.old).hand.allowance }
        ensures stays { Stays self.old self.new }
        ensures play { Drew (step (slots_of self.old) 0 k 0 none) self.old.seat.me result self.new.seat.me }
    {
        self.table
            .shared
            .fetch_add::<Draw>(&mut self.seat, PLACES, k)
    }

    /// Stores a record word of a place in hand, one behind the first.
    #[inline(always)]
    pub(crate) fn fill(&mut self, place: Ref, j: usize, x: u64)
        requires held { contains (sight_of self.old).hand.reserved place.0 ≡ true }
        requires word { (0 < j) × (j < 4) }
        ensures stays { Stays self.old self.new }
        ensures play { Filled (step (slots_of self.old) (record_word_at place.0 j) x 0 none) self.old.seat.me x self.new.seat.me }
    {
        self.table
            .shared
            .store::<Fill>(&mut self.seat, Layout::record_word(place) + j, x);
    }

    /// Stores the first record word of a place in hand, whose others are filled.
    #[inline(always)]
    pub(crate) fn publish(&mut self, place: Ref, x: u64, _rec: Rec)
        requires held { contains (sight_of self.old).hand.reserved place.0 ≡ true }
        requires words { x ∷ slice_index (sight_of self.old).words (record_word_at place.0 1) ∷ slice_index (sight_of self.old).words (record_word_at place.0 2) ∷ slice_index (sight_of self.old).words (record_word_at place.0 3) ∷ [] ≡ words_of _rec }
        requires fits { Fits (view_of self.old) place.0 _rec }
        ensures stays { Stays self.old self.new }
        ensures play { Published (step (slots_of self.old) (record_word_at place.0 0) x 0 none) self.old.seat.me x self.new.seat.me }
    {
        self.table
            .shared
            .store::<Publish>(&mut self.seat, Layout::record_word(place), x);
    }

    /// Sets the lowest bit of a suspension's state word, and answers what the word was.
    #[inline(always)]
    pub(crate) fn attempt(&mut self, s: Ref) -> u64
        requires pending { holds (recs (seen_by (sight_of self.old))) s.0 is_pending ≡ true }
        requires funded { is_funded_at (seen_by (sight_of self.old)) s.0 ≡ true }
        ensures stays { Stays self.old self.new }
        ensures play { Tried (step (slots_of self.old) (state_word_at s.0) 1 0 none) self.old.seat.me result self.new.seat.me }
    {
        self.table
            .shared
            .fetch_or::<Try>(&mut self.seat, Layout::state_word(s), 1)
    }

    /// Stores the state of a suspension whose claim is in hand.
    pub(crate) fn spend(&mut self, s: Ref, state: SuspState)
        requires held { holds_claim (sight_of self.old).hand s.0 ≡ true }
        requires may { MaySpend (sight_of self.old) s.0 state }
        ensures stays { Stays self.old self.new }
        ensures play { Spent (step (slots_of self.old) (state_word_at s.0) (state_word state) 0 none) self.old.seat.me (state_word state) self.new.seat.me }
    {
        let word = state.to_word();
        self.table
            .shared
            .store::<Spend>(&mut self.seat, Layout::state_word(s), word);
    }

    /// Adds 1 to the number of drawn names, and answers what it was.
    pub(crate) fn draw_next(&mut self) -> u64
        requires { slice_index (sight_of self.old).words 1 < self.old.layout.rows }
        ensures stays { Stays self.old self.new }
        ensures play { DrewName (step (slots_of self.old) 1 1 0 none) self.old.seat.me result self.new.seat.me }
    {
        self.table
            .shared
            .fetch_add::<DrawName>(&mut self.seat, NAMES, 1)
    }

    /// Stores a word of a row whose name is in hand.
    pub(crate) fn store(&mut self, name: u32, word: u32, value: u64)
        requires low { 1 ≤ name }
        requires high { name ≤ self.old.layout.rows }
        requires may { MayStore (view_of self.old) name word value }
        ensures stays { Stays self.old self.new }
        ensures play { (i : ℕ) → name ≡ 1 + i → StoredWord (step (slots_of self.old) (row_word_at self.old.layout.nodes i word) value 0 none) self.old.seat.me value self.new.seat.me }
    {
        let at = self.layout.row_word(name, word);
        self.table
            .shared
            .store::<StoreWord>(&mut self.seat, at, value);
    }
}
