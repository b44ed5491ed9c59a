//! Where each word of a store stands.
ghost use Rattle.std.specs.Prelude.{◌≡◌, ℕ, ◌+◌, ◌<◌, ◌≤◌, true};
ghost use Rattle.lazy_rec.specs.declared.limits.TheConstants.{MOST_EVENTS, MOST_NODES};
ghost use Rattle.lazy_rec.specs.States.{state_in_range, state_word};
ghost use Rattle.word_world.specs.Words.{state_word_at, record_word_at, row_word_at, word_count, state_of_word};

use lazy_rec::{Ref, SuspState};
use std::alloc::{AllocError, Global};

/// The word of drawn places.
pub const PLACES: usize = 0;

/// The word of drawn names.
pub const NAMES: usize = 1;

/// How many words a row has.
pub const ROW_WORDS: usize = 8;

/// How large a store is: so many places beside the five fixed ones, and so many rows. It tells where each word stands: first
/// the numbers of drawn places and names, then five words for each place, then eight for each row.
#[derive(Clone, Copy, Debug, PartialEq, Eq)]
pub struct Layout {
    pub nodes: u32,
    pub rows: u32,
}

impl Layout {
    /// The word of a place's state.
    #[inline]
    pub fn state_word(place: Ref) -> usize
        ensures { result ≡ state_word_at place.0 }
    {
        2 + 5 * place.0 as usize
    }

    /// The first of a place's four record words.
    #[inline]
    pub fn record_word(place: Ref) -> usize
        ensures { result ≡ record_word_at place.0 0 }
    {
        3 + 5 * place.0 as usize
    }

    /// A word of the row of a name.
    #[inline]
    pub fn row_word(&self, name: u32, word: u32) -> usize
        requires low { 1 ≤ name }
        requires high { name ≤ self.now.rows }
        requires word { word < 8 }
        ensures at { (i : ℕ) → name ≡ 1 + i → result ≡ row_word_at self.now.nodes i word }
        ensures inside { result < word_count self.now.nodes self.now.rows }
    {
        2 + 5 * (self.nodes as usize + 5) + ROW_WORDS * (name as usize - 1) + word as usize
    }

    /// How many words there are.
    pub fn word_count(&self) -> usize
        ensures { result ≡ word_count self.now.nodes self.now.rows }
    {
        2 + 5 * (self.nodes as usize + 5) + ROW_WORDS * self.rows as usize
    }
}

/// The state that a word shows. The word is that of a state in range.
#[inline]
pub fn state_of(word: u64) -> SuspState
    requires range { state_in_range (state_of_word word) ≡ true }
    requires word { state_word (state_of_word word) ≡ word }
    ensures { result ≡ state_of_word word }
{
    match SuspState::of_word(word) {
        Some(state) => state,
        None => unreachable!(),
    }
}

impl Layout {
    ghost use Rattle.std.specs.Prelude.{IfOk};
    ghost use Rattle.word_world.specs.Words.{first_words};

    /// The words of a store in which nothing is drawn: the five fixed records stand. It fails only for want of memory.
    pub fn first_words(&self, alloc: Global) -> Result<Vec<u64>, AllocError>
        ensures { IfOk result (λ v. v.items ≡ first_words self.now.nodes self.now.rows) }
    {
        let mut words = Vec::from_elem(alloc, 0, self.word_count())?;
        words[3] = 1;
        words[8] = 3;
        words[13] = 9;
        words[18] = 12;
        words[23] = 14;
        Ok(words)
    }
}
