//! A pass's names and rows.
ghost use Rattle.std.specs.Prelude.{◌≡◌};

use crate::pass::Pass;
use heap_store::{NamesFull, Rows};
use word_world::layout::{NAMES, PLACES};

impl Rows for Pass {
    ghost use Rattle.std.specs.Prelude.{◌≡◌, ◌<◌, ◌≤◌, IfErr, IfOk};
    ghost use Rattle.heap_store.specs.Rows.{word_at};
    ghost use Rattle.heap_store.specs.View.{Quiet};
    ghost use Rattle.heap_store.specs.RowCalls.{NameDrawn, NoName, MayStore, Stored};
    ghost use Rattle.word_store.specs.Passes.{store_of, view_of};

    fn draw_name(&mut self) -> Result<u32, NamesFull>
        ensures ok { IfOk result (λ name. NameDrawn (view_of self.old) (view_of self.new) name) }
        ensures err { IfErr result (λ none. NoName (view_of self.old) (view_of self.new) none) }
        ensures store { store_of self.new ≡ store_of self.old }
    {
        let drawn = self.look(NAMES);
        if drawn >= self.layout.rows as u64 {
            self.named = drawn;
            return Err(NamesFull { drawn });
        }
        let found = self.draw_next();
        if found >= self.layout.rows as u64 {
            self.named = found;
            return Err(NamesFull { drawn: found });
        }
        Ok(found as u32 + 1)
    }

    fn store_row(&mut self, name: u32, word: u32, value: u64)
        requires { MayStore (view_of self.old) name word value }
        ensures stored { Stored (view_of self.old) (view_of self.new) name word value }
        ensures store { store_of self.new ≡ store_of self.old }
    {
        self.store(name, word, value);
    }

    fn load_row(&mut self, name: u32, word: u32) -> u64
        requires low { 1 ≤ name }
        requires high { name ≤ (view_of self.old).about.rows }
        requires word { word < 8 }
        ensures quiet { Quiet (view_of self.old) (view_of self.new) }
        ensures value { result ≡ word_at (view_of self.new).seen name word }
        ensures store { store_of self.new ≡ store_of self.old }
    {
        let at = self.layout.row_word(name, word);
        self.look(at)
    }

    fn load_counts(&mut self) -> (u64, u64)
        ensures quiet { Quiet (view_of self.old) (view_of self.new) }
        ensures names { result.0 ≡ (view_of self.new).named }
        ensures places { result.1 ≡ (view_of self.new).drawn }
        ensures store { store_of self.new ≡ store_of self.old }
    {
        let names = self.look(NAMES);
        let places = self.look(PLACES);
        self.named = names;
        self.drawn = places;
        (names, places)
    }
}
