//! A pass that is known to be of one store.
ghost use Rattle.std.specs.Prelude.{◌≡◌};
ghost use Rattle.word_store.specs.Passes.{store_of};

use crate::pass::Pass;
use heap_store::{Claim, Claims, Full, Heap, NamesFull, Rows, Run};
use lazy_rec::{Rec, Ref, SuspState};
use std::marker::{Brand, PhantomData};

/// Which store it is. Each call of a program picks it.
pub trait Naming {
    ghost use Rattle.atomic_table.specs.Seated.{TableId};

    ghost store: { TableId };
}

impl Naming for Brand {
    ghost use Rattle.std.specs.Prelude.{[]};

    ghost store = { record { words = 0; slots = 0; views_name = 0; atom = 0; block = 0; offset = 0; slot_names = [] } };
}

/// A pass of the store that `J` names. It stays one, whatever generic code does with it: so the store can be closed with it.
#[derive(Drop)]
pub struct NamedPass<J: Naming> {
    pub(crate) pass: Pass,
    of: PhantomData<J>,
    ghost named: { store_of pass ≡ J.store },
}

impl<J: Naming> NamedPass<J> {
    ghost use Rattle.word_store.specs.Passes.{view_of};

    /// The pass under the name of its store.
    pub fn new(pass: Pass) -> NamedPass<J>
        requires { store_of pass ≡ J.store }
        ensures { result.pass ≡ pass }
    {
        NamedPass {
            pass,
            of: PhantomData,
        }
    }

    /// How many rows the store has.
    pub fn rows(&self) -> u32
        ensures { result ≡ (view_of self.now.pass).about.rows }
    {
        self.pass.rows()
    }
}

impl<J: Naming> Heap for NamedPass<J> {
    ghost use Rattle.word_store.specs.Passes.{view_of};

    ghost view = { λ p. view_of p.pass };

    #[inline(always)]
    fn read(&mut self, r: Ref) -> Rec {
        self.pass.read(r)
    }

    #[inline(always)]
    fn state(&mut self, s: Ref) -> SuspState {
        self.pass.state(s)
    }

    #[inline(always)]
    fn reserve(&mut self, k: u32) -> Result<Run, Full> {
        self.pass.reserve(k)
    }

    #[inline(always)]
    fn put(&mut self, run: &mut Run, rec: Rec) -> Ref {
        self.pass.put(run, rec)
    }

    ghost lawful = { λ p. p.pass.law };
}

impl<J: Naming> Claims for NamedPass<J> {
    #[inline(always)]
    fn claim(&mut self, s: Ref) -> Claim {
        self.pass.claim(s)
    }

    #[inline(always)]
    fn complete(&mut self, s: Ref, place: Ref, steps: u32) {
        self.pass.complete(s, place, steps);
    }

    #[inline(always)]
    fn give_up(&mut self, s: Ref) {
        self.pass.give_up(s);
    }
}

impl<J: Naming> Rows for NamedPass<J> {
    #[inline(always)]
    fn draw_name(&mut self) -> Result<u32, NamesFull> {
        self.pass.draw_name()
    }

    #[inline(always)]
    fn store_row(&mut self, name: u32, word: u32, value: u64) {
        self.pass.store_row(name, word, value);
    }

    #[inline(always)]
    fn load_row(&mut self, name: u32, word: u32) -> u64 {
        self.pass.load_row(name, word)
    }

    #[inline(always)]
    fn load_counts(&mut self) -> (u64, u64) {
        self.pass.load_counts()
    }
}
