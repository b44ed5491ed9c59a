//! How large a store is, and what a seat of it knows.
ghost use Rattle.std.specs.Prelude.{ℕ, List, Option};
ghost use Rattle.std.specs.Borrow.{ftrue};
ghost use Rattle.lazy_rec.specs.declared.events.Event.{Event};
ghost use Rattle.heap_store.specs.Hand.{Hand};

use std::marker::Model;

/// How large a store is, and for how many callers it was opened. It never changes.
#[derive(Clone, Copy, Debug, PartialEq, Eq)]
pub struct Size {
    pub nodes: u32,
    pub rows: u32,
    pub callers: u32,
}

/// What a seat has seen and has in hand. No value of it is made.
pub struct Sight {
    pub ghost nodes: { ℕ },
    pub ghost rows: { ℕ },
    pub ghost callers: { ℕ },
    pub ghost plan: { Option (List Event) },
    // The callers whose rights it has: one caller's, but for the first seat and the last one.
    pub ghost numbers: { List ℕ },
    // The words as its last step left them.
    pub ghost words: { List ℕ },
    // Of the seats that it took in since then: the store's size, and the words that each had seen.
    pub ghost told: { List (ℕ × ℕ × List ℕ) },
    pub ghost hand: { Hand },
    // How many places it has added to the number of drawn places in vain.
    pub ghost wasted: { ℕ },
}

impl Model for Sight {
    ghost also_owns = { λ _. ftrue };
}
