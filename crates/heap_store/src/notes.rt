//! What a store of one thread has in hand. It exists only in proofs, and takes no bytes.
ghost use Rattle.std.specs.Prelude.{◌≡◌, List, [], ◌∷◌};
ghost use Rattle.std.specs.Borrow.{ftrue};
ghost use Rattle.heap_store.specs.declared.claims.HeldClaim.{HeldClaim};
ghost use Rattle.heap_store.specs.declared.claims.OpenRow.{OpenRow};

use lazy_rec::{Rec, Ref};
use std::marker::Model;

/// The claims from the newest on, and the rows that are worked on. Nothing here ties them to the places and rows of a store: the
/// store that keeps them does.
#[derive(Drop)]
pub struct Notes {
    ghost claims: { List HeldClaim },
    ghost open_rows: { List OpenRow },
}

impl Model for Notes {
    ghost also_owns = { λ _. ftrue };
}

/// What a call of a store does to what is in hand: a claim was won, or left the hand; a record was put; a reserve was refused; a
/// word of a row was stored.
#[derive(Clone, Copy)]
pub enum Note<'a> {
    Won(Ref),
    Left(Ref),
    Put(&'a Rec),
    Refused,
    Stored { name: u32, word: u32, value: u64 },
}

impl Notes {
    ghost use Rattle.heap_store.specs.Notes.{noted};

    /// Nothing is in hand.
    #[inline(always)]
    pub fn new() -> Notes
        ensures { result ≡ record { claims = []; open_rows = [] } }
    {
        Notes {}
    }

    /// What is in hand with one note more.
    #[inline(always)]
    pub fn with(&self, _note: &Note<'_>) -> Notes
        ensures { result ≡ noted self.now _note.now }
    {
        Notes {}
    }
}
