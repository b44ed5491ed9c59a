//! Reserved runs of places.
ghost use Rattle.std.specs.Prelude.{◌≡◌, ◌+◌, ◌<◌, ◌≤◌};

use lazy_rec::Ref;
use std::marker::Model;

/// A run of consecutive reserved places, of which the first ones may be filled. It is not `Drop`: it has to be spent by
/// `finish`. A run that no heap reserved can be made, but not filled, since `put` wants its places in the heap's hand.
pub struct Run {
    next: u32,
    end: u32,
}

impl Model for Run {
    ghost use Rattle.heap_store.specs.Span.{Span};
    ghost use Rattle.std.specs.Prelude.{◌≤◌};

    ghost Value = { Span };

    ghost view = { λ r. record { next = r.next; end = r.end } };

    ghost invariant = { λ r. r.next ≤ r.end };
}

impl Run {
    /// The run of the places from `next` up to, and without, `end`.
    pub fn new(next: u32, end: u32) -> Run
        requires { next ≤ end }
        ensures next { result.next ≡ next }
        ensures end { result.end ≡ end }
    {
        Run { next, end }
    }

    /// How many places are still free.
    pub fn left(&self) -> u32
        ensures { result + self.now.next ≡ self.now.end }
    {
        self.end - self.next
    }

    /// The next free place.
    pub fn next(&self) -> Ref
        requires { self.now.next < self.now.end }
        ensures { result.0 ≡ self.now.next }
    {
        Ref(self.next)
    }

    /// Takes the next free place.
    pub fn step(&mut self) -> Ref
        requires { self.old.next < self.old.end }
        ensures place { result.0 ≡ self.old.next }
        ensures next { self.new.next ≡ self.old.next + 1 }
        ensures end { self.new.end ≡ self.old.end }
    {
        let place = Ref(self.next);
        self.next += 1;
        place
    }

    /// Spends a run that is filled.
    pub fn finish(self)
        requires { self.next ≡ self.end }
    {
        let Run { next: _, end: _ } = self;
    }
}
