//! The store as the structures see it: places that are read, reserved and filled, claims, and the rows of events.
ghost use Rattle.std.specs.Prelude.{◌≡◌, ℕ, ◌+◌, ◌^◌, ◌<◌, ◌≤◌, true, Some, IfOk, IfErr};
ghost use Rattle.lazy_rec.specs.Named.{is_pending};
ghost use Rattle.heap_store.specs.World.{recs, state_at, holds, is_published};
ghost use Rattle.heap_store.specs.Rows.{word_at};
ghost use Rattle.heap_store.specs.Hand.{IsInHand, holds_claim, is_unbuilt, places_of_steps};
ghost use Rattle.heap_store.specs.Budget.{is_funded_at};
ghost use Rattle.heap_store.specs.View.{View, IsLawfulView, Quiet, Reserved, Refused, Fits, Put, ClaimAnswer, MayComplete, Completed, GivenUp};
ghost use Rattle.heap_store.specs.RowCalls.{NameDrawn, NoName, MayStore, Stored};

use crate::claims::{Claim, Full, NamesFull};
use crate::run::Run;
use lazy_rec::{Rec, Ref, SuspState};

/// A store of places, as one thread sees it. What it has seen grows with each call, and is always lawful.
pub trait Heap {
    /// The world that was seen, what is in hand, and what never changes.
    ghost view: { Self → View };

    /// The record at a published place. It never changes.
    fn read(&mut self, r: Ref) -> Rec
        requires { is_published (recs (view self.old).seen) r.0 ≡ true }
        ensures quiet { Quiet (view self.old) (view self.new) }
        ensures rec { recs (view self.old).seen r.0 ≡ Some result };

    /// The state of a published suspension, as this call read it.
    fn state(&mut self, s: Ref) -> SuspState
        requires { holds (recs (view self.old).seen) s.0 is_pending ≡ true }
        ensures quiet { Quiet (view self.old) (view self.new) }
        ensures state { state_at (view self.new).seen s.0 ≡ Some result };

    /// Reserves `k` consecutive places above all that was seen published. It is refused exactly where `k` is at least 1 and
    /// the store hasn't so many places left.
    fn reserve(&mut self, k: u32) -> Result<Run, Full>
        requires { k ≤ (view self.old).hand.allowance }
        ensures ok { IfOk result (λ run. Reserved (view self.old) (view self.new) k run) }
        ensures err { IfErr result (λ full. Refused (view self.old) (view self.new) k full) };

    /// Publishes a record at the run's next place, and answers the place.
    fn put(&mut self, run: &mut Run, rec: Rec) -> Ref
        requires held { IsInHand (view self.old).hand run.old }
        requires left { run.old.next < run.old.end }
        requires fits { Fits (view self.old) run.old.next rec }
        ensures place { result.0 ≡ run.old.next }
        ensures run { run.new ≡ record run.old { next = run.old.next + 1 } }
        ensures put { Put (view self.old) (view self.new) run.old.next rec };

    ghost lawful: { (h : Self) → IsLawfulView (view h) };
}

/// A heap whose suspensions can be claimed and completed.
pub trait Claims: Heap {
    /// Claims a suspension that is paid for, in one step: it is won exactly where it was unforced.
    fn claim(&mut self, s: Ref) -> Claim
        requires pending { holds (recs (Self.view self.old).seen) s.0 is_pending ≡ true }
        requires funded { is_funded_at (Self.view self.old).seen s.0 ≡ true }
        ensures { ClaimAnswer (Self.view self.old) (Self.view self.new) s result };

    /// Completes a claimed suspension, once and for all, with the place of its value.
    fn complete(&mut self, s: Ref, place: Ref, steps: u32)
        requires held { holds_claim (Self.view self.old).hand s.0 ≡ true }
        requires value { MayComplete (Self.view self.old).seen s.0 place.0 steps }
        requires small { steps < 2 ^ 22 }
        ensures { Completed (Self.view self.old) (Self.view self.new) s.0 place.0 steps };

    /// Gives back a claim whose attempt has published nothing.
    fn give_up(&mut self, s: Ref)
        requires unbuilt { is_unbuilt (Self.view self.old).hand s.0 ≡ true }
        requires places { places_of_steps (recs (Self.view self.old).seen) s.0 ≤ (Self.view self.old).hand.allowance }
        ensures { GivenUp (Self.view self.old) (Self.view self.new) s.0 };
}

/// A heap with names, and rows of eight words each for the events of these names.
pub trait Rows: Claims {
    /// Draws the next name, from 1 on. It is refused exactly where as many names as rows are drawn.
    fn draw_name(&mut self) -> Result<u32, NamesFull>
        ensures ok { IfOk result (λ name. NameDrawn (Self.view self.old) (Self.view self.new) name) }
        ensures err { IfErr result (λ none. NoName (Self.view self.old) (Self.view self.new) none) };

    /// Stores a word of the row of a name that this heap has drawn and not ended.
    fn store_row(&mut self, name: u32, word: u32, value: u64)
        requires { MayStore (Self.view self.old) name word value }
        ensures { Stored (Self.view self.old) (Self.view self.new) name word value };

    /// A word of a row, as this call read it.
    fn load_row(&mut self, name: u32, word: u32) -> u64
        requires low { 1 ≤ name }
        requires high { name ≤ (Self.view self.old).about.rows }
        requires word { word < 8 }
        ensures quiet { Quiet (Self.view self.old) (Self.view self.new) }
        ensures value { result ≡ word_at (Self.view self.new).seen name word };

    /// The numbers of drawn names and drawn places, as this call read them.
    fn load_counts(&mut self) -> (u64, u64)
        ensures quiet { Quiet (Self.view self.old) (Self.view self.new) }
        ensures names { result.0 ≡ (Self.view self.new).named }
        ensures places { result.1 ≡ (Self.view self.new).drawn };
}
