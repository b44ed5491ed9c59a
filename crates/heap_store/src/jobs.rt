//! Pending work, and events as jobs of one or more stages, by what a heap knows of them.
ghost use Rattle.std.specs.Prelude.{◌≡◌, ℕ, ◌<◌, true, Bool};
ghost use Rattle.lazy_rec.specs.declared.events.Kind.{Kind};
ghost use Rattle.lazy_rec.specs.declared.events.Op.{Op};
ghost use Rattle.lazy_rec.specs.declared.records.Rec.{Rec};
ghost use Rattle.heap_store.specs.Stages.{StageName, position, StagesSum, LeavesEnough};
ghost use Rattle.heap_store.specs.World.{World};
ghost use Rattle.heap_store.specs.View.{Quiet};
ghost use Rattle.heap_store.specs.Jobs.{IsWork, cursor_fits, Prepared, IsBuildable, IsBuilt};

use crate::heap::Heap;
use crate::run::Run;
use crate::versions::Version;
use lazy_rec::{Op, Rec, Ref, Reply};

/// How far a prepare has come: it has passed so many cells, each a value or done, and stands at the place after them.
#[derive(Clone, Copy, Debug, PartialEq, Eq)]
pub struct Cursor {
    pub place: Ref,
    pub passed: u32,
}

impl Cursor {
    /// A cursor that has passed nothing. It fits each record and each job.
    pub fn new() -> Cursor
        ensures { result.passed ≡ 0 }
    {
        Cursor {
            place: Ref(0),
            passed: 0,
        }
    }
}

/// What work needs next: a suspension that must be done first, or so many places, where all needs are done. The load of a
/// need's state is the last call before the answer: on a shared store any later call may show it done.
#[derive(Clone, Copy, Debug, PartialEq, Eq)]
pub enum Prep {
    Need(Ref),
    Ready { nodes: u32 },
}

/// The value that work has made, and the steps that it took.
#[derive(Clone, Copy, Debug, PartialEq, Eq)]
pub struct Built {
    pub place: Ref,
    pub steps: u32,
}

/// How far an event has come. `HeapPaid` has the top that owes nothing; `Parts` the two sides of a split, and a digit
/// between them where `listed` is true; `Root` the root that is made, which may be pending yet.
#[derive(Clone, Copy, Debug, PartialEq, Eq)]
pub enum Stage {
    Start,
    HeapPaid {
        top: Ref,
    },
    Parts {
        left: Ref,
        right: Ref,
        list: Ref,
        listed: bool,
    },
    Root {
        root: Ref,
        reply: Reply,
    },
}

/// The stages of one event show and take together at most what the whole event may.
pub fn stages_fit_the_event()
    ensures sums { (k : Kind) (op : Op) (n m : ℕ) → StagesSum k op n m }
    ensures later { (k : Kind) (op : Op) (n m : ℕ) (now next : StageName) → position now < position next → LeavesEnough k op n m now next }
{}

/// An event at its present stage. For an operation without another version, `other` equals `base`.
#[derive(Clone, Copy, Debug, PartialEq, Eq)]
pub struct EventJob {
    pub op: Op,
    pub base: Version,
    pub other: Version,
    pub arg: u64,
    pub stage: Stage,
}

/// What a stage of an event has made: its result, or the next stage.
#[derive(Clone, Copy, Debug, PartialEq, Eq)]
pub enum After {
    End { root: Ref, size: u32, reply: Reply },
    Next(EventJob),
}

impl EventJob {
    ghost use Rattle.std.specs.Prelude.{◌^◌};

    /// The argument, a number of 64 bits.
    #[inline(always)]
    pub fn argument(&self) -> u64
        ensures same { result ≡ self.now.arg }
        ensures small { self.now.arg < 2 ^ 64 }
    {
        self.arg
    }

    /// The end of an event that makes nothing: its version is its base's root.
    #[inline(always)]
    pub fn at_base(&self, reply: Reply) -> After
        ensures { result ≡ After.End self.now.base.root self.now.base.size reply }
    {
        After::End {
            root: self.base.root,
            size: self.base.size,
            reply,
        }
    }
}

/// The kinds of pending work that somebody can do.
pub trait Jobs {
    /// Whether a record is work of these kinds.
    ghost does: { Self → Rec → Bool };

    /// What is told, with the number of places, of a suspension whose needs are done. It speaks of these kinds alone: of any
    /// other record it says nothing (it is an implication from what the record is), so that kinds can be joined.
    ghost told: { Self → World → ℕ → ℕ → Type 0 };

    /// What the pending record `s` needs. It forces, reserves and publishes nothing.
    fn prepare<H: Heap>(&self, h: &mut H, s: Ref, cursor: &mut Cursor) -> Prep
        requires work { IsWork (does self.now) (H.view h.old).seen s.0 }
        requires cursor { cursor_fits (H.view h.old).seen s.0 cursor.old ≡ true }
        ensures quiet { Quiet (H.view h.old) (H.view h.new) }
        ensures cursor { cursor_fits (H.view h.new).seen s.0 cursor.new ≡ true }
        ensures answer { Prepared (does self.now) (told self.now) (H.view h.new).seen s.0 result };

    /// Makes the value of `s`, whose needs are done, and fills the run with it. It has no refusal.
    fn build<H: Heap>(&self, h: &mut H, s: Ref, cursor: &Cursor, run: &mut Run) -> Built
        requires work { IsWork (does self.now) (H.view h.old).seen s.0 }
        requires cursor { cursor_fits (H.view h.old).seen s.0 cursor.now ≡ true }
        requires build { IsBuildable (told self.now) (H.view h.old) s run.old }
        ensures { IsBuilt (H.view h.old) (H.view h.new) s.0 run.old run.new result.place.0 result.steps };
}
