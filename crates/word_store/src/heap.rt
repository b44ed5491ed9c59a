//! A pass as a heap.
ghost use Rattle.std.specs.Prelude.{◌≡◌, ◌+◌, ◌<◌, ◌≤◌, true, eqb, slice_index};
ghost use Rattle.lazy_rec.specs.declared.limits.TheConstants.{MOST_DRAWN};

use crate::pass::Pass;
use heap_store::{Full, Heap, Run};
use lazy_rec::{Rec, Ref, SuspState, decode};
use word_world::layout::PLACES;
use word_world::{Layout, state_of};

impl Pass {
    ghost use Rattle.heap_store.specs.View.{Refused};
    ghost use Rattle.word_store.specs.Passes.{sight_of, store_of, view_of};

    /// Notes a refusal with these numbers.
    fn refuse(&mut self, drawn: u64, k: u32) -> Full
        requires asked { 1 ≤ k }
        requires no_room { self.old.layout.nodes < drawn + k }
        requires low { drawn ≤ MOST_DRAWN }
        requires now { eqb (sight_of self.old).callers 1 ≡ true → drawn ≡ slice_index (sight_of self.old).words 0 }
        ensures drawn { result.drawn ≡ drawn }
        ensures wanted { result.wanted ≡ k }
        ensures refused { Refused (view_of self.old) (view_of self.new) k result }
        ensures store { store_of self.new ≡ store_of self.old }
    {
        let full = Full { drawn, wanted: k };
        self.note();
        self.refused = self.refused.saturating_add(1);
        self.last = full;
        full
    }
}

impl Heap for Pass {
    ghost use Rattle.std.specs.Prelude.{◌≡◌, ◌+◌, ◌<◌, ◌≤◌, true, Some, IfErr, IfOk};
    ghost use Rattle.lazy_rec.specs.Named.{is_pending};
    ghost use Rattle.heap_store.specs.World.{recs, state_at, holds, is_published};
    ghost use Rattle.heap_store.specs.Hand.{IsInHand};
    ghost use Rattle.heap_store.specs.View.{Quiet, Reserved, Refused, Fits, Put};
    ghost use Rattle.word_store.specs.Passes.{store_of, view_of};

    ghost view = { view_of };

    #[inline(always)]
    fn read(&mut self, r: Ref) -> Rec
        requires { is_published (recs (view_of self.old).seen) r.0 ≡ true }
        ensures quiet { Quiet (view_of self.old) (view_of self.new) }
        ensures rec { recs (view_of self.old).seen r.0 ≡ Some result }
        ensures store { store_of self.new ≡ store_of self.old }
    {
        let at = Layout::record_word(r);
        let first = self.look(at);
        let second = self.look(at + 1);
        let third = self.look(at + 2);
        let fourth = self.look(at + 3);
        decode([first, second, third, fourth])
    }

    #[inline(always)]
    fn state(&mut self, s: Ref) -> SuspState
        requires { holds (recs (view_of self.old).seen) s.0 is_pending ≡ true }
        ensures quiet { Quiet (view_of self.old) (view_of self.new) }
        ensures state { state_at (view_of self.new).seen s.0 ≡ Some result }
        ensures store { store_of self.new ≡ store_of self.old }
    {
        state_of(self.look(Layout::state_word(s)))
    }

    fn reserve(&mut self, k: u32) -> Result<Run, Full>
        requires { k ≤ (view_of self.old).hand.allowance }
        ensures ok { IfOk result (λ run. Reserved (view_of self.old) (view_of self.new) k run) }
        ensures err { IfErr result (λ full. Refused (view_of self.old) (view_of self.new) k full) }
        ensures store { store_of self.new ≡ store_of self.old }
    {
        if k == 0 {
            let end = self.layout.nodes + 5;
            return Ok(Run::new(end, end));
        }
        let drawn = self.look(PLACES);
        if drawn + k as u64 > self.layout.nodes as u64 {
            return Err(self.refuse(drawn, k));
        }
        let found = self.draw(k as u64);
        if found + k as u64 > self.layout.nodes as u64 {
            return Err(self.refuse(found, k));
        }
        let first = found as u32 + 5;
        Ok(Run::new(first, first + k))
    }

    #[inline(always)]
    fn put(&mut self, run: &mut Run, rec: Rec) -> Ref
        requires held { IsInHand (view_of self.old).hand run.old }
        requires left { run.old.next < run.old.end }
        requires fits { Fits (view_of self.old) run.old.next rec }
        ensures place { result.0 ≡ run.old.next }
        ensures run { run.new ≡ record run.old { next = run.old.next + 1 } }
        ensures put { Put (view_of self.old) (view_of self.new) run.old.next rec }
        ensures store { store_of self.new ≡ store_of self.old }
    {
        let words = rec.pack();
        let place = run.step();
        self.fill(place, 1, words[1]);
        self.fill(place, 2, words[2]);
        self.fill(place, 3, words[3]);
        self.publish(place, words[0], rec);
        place
    }

    ghost lawful = { λ p. p.law };
}
