//! A pass's claims.
ghost use Rattle.std.specs.Prelude.{◌≡◌, Some, true};
ghost use Rattle.lazy_rec.specs.declared.states.SuspState.TheVariants.{Claimed};
ghost use Rattle.heap_store.specs.World.{state_at};
ghost use Rattle.heap_store.specs.Hand.{holds_claim};
ghost use Rattle.heap_store.specs.View.{Quiet};
ghost use Rattle.word_store.specs.Rule.{seen_by};

use crate::pass::Pass;
use heap_store::{Claim, Claims};
use lazy_rec::{Ref, SuspState};
use word_world::{Layout, state_of};

impl Pass {
    ghost use Rattle.word_store.specs.Passes.{sight_of, store_of, view_of};

    /// How often attempts at a suspension that this pass has claimed were given back.
    fn count_given_up(&mut self, s: Ref) -> u16
        requires held { holds_claim (sight_of self.old).hand s.0 ≡ true }
        ensures quiet { Quiet (view_of self.old) (view_of self.new) }
        ensures before { state_at (seen_by (sight_of self.old)) s.0 ≡ Some (Claimed result) }
        ensures now { state_at (seen_by (sight_of self.new)) s.0 ≡ Some (Claimed result) }
        ensures store { store_of self.new ≡ store_of self.old }
    {
        match state_of(self.look(Layout::state_word(s))) {
            SuspState::Claimed { given_up } => given_up,
            _ => unreachable!(),
        }
    }
}

impl Claims for Pass {
    ghost use Rattle.std.specs.Prelude.{◌≡◌, ◌^◌, ◌<◌, ◌≤◌, true};
    ghost use Rattle.lazy_rec.specs.Named.{is_pending};
    ghost use Rattle.heap_store.specs.World.{recs, holds};
    ghost use Rattle.heap_store.specs.Hand.{holds_claim, is_unbuilt, places_of_steps};
    ghost use Rattle.heap_store.specs.Budget.{is_funded_at};
    ghost use Rattle.heap_store.specs.View.{ClaimAnswer, MayComplete, Completed, GivenUp};
    ghost use Rattle.word_store.specs.Passes.{store_of, view_of};

    #[inline(always)]
    fn claim(&mut self, s: Ref) -> Claim
        requires pending { holds (recs (view_of self.old).seen) s.0 is_pending ≡ true }
        requires funded { is_funded_at (view_of self.old).seen s.0 ≡ true }
        ensures answer { ClaimAnswer (view_of self.old) (view_of self.new) s result }
        ensures store { store_of self.new ≡ store_of self.old }
    {
        match state_of(self.attempt(s)) {
            SuspState::Unforced { .. } => Claim::Won,
            SuspState::Claimed { .. } => Claim::Busy,
            SuspState::Done { place, .. } => Claim::Done(place),
        }
    }

    fn complete(&mut self, s: Ref, place: Ref, steps: u32)
        requires held { holds_claim (view_of self.old).hand s.0 ≡ true }
        requires value { MayComplete (view_of self.old).seen s.0 place.0 steps }
        requires small { steps < 2 ^ 22 }
        ensures completed { Completed (view_of self.old) (view_of self.new) s.0 place.0 steps }
        ensures store { store_of self.new ≡ store_of self.old }
    {
        let given_up = self.count_given_up(s);
        let done = SuspState::Done {
            place,
            steps,
            given_up,
        };
        self.spend(s, done);
    }

    fn give_up(&mut self, s: Ref)
        requires unbuilt { is_unbuilt (view_of self.old).hand s.0 ≡ true }
        requires places { places_of_steps (recs (view_of self.old).seen) s.0 ≤ (view_of self.old).hand.allowance }
        ensures given_up { GivenUp (view_of self.old) (view_of self.new) s.0 }
        ensures store { store_of self.new ≡ store_of self.old }
    {
        let given_up = self.count_given_up(s).saturating_add(1);
        self.spend(s, SuspState::Unforced { given_up });
    }
}
