//! The drawn places of a store of one thread.
ghost use Rattle.std.specs.Prelude.{◌≡◌, ◌+◌, ◌-◌, ◌<◌, ◌≤◌, ◌++◌, [], true, replicate, length, map, is_some, Some, None, IfOk, option_map, slice_set, slice_index_or, vec_len, vec_capacity};
ghost use Rattle.heap_store.specs.declared.nodes.Node.{Node};
ghost use Rattle.heap_store.specs.Plain.{fresh_node};
ghost use Rattle.lazy_rec.specs.declared.records.Rec.{Rec};
ghost use Rattle.heap_store.specs.Budget.{node_count_of};
ghost use Rattle.heap_store.specs.Slots.{HasStepsOf, state_in, node_in, at_place, published_in};

use crate::nodes::Node;
use lazy_rec::{Rec, Ref, SuspState};
use std::alloc::{AllocError, Global};
use std::marker::Model;

/// The state of a place, or that nothing is published there. The steps of what is done aren't kept, as its record tells them: so a
/// slot has 40 bytes.
#[derive(Clone, Copy)]
enum SlotState {
    Free,
    Unforced { given_up: u16 },
    Claimed { given_up: u16 },
    Done { given_up: u16, place: Ref },
}

/// What is kept of a place: its record and its state. The record of a free place means nothing.
#[derive(Clone, Copy)]
struct Slot {
    rec: Rec,
    state: SlotState,
}

/// The slot of a place that shows nothing.
const FREE: Slot = Slot {
    rec: Rec::Nil,
    state: SlotState::Free,
};

/// The state that a slot shows, if something is published there.
#[inline(always)]
fn state_in(slot: &Slot) -> Option<SuspState>
    ensures { result ≡ state_in slot.now }
{
    match slot.state {
        SlotState::Free => None,
        SlotState::Unforced { given_up } => Some(SuspState::Unforced { given_up }),
        SlotState::Claimed { given_up } => Some(SuspState::Claimed { given_up }),
        SlotState::Done { given_up, place } => Some(SuspState::Done {
            place,
            steps: slot.rec.steps().min(u64::from(u32::MAX)) as u32,
            given_up,
        }),
    }
}

/// The state as a slot keeps it beside a record with its steps.
#[inline(always)]
fn kept(state: SuspState) -> SlotState
    ensures { (rec : Rec) → HasStepsOf rec state → state_in (record { rec = rec; state = result }) ≡ Some state }
{
    match state {
        SuspState::Unforced { given_up } => SlotState::Unforced { given_up },
        SuspState::Claimed { given_up } => SlotState::Claimed { given_up },
        SuspState::Done {
            place,
            given_up,
            ..
        } => SlotState::Done { given_up, place },
    }
}

/// The slot of a fresh place.
#[inline(always)]
fn fresh(rec: Rec) -> Slot
    ensures { node_in result ≡ fresh_node rec }
{
    Slot {
        rec,
        state: SlotState::Unforced { given_up: 0 },
    }
}

/// One for a slot that shows nothing.
fn gap_in(slot: &Slot) -> u32
    ensures { result + node_count_of (node_in slot.now) ≡ 1 }
{
    match slot.state {
        SlotState::Free => 1,
        SlotState::Unforced { .. } | SlotState::Claimed { .. } | SlotState::Done { .. } => 0,
    }
}

/// Puts free slots behind the others, so that there are at least so many.
fn fill_to(slots: &mut Vec<Slot>, len: usize)
    requires { len ≤ vec_capacity slots.old }
    ensures items { slots.new.items ≡ slots.old.items ++ replicate (len - length slots.old.items) FREE }
    ensures room { vec_capacity slots.new ≡ vec_capacity slots.old }
{
    for _ in slots.len()..len {
        slots.push_reserved(FREE);
    }
}

/// The drawn places, up to so many as there is room for. A slot is written when its place is published, and before it only where a
/// later place is published first: drawing places costs nothing. So as many places are published as there are slots, less the
/// gaps, which are the free ones among them.
#[derive(Drop)]
pub struct DrawnPlaces {
    slots: Vec<Slot>,
    gaps: u32,
    drawn: u32,
    room: u32,
}

impl Model for DrawnPlaces {
    ghost use Rattle.std.specs.Prelude.{◌≡◌, ◌+◌, ◌≤◌, length, vec_capacity};
    ghost use Rattle.heap_store.specs.Slots.{PlacesView, shown_in, published_in};

    ghost Value = { PlacesView };

    ghost view = { λ p. record { shown = shown_in p.slots.items p.drawn; room = p.room } };

    ghost invariant = { λ p. (length p.slots.items ≤ p.drawn) × (p.drawn ≤ p.room) × (p.room ≤ vec_capacity p.slots) × (p.gaps + published_in (shown_in p.slots.items p.drawn) ≡ length p.slots.items) };
}

impl DrawnPlaces {
    /// Room for so many places, of which none is drawn.
    pub fn with_room(alloc: Global, room: u32) -> Result<DrawnPlaces, AllocError>
        ensures { IfOk result (λ p. p ≡ record { shown = []; room = room }) }
    {
        let slots = Vec::with_capacity(alloc, room as usize)?;
        Ok(DrawnPlaces {
            slots,
            gaps: 0,
            drawn: 0,
            room,
        })
    }

    /// How many places are drawn.
    #[inline(always)]
    pub fn drawn(&self) -> u32
        ensures drawn { result ≡ length self.now.shown }
        ensures few { result ≤ self.now.room }
    {
        self.drawn
    }

    /// How many places are published. No place is looked at.
    pub fn published(&self) -> u64
        ensures { result ≡ published_in self.now.shown }
    {
        self.slots.len() as u64 - u64::from(self.gaps)
    }

    /// How many places there is room for.
    #[inline(always)]
    pub fn room(&self) -> u32
        ensures { result ≡ self.now.room }
    {
        self.room
    }

    /// What a place shows.
    #[inline(always)]
    pub fn get(&self, place: Ref) -> Option<Node>
        ensures { result ≡ at_place self.now.shown place.0 }
    {
        if place.0 as usize >= self.slots.len() {
            return None;
        }
        let slot = self.slots[place.0 as usize];
        match state_in(&slot) {
            Some(state) => Some(Node {
                rec: slot.rec,
                state,
            }),
            None => None,
        }
    }

    /// The record at a published place.
    #[inline(always)]
    pub fn rec(&self, place: Ref) -> Rec
        requires { is_some (at_place self.now.shown place.0) ≡ true }
        ensures { option_map (λ (n : Node). n.rec) (at_place self.now.shown place.0) ≡ Some result }
    {
        self.slots[place.0 as usize].rec
    }

    /// The state of a published place.
    #[inline(always)]
    pub fn state(&self, place: Ref) -> SuspState
        requires { is_some (at_place self.now.shown place.0) ≡ true }
        ensures { option_map (λ (n : Node). n.state) (at_place self.now.shown place.0) ≡ Some result }
    {
        match state_in(&self.slots[place.0 as usize]) {
            Some(state) => state,
            None => unreachable!(),
        }
    }

    /// Draws so many places more.
    #[inline(always)]
    pub fn draw(&mut self, count: u32)
        requires { length self.old.shown + count ≤ self.old.room }
        ensures { self.new ≡ record self.old { shown = self.old.shown ++ replicate count None } }
    {
        self.drawn += count;
    }

    /// Publishes a record at a drawn place.
    #[inline(always)]
    pub fn publish(&mut self, place: Ref, rec: Rec)
        requires { place.0 < length self.old.shown }
        ensures { self.new ≡ record self.old { shown = slice_set self.old.shown place.0 (fresh_node rec) } }
    {
        if place.0 as usize == self.slots.len() {
            self.slots.push_reserved(fresh(rec));
        } else {
            // The slot is made on this way alone: a record that is handed to a call is written to the stack on the other way too.
            self.publish_apart(place, fresh(rec));
        }
    }

    /// Publishes a place other than the one behind the last slot. It has a slot, or gets one behind free ones for the places before
    /// it: these are gaps.
    #[cold]
    #[inline(never)]
    fn publish_apart(&mut self, place: Ref, slot: Slot)
        requires drawn { place.0 < length self.old.shown }
        requires shows { node_count_of (node_in slot) ≡ 1 }
        ensures { self.new ≡ record self.old { shown = slice_set self.old.shown place.0 (node_in slot) } }
    {
        let at = place.0 as usize;
        let before = self.slots.len();
        fill_to(&mut self.slots, at + 1);
        self.gaps += (self.slots.len() - before) as u32;
        self.gaps -= gap_in(&self.slots[at]);
        self.slots[at] = slot;
    }

    /// Gives a published place another state. What is done took the steps that its record tells.
    #[inline(always)]
    pub fn set_state(&mut self, place: Ref, state: SuspState)
        requires there { is_some (at_place self.old.shown place.0) ≡ true }
        requires steps { (n : Node) → at_place self.old.shown place.0 ≡ Some n → HasStepsOf n.rec state }
        ensures { (n : Node) → at_place self.old.shown place.0 ≡ Some n → self.new ≡ record self.old { shown = slice_set self.old.shown place.0 (Some (record n { state = state })) } }
    {
        self.slots[place.0 as usize].state = kept(state);
    }
}
