//! The store of one thread, over vectors.
ghost use Rattle.std.specs.Prelude.{◌≡◌, ℕ, ◌+◌, ◌<◌, ◌≤◌, [], slice_index, vec_capacity};
ghost use Rattle.lazy_rec.specs.declared.limits.TheConstants.{MOST_EVENTS, MOST_NODES};
ghost use Rattle.heap_store.specs.World.{fixed_places};
ghost use Rattle.heap_store.specs.Plain.{IsPlain, plain_view, five_records};
ghost use Rattle.heap_store.specs.Counts.{AreCounted};
ghost use Rattle.heap_store.specs.Props.{IsPlain-prop, AreCounted-prop, IsLawfulView-prop};
ghost use Rattle.heap_store.specs.View.{IsLawfulView};

use crate::claims::{Claim, Full, NamesFull};
use crate::counts::Counts;
use crate::heap::{Claims, Heap, Rows};
use crate::nodes::Node;
use crate::notes::{Note, Notes};
use crate::run::Run;
use crate::slots::DrawnPlaces;
use lazy_rec::{NoMemory, Rec, Ref, SuspState};
use std::alloc::Global;

/// What the states of places tell of the work on a store: how many suspensions are done and the steps that they took, and how many
/// attempts were given back. It is counted as the work is done.
#[derive(Clone, Copy)]
struct Work {
    forced: u64,
    steps: u64,
    given_up: u64,
}

/// The store of one thread. It takes its room when it is opened: no other call asks for memory. Places and rows are filled
/// as they are drawn, so a large store that is little used touches little memory.
#[derive(Drop)]
pub struct PlainHeap {
    nodes: DrawnPlaces,
    notes: Notes,
    rows: Vec<[u64; 8]>,
    capacity: u32,
    row_capacity: u32,
    refused: u64,
    last: Full,
    work: Work,
    ghost node_room: { nodes.room ≡ fixed_places + capacity },
    ghost row_room: { row_capacity ≤ vec_capacity rows },
    ghost plain: { IsPlain capacity row_capacity nodes.shown notes.claims rows.items } by { IsPlain-prop capacity row_capacity nodes.shown notes.claims rows.items },
    ghost counted: { AreCounted nodes.shown work } by { AreCounted-prop nodes.shown work },
    ghost law: { IsLawfulView (plain_view nodes.shown notes.claims rows.items notes.open_rows capacity row_capacity refused last) } by { IsLawfulView-prop (plain_view nodes.shown notes.claims rows.items notes.open_rows capacity row_capacity refused last) },
}

impl PlainHeap {
    ghost use Rattle.std.specs.Prelude.{◌≡◌, ℕ, ◌≤◌, IfOk};
    ghost use Rattle.heap_store.specs.Opened.{view_of, opened_view};

    /// A store of so many places beside the five fixed ones, and of so many rows. It fails only for want of memory.
    pub fn open(alloc: Global, nodes: u32, rows: u32) -> Result<PlainHeap, NoMemory>
        requires nodes { nodes ≤ MOST_NODES }
        requires rows { rows ≤ MOST_EVENTS }
        ensures { IfOk result (λ h. view_of h ≡ opened_view nodes rows) }
    {
        let Ok(places) = DrawnPlaces::with_room(alloc, nodes + 5) else {
            return Err(NoMemory)
        };
        let Ok(row_room) = Vec::with_capacity(alloc, rows as usize) else {
            return Err(NoMemory)
        };
        Ok(PlainHeap {
            nodes: with_fixed_records(places),
            notes: Notes::new(),
            rows: row_room,
            capacity: nodes,
            row_capacity: rows,
            refused: 0,
            last: Full {
                drawn: 0,
                wanted: 0,
            },
            work: Work {
                forced: 0,
                steps: 0,
                given_up: 0,
            },
        })
    }
}

impl PlainHeap {
    ghost use Rattle.std.specs.Prelude.{◌≡◌, ◌<◌, ◌≤◌, length};
    ghost use Rattle.heap_store.specs.World.{node_at};
    ghost use Rattle.heap_store.specs.Rows.{words_at};
    ghost use Rattle.heap_store.specs.Counts.{counts_of};
    ghost use Rattle.heap_store.specs.Opened.{view_of};

    /// How many rows the store has.
    pub fn row_count(&self) -> u32
        ensures { result ≡ length (view_of self.now).seen.rows }
    {
        self.row_capacity
    }

    /// The words of the row of a drawn name.
    pub fn words(&self, name: u32) -> &[u64; 8]
        requires low { 1 ≤ name }
        requires high { name ≤ (view_of self.now).named }
        ensures { result.now ≡ words_at (view_of self.now).seen name }
    {
        &self.rows[name as usize - 1]
    }

    /// What a place shows, if it is published.
    pub fn node(&self, place: Ref) -> Option<Node>
        ensures { result ≡ node_at (view_of self.now).seen place.0 }
    {
        self.nodes.get(place)
    }

    /// What the work on the store came to until now. It is counted as the work is done, and the published places by their slots: no
    /// place is looked at.
    pub fn counts(&self) -> Counts
        ensures { result ≡ counts_of (view_of self.now).seen }
    {
        Counts {
            forced: self.work.forced,
            steps: self.work.steps,
            given_up: self.work.given_up,
            nodes: self.nodes.published() - 5,
        }
    }
}

/// Publishes the five fixed records where no place is drawn.
fn with_fixed_records(places: DrawnPlaces) -> DrawnPlaces
    requires empty { places.shown ≡ [] }
    requires room { fixed_places ≤ places.room }
    ensures { result ≡ record places { shown = five_records } }
{
    let mut places = places;
    places.draw(5);
    places.publish(Ref(0), Rec::Nil);
    places.publish(Ref(1), Rec::LNil);
    places.publish(Ref(2), Rec::TNil);
    places.publish(Ref(3), Rec::CatNil);
    places.publish(Ref(4), Rec::TEmpty);
    places
}

impl Heap for PlainHeap {
    ghost use Rattle.heap_store.specs.Opened.{view_of};

    ghost view = { view_of };

    #[inline(always)]
    fn read(&mut self, r: Ref) -> Rec {
        self.nodes.rec(r)
    }

    #[inline(always)]
    fn state(&mut self, s: Ref) -> SuspState {
        self.nodes.state(s)
    }

    #[inline(always)]
    fn reserve(&mut self, k: u32) -> Result<Run, Full> {
        let drawn = self.nodes.drawn();
        if k > self.nodes.room() - drawn {
            let full = Full {
                drawn: (drawn - 5) as u64,
                wanted: k,
            };
            self.refused = self.refused.saturating_add(1);
            self.last = full;
            self.notes = self.notes.with(&Note::Refused);
            return Err(full);
        }
        self.nodes.draw(k);
        Ok(Run::new(drawn, drawn + k))
    }

    #[inline(always)]
    fn put(&mut self, run: &mut Run, rec: Rec) -> Ref {
        let place = run.step();
        self.nodes.publish(place, rec);
        self.notes = self.notes.with(&Note::Put(&rec));
        place
    }

    ghost lawful = { λ h. h.law };
}

impl Claims for PlainHeap {
    #[inline(always)]
    fn claim(&mut self, s: Ref) -> Claim {
        match self.nodes.state(s) {
            SuspState::Unforced { given_up } => {
                self.nodes.set_state(s, SuspState::Claimed { given_up });
                self.notes = self.notes.with(&Note::Won(s));
                Claim::Won
            }
            SuspState::Claimed { .. } => Claim::Busy,
            SuspState::Done { place, .. } => Claim::Done(place),
        }
    }

    fn complete(&mut self, s: Ref, place: Ref, steps: u32) {
        let SuspState::Claimed { given_up } = self.nodes.state(s) else {
            unreachable!()
        };
        self.nodes.set_state(
            s,
            SuspState::Done {
                place,
                steps,
                given_up,
            },
        );
        self.work.forced += 1;
        self.work.steps += u64::from(steps);
        self.notes = self.notes.with(&Note::Left(s));
    }

    fn give_up(&mut self, s: Ref) {
        let SuspState::Claimed { given_up } = self.nodes.state(s) else {
            unreachable!()
        };
        let raised = given_up.saturating_add(1);
        self.nodes
            .set_state(s, SuspState::Unforced { given_up: raised });
        self.work.given_up += u64::from(raised - given_up);
        self.notes = self.notes.with(&Note::Left(s));
    }
}

/// A word of a row.
fn word_of(row: &[u64; 8], word: u32) -> u64
    requires { word < 8 }
    ensures { result ≡ slice_index row.now word }
{
    row[word as usize]
}

impl Rows for PlainHeap {
    #[inline]
    fn draw_name(&mut self) -> Result<u32, NamesFull> {
        let drawn = self.rows.len() as u32;
        if drawn == self.row_capacity {
            return Err(NamesFull {
                drawn: drawn as u64,
            });
        }
        self.rows.push_reserved([0; 8]);
        Ok(drawn + 1)
    }

    #[inline]
    fn store_row(&mut self, name: u32, word: u32, value: u64) {
        self.rows[name as usize - 1][word as usize] = value;
        self.notes = self.notes.with(&Note::Stored { name, word, value });
    }

    #[inline]
    fn load_row(&mut self, name: u32, word: u32) -> u64 {
        let at = name as usize - 1;
        if at < self.rows.len() {
            word_of(&self.rows[at], word)
        } else {
            0
        }
    }

    fn load_counts(&mut self) -> (u64, u64) {
        (self.rows.len() as u64, u64::from(self.nodes.drawn()) - 5)
    }
}

#[cfg(test)]
mod tests;
