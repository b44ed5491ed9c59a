//! Closed books: the rows of all events and the nodes that were published.
ghost use Rattle.std.specs.Prelude.{◌≡◌, ◌≤◌, Some, length};
ghost use Rattle.heap_store.specs.World.{node_at};
ghost use Rattle.heap_store.specs.Budget.{dues};
ghost use Rattle.heap_store.specs.Opened.{view_of};
ghost use Rattle.version_book.specs.Closed.{IsPaid, IsWhole, row_told, node_told};
ghost use Rattle.version_book.specs.Replies.{reply_told};
ghost use Rattle.version_book.specs.Totals.{totals_of};

use crate::rows::{self, Row};
use crate::totals::Totals;
use heap_store::PlainHeap;
use lazy_rec::{Rec, Ref, Reply, SuspState};
use std::marker::Model;

/// A closed book. It is seen as its world: the nodes by their places, and the words of the rows by their names. The world is
/// lawful, its rows are a legal history, and each row has ended. Its totals are those that the store counted.
#[derive(Drop)]
pub struct Closed {
    heap: PlainHeap,
    totals: Totals,
}

impl Model for Closed {
    ghost use Rattle.heap_store.specs.World.{World};
    ghost use Rattle.heap_store.specs.Opened.{view_of};
    ghost use Rattle.version_book.specs.Closed.{IsCounted};

    ghost Value = { World };

    ghost view = { λ c. (view_of c.heap).seen };

    ghost invariant = { λ c. IsCounted (view_of c.heap) c.totals };
}

impl Closed {
    /// The book of a store whose rows have all ended, and whose events were charged so much.
    pub(crate) fn of(heap: PlainHeap, charged: u64) -> Closed
        requires whole { IsWhole (view_of heap) }
        requires charged { charged ≡ dues (view_of heap).seen }
        ensures { result ≡ (view_of heap).seen }
    {
        let counts = heap.counts();
        let totals = Totals {
            forced: counts.forced,
            steps: counts.steps,
            given_up: counts.given_up,
            dues: charged,
            nodes: counts.nodes,
        };
        Closed { heap, totals }
    }

    /// How many rows it has: one for each event, by names from 1 on.
    pub fn rows(&self) -> u32
        ensures { result ≡ length self.now.rows }
    {
        self.heap.row_count()
    }

    /// The row of a name.
    pub fn row(&self, name: u32) -> Row
        requires low { 1 ≤ name }
        requires high { name ≤ length self.now.rows }
        ensures { row_told self.now name ≡ Some result }
    {
        rows::row_of(name, self.heap.words(name))
    }

    /// The reply of a name, where its row has one: what most lines of a report show. The event and the versions aren't read.
    #[inline(always)]
    pub fn reply(&self, name: u32) -> Option<Reply>
        requires low { 1 ≤ name }
        requires high { name ≤ length self.now.rows }
        ensures { result ≡ reply_told self.now name }
    {
        rows::reply_of_row(name, self.heap.words(name))
    }

    /// The record and the state of a place, where it is published.
    pub fn node(&self, place: Ref) -> Option<(Rec, SuspState)>
        ensures { result ≡ node_told (node_at self.now place.0) }
    {
        match self.heap.node(place) {
            Some(node) => Some((node.rec, node.state)),
            None => None,
        }
    }

    /// What all its events came to: never more steps than dues.
    pub fn totals(&self) -> Totals
        ensures totals { result ≡ totals_of self.now }
        ensures paid { IsPaid self.now }
    {
        self.totals
    }
}
