//! What the effects of operations mean, in the words of lists, queues and heaps. Each law is the contract of a function
//! that does nothing; it holds for every list.

ghost use Rattle.std.specs.Prelude.{◌≡◌, true, ◌≤◌, ◌+◌, ◌++◌, ◌∷◌, [], ◌↔◌, All, Contains, filter, length, min, nat_lt};
ghost use Rattle.std.specs.List.Sorted.{IsNonDecreasing};
ghost use Rattle.lazy_rec.specs.History.{IsScript, event_name, event_of, kind_of, plain};
ghost use Rattle.lazy_rec.specs.Plain.{effect, most_items, second_list};
ghost use Rattle.plain_model.specs.Laws.{after_snocs, keeps_order, list_after, reply_of};

use lazy_rec::{Event, Kind, Op, Reply};

/// A queue is first in, first out: after `snoc`s onto the empty queue, `head` tells the first item that was put in.
pub fn head_is_first_in(first: u64, later: &[u64])
    ensures { reply_of Op.Head (after_snocs [] (first ∷ later.now)) [] 0 ≡ Reply.Number first }
{}

/// `reverse` twice gives the base again.
pub fn reverse_twice_is_base(base: &[u64])
    ensures { list_after Op.Reverse (list_after Op.Reverse base.now [] 0) [] 0 ≡ base.now }
{}

/// `min` tells an item of a rising list that is at most every item.
pub fn min_is_least(base: &[u64], least: u64)
    requires rising { IsNonDecreasing base.now }
    requires told { reply_of Op.Min base.now [] 0 ≡ Reply.Number least }
    ensures at_most_each { All (λ item. least ≤ item) base.now }
    ensures one_of_them { Contains base.now least }
{}

/// `min` replies `empty` of the empty list alone.
pub fn min_of_none_is_empty(base: &[u64])
    ensures { (reply_of Op.Min base.now [] 0 ≡ Reply.Empty) ↔ (base.now ≡ []) }
{}

/// `delmin` takes one least item away: put in again, it makes the base.
pub fn delmin_takes_the_least(base: &[u64], least: u64)
    requires rising { IsNonDecreasing base.now }
    requires few { length base.now ≤ most_items }
    requires told { reply_of Op.Min base.now [] 0 ≡ Reply.Number least }
    ensures { list_after Op.Insert (list_after Op.Delmin base.now [] 0) [] least ≡ base.now }
{}

/// What `take` leaves and what `drop` leaves make the base together.
pub fn take_and_drop_make_base(base: &[u64], count: u64)
    requires { length base.now ≤ most_items }
    ensures by_append { list_after Op.Append (list_after Op.Take base.now [] count) (list_after Op.Drop base.now [] count) 0 ≡ base.now }
    ensures by_concat { list_after Op.Concat (list_after Op.Take base.now [] count) (list_after Op.Drop base.now [] count) 0 ≡ base.now }
{}

/// The two lists of a split make the base together, and the first one has as many items as the argument says, or all.
pub fn split_makes_base(base: &[u64], count: u64)
    ensures together { list_after Op.Split base.now [] count ++ second_list Op.Split base.now count ≡ base.now }
    ensures cut { length (list_after Op.Split base.now [] count) ≡ min count (length base.now) }
{}

/// `has` tells 1 for an item of the list, and 0 for any other.
pub fn has_is_membership(base: &[u64], item: u64)
    ensures yes { (reply_of Op.Has base.now [] item ≡ Reply.Number 1) ↔ Contains base.now item }
    ensures no { (reply_of Op.Has base.now [] item ≡ Reply.Number 0) ↔ (¬ Contains base.now item) }
{}

/// `upto` cuts a rising list in two: its items and then those above the bound make the base.
pub fn upto_and_above_make_base(base: &[u64], bound: u64)
    requires { IsNonDecreasing base.now }
    ensures { list_after Op.Upto base.now [] bound ++ filter (λ item. nat_lt bound item) base.now ≡ base.now }
{}

/// `meld` gives the same heap from either side, where it isn't too long.
pub fn meld_is_commutative(base: &[u64], other: &[u64])
    requires { length base.now + length other.now ≤ most_items }
    ensures { effect Op.Meld base.now other.now 0 ≡ effect Op.Meld other.now base.now 0 }
{}

/// The list of a heap, a priority queue or an ordered sequence never falls from left to right, so two equal multisets
/// are one list.
pub fn ordered_kinds_rise(events: &[Event], version: u32, kind: Kind)
    requires script { IsScript events.now }
    requires of_kind { kind_of (event_of events.now) (event_name version) ≡ Some kind }
    requires ordered { keeps_order kind ≡ true }
    ensures { IsNonDecreasing (plain (event_of events.now) version) }
{}
