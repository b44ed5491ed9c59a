//! Bounds on the sizes of versions, read off the events alone.

ghost use Rattle.std.specs.Prelude.{◌≡◌, ℕ, ◌+◌, ◌≤◌, ◌-◌, List, None, IfSome, length, min};
ghost use Rattle.lazy_rec.specs.declared.events.Event.{Event};
ghost use Rattle.lazy_rec.specs.Plain.{most_items};
ghost use Rattle.lazy_rec.specs.History.{event_of, plain};
ghost use Rattle.dues.specs.Sizes.{at_most_all, size_bound, second_bound, bound_of};

use lazy_rec::limits::MOST_ITEMS;
use lazy_rec::{Event, Kind, Op};

/// The first so many of the items within a bound.
fn first_of(bound: u32, count: u64) -> u32
    ensures { result ≡ min bound count }
{
    (bound as u64).min(count) as u32
}

/// The items within a bound that are left behind the first so many.
fn rest_of(bound: u32, count: u64) -> u32
    ensures { result ≡ bound - count }
{
    (bound as u64).saturating_sub(count) as u32
}

/// One item more, as far as a version may have it.
#[inline(always)]
pub(crate) fn one_more(bound: u32) -> u32
    ensures { result ≡ at_most_all (bound + 1) }
{
    bound.min(MOST_ITEMS - 1) + 1
}

/// One item less.
#[inline(always)]
pub(crate) fn one_less(bound: u32) -> u32
    ensures { result ≡ bound - 1 }
{
    bound.saturating_sub(1)
}

/// The most items of what two versions have together.
#[inline(always)]
pub(crate) fn joined(b1: u32, b2: u32) -> u32
    ensures { result ≡ at_most_all (b1 + b2) }
{
    b1.saturating_add(b2).min(MOST_ITEMS)
}

/// The size bound of the version that an event makes, from that of its base; none where it joins two versions.
#[inline(always)]
pub(crate) fn bound_from_base(event: &Event, b1: u32) -> Option<u32>
    ensures alone { IfSome result (λ bound. (m : ℕ) → size_bound event.now.op b1 m event.now.arg ≡ bound) }
    ensures joins { result ≡ None → (m : ℕ) → size_bound event.now.op b1 m event.now.arg ≡ at_most_all (b1 + m) }
{
    match event.op {
        Op::New(_) => Some(0),
        Op::Cons | Op::Snoc | Op::Insert | Op::Pushl | Op::Pushr => Some(one_more(b1)),
        Op::Append | Op::Meld | Op::Concat => None,
        Op::Tail | Op::Delmin | Op::Delmax | Op::Popl | Op::Popr => Some(one_less(b1)),
        Op::Take | Op::Split => Some(first_of(b1, event.arg)),
        Op::Drop => Some(rest_of(b1, event.arg)),
        _ => Some(b1),
    }
}

/// The most items that the version of an event can have, from the bounds `b1` of its base and `b2` of its other version, 0
/// where there is none; of a split the first version. Operations of one name change the bound alike in all kinds.
#[inline(always)]
pub fn size_bound(_kind: Kind, event: &Event, b1: u32, b2: u32) -> u32
    ensures { result ≡ size_bound event.now.op b1 b2 event.now.arg }
{
    match bound_from_base(event, b1) {
        Some(bound) => bound,
        None => joined(b1, b2),
    }
}

/// The most items that the second version of a split can have, from the bound `b1` of its base: what is left behind the
/// first version.
pub fn second_bound(event: &Event, b1: u32) -> u32
    ensures { result ≡ second_bound b1 event.now.arg }
{
    rest_of(b1, event.arg)
}

/// A size bound is never below the size of the version, and never above the most items of one version.
pub fn size_bounds_hold()
    ensures enough { (events : List Event) (version : ℕ) → length (plain (event_of events) version) ≤ bound_of (event_of events) version }
    ensures within { (events : List Event) (version : ℕ) → bound_of (event_of events) version ≤ most_items }
{}
