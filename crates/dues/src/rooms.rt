//! The room of a script and the sum of its size bounds, in one pass over its events.

ghost use Rattle.std.specs.Prelude.{◌≡◌, ℕ, suc, ◌+◌, ◌*◌, ◌≤◌, ◌<◌, ◌^◌, [], ◌∷◌, min, cond, List, IfOk, IfSome, false, length, slice_get, vec_capacity};
ghost use Rattle.lazy_rec.specs.declared.events.Event.{Event};
ghost use Rattle.lazy_rec.specs.declared.limits.TheConstants.{MOST_EVENTS};
ghost use Rattle.lazy_rec.specs.Kinds.{is_split};
ghost use Rattle.lazy_rec.specs.History.{event_name, event_of, kind_of, IsScript};
ghost use Rattle.dues.specs.Sizes.{size_bound, second_bound};
ghost use Rattle.dues.specs.Rooms.{room, room_at_sizes, places, places_of, places_at_size, model_size};
ghost use Rattle.dues.specs.Versions.{no_bounds, bound_at, next_bounds, next_places};

use crate::sizes::{bound_from_base, joined, one_less, one_more, second_bound};
use crate::tables::{digits, direct, due};
use lazy_rec::{Event, Kind, NoMemory, Op, event_name, is_second};
use std::alloc::Global;

/// The size bounds of a name: its first version's, and its second's, 0 where there is one version.
#[derive(Clone, Copy)]
struct SizeBounds {
    first: u32,
    second: u32,
}

/// What is kept of the names before the first event: of name 0, which stands for no version. So many events fit behind it.
fn before_all(alloc: Global, events: usize) -> Result<Vec<SizeBounds>, NoMemory>
    requires { events ≤ MOST_EVENTS }
    ensures none { IfOk result (λ kept. kept.items ≡ no_bounds ∷ []) }
    ensures room { IfOk result (λ kept. events < vec_capacity kept) }
{
    let mut kept = Vec::with_capacity(alloc, events + 1).map_err(|_| NoMemory)?;
    kept.push_reserved(SizeBounds {
        first: 0,
        second: 0,
    });
    Ok(kept)
}

/// The size bound of a version of a name so far.
#[inline(always)]
fn bound_at(kept: &[SizeBounds], version: u32) -> u32
    requires { event_name version < length kept.now }
    ensures { result ≡ bound_at kept.now version }
{
    let name = event_name(version) as usize;
    if is_second(version) {
        kept[name].second
    } else {
        kept[name].first
    }
}

/// The size bound of the second version that an event makes, 0 where it makes none.
#[inline(always)]
fn bound_of_second(event: &Event, b1: u32) -> u32
    ensures { result ≡ cond (is_split event.now.op) (second_bound b1 event.now.arg) 0 }
{
    match event.op {
        Op::Split => second_bound(event, b1),
        _ => 0,
    }
}

/// The size bounds of the versions that an event makes, from the bound `b1` of its base.
#[inline(never)]
fn next_bounds(kept: &[SizeBounds], event: &Event, b1: u32) -> SizeBounds
    requires base { b1 ≡ bound_at kept.now event.now.base }
    requires other { event_name event.now.other < length kept.now }
    ensures { (result.first, result.second) ≡ next_bounds kept.now event.now }
{
    let first = match bound_from_base(event, b1) {
        Some(bound) => bound,
        None => joined(b1, bound_at(kept, event.other)),
    };
    SizeBounds {
        first,
        second: bound_of_second(event, b1),
    }
}

/// The places that an event of a kind may take, where they don't depend on the sizes of its bases. An insert into a heap isn't among
/// them, though it takes a fixed number: a script that fills a heap also takes minimums, so its first insert tells that sizes count.
#[inline(always)]
fn fixed_places(kind: Kind, op: Op) -> Option<u64>
    ensures { IfSome result (λ p. (n m : ℕ) → places kind op n m ≡ p) }
{
    match (kind, op) {
        (_, Op::Size | Op::Head | Op::First | Op::Last | Op::Nth | Op::Max | Op::Has) => Some(0),
        (Kind::Stream | Kind::Bankq | Kind::Rtq | Kind::Heap, Op::New(_)) => Some(1),
        (_, Op::New(_)) => Some(0),
        (Kind::Stream, Op::Cons) => Some(2),
        (Kind::Stream, Op::Tail) => Some(1),
        (Kind::Bankq | Kind::Rtq, Op::Snoc) => Some(3 + 8),
        (Kind::Bankq, Op::Tail) => Some(2 + 8 * 2),
        (Kind::Rtq, Op::Tail) => Some(2 + 8),
        (Kind::Cat, Op::Cons | Op::Snoc | Op::Append) => Some(6 + 8),
        _ => None,
    }
}

/// The places that an event of a kind may take: its own, and eight for each step that its due pays.
#[inline(never)]
fn places_by_size(kind: Kind, op: Op, n1: u32, n2: u32) -> u64
    ensures { result ≡ places kind op n1 n2 }
{
    direct(kind, op, n1, n2) + 8 * due(kind, op, n1, n2)
}

/// The same, from the bound `n1` of its base. It looks at its other version only where the places may depend on it.
#[inline(never)]
fn next_places(kept: &[SizeBounds], kind: Kind, event: &Event, n1: u32) -> u64
    requires base { n1 ≡ bound_at kept.now event.now.base }
    requires other { event_name event.now.other < length kept.now }
    ensures { result ≡ next_places kept.now kind event.now }
{
    if let Some(places) = fixed_places(kind, event.op) {
        return places;
    }
    places_by_size(kind, event.op, n1, bound_at(kept, event.other))
}

/// The places of an event and the size bound of the one version that it makes, of the operations that scripts of heaps and sequences
/// have most. Both depend on the size bound `n1` of its base alone, and one look at the operation tells them.
#[inline(always)]
fn count_by_base(kind: Kind, op: Op, n1: u32) -> Option<(u64, u32)>
    ensures places { IfSome result (λ counted. (m : ℕ) → places kind op n1 m ≡ counted.0) }
    ensures bound { IfSome result (λ counted. (m x : ℕ) → size_bound op n1 m x ≡ counted.1) }
    ensures one { IfSome result (λ counted. is_split op ≡ false) }
{
    let n = n1 as u64;
    match (op, kind) {
        (Op::Insert, Kind::Heap) => Some((2 + 8 * 2, one_more(n1))),
        (Op::Min, Kind::Heap) => Some((1 + 8 * digits(n), n1)),
        (Op::Delmin, Kind::Heap) => Some((2 * digits(n) + 3 + 8 * 2 * digits(n), one_less(n1))),
        (Op::Pushl | Op::Pushr, Kind::Seq) => Some((6 + 8 * digits(n + 1), one_more(n1))),
        (Op::Popl | Op::Popr, Kind::Seq) => Some((6 + 8 * digits(n), one_less(n1))),
        _ => None,
    }
}

/// What one pass counts of an event: its places, and the size bounds of the versions that it makes.
#[derive(Clone, Copy)]
struct Counted {
    places: u64,
    bounds: SizeBounds,
}

/// What an event counts, from the bound `n1` of its base: at once where this is enough, else by the tables.
#[inline(always)]
fn count_event(kept: &[SizeBounds], kind: Kind, event: &Event, n1: u32) -> Counted
    requires base { n1 ≡ bound_at kept.now event.now.base }
    requires other { event_name event.now.other < length kept.now }
    ensures places { result.places ≡ next_places kept.now kind event.now }
    ensures bounds { (result.bounds.first, result.bounds.second) ≡ next_bounds kept.now event.now }
{
    match count_by_base(kind, event.op, n1) {
        Some((places, first)) => Counted {
            places,
            bounds: SizeBounds { first, second: 0 },
        },
        None => Counted {
            places: next_places(kept, kind, event, n1),
            bounds: next_bounds(kept, event, n1),
        },
    }
}

/// The room of a script, or `most` where this is less. The room is the sum over its events of `direct + 8 * due`, at the size
/// bounds of their bases in place of sizes. A store with so many free nodes is never full in a run of the script. It is below
/// 2^54. The kinds are those of the events, in order. No script is given a store of more places than the largest has, so the pass
/// ends where it has counted more than `most`, and the rest of the script isn't read.
#[inline(never)]
pub fn room(alloc: Global, kinds: &[Kind], events: &[Event], most: u64) -> Result<u64, NoMemory>
    requires script { IsScript events.now }
    requires many { length kinds.now ≡ length events.now }
    requires kinds { (i : ℕ) → i < length events.now → slice_get kinds.now i ≡ kind_of (event_of events.now) (suc i) }
    ensures { IfOk result (λ places. places ≡ min (room events.now) most) }
{
    let mut kept = before_all(alloc, events.len())?;
    let mut left = most;
    for i in 0..events.len() {
        let event = &events[i];
        let seen = kept.as_slice();
        let base = bound_at(seen, event.base);
        let counted = count_event(seen, kinds[i], event, base);
        let Some(rest) = left.checked_sub(counted.places) else {
            return Ok(most);
        };
        left = rest;
        kept.push_reserved(counted.bounds);
    }
    Ok(most - left)
}

/// The room where no event's places depend on sizes and none is an insert into a heap, as in a script of queues; else nothing. It
/// reads the kinds of the events, in order, and takes no memory. Such events take at most 18 places each, so that a limit would hardly
/// end the pass earlier.
#[inline(never)]
pub fn fixed_room(kinds: &[Kind], events: &[Event]) -> Option<u64>
    requires script { IsScript events.now }
    requires many { length kinds.now ≡ length events.now }
    requires kinds { (i : ℕ) → i < length events.now → slice_get kinds.now i ≡ kind_of (event_of events.now) (suc i) }
    ensures { IfSome result (λ places. places ≡ room events.now) }
{
    let mut total = 0;
    for i in 0..events.len() {
        let Some(places) = fixed_places(kinds[i], events[i].op) else {
            return None;
        };
        total += places;
    }
    Some(total)
}

/// The sum of the size bounds of all versions of a script, both of a split: what a model that copies lists holds at most.
/// It is below 2^49.
pub fn model_size(alloc: Global, events: &[Event]) -> Result<u64, NoMemory>
    requires { IsScript events.now }
    ensures { IfOk result (λ items. items ≡ model_size events.now) }
{
    let mut kept = before_all(alloc, events.len())?;
    let mut total = 0;
    for event in events {
        let seen = kept.as_slice();
        let base = bound_at(seen, event.base);
        let bounds = next_bounds(seen, event, base);
        total += bounds.first as u64 + bounds.second as u64;
        kept.push_reserved(bounds);
    }
    Ok(total)
}

/// The room covers what the events take and are charged at the true sizes of their bases: each event by itself, and all.
pub fn room_covers()
    ensures each { (events : List Event) (i : ℕ) → let named = event_of events in places_at_size named (kind_of named i) (named i) ≤ places_of named (kind_of named i) (named i) }
    ensures all { (events : List Event) → room_at_sizes events ≤ room events }
{}

/// The room of every script is below 2^54, and the sum of its size bounds below 2^49.
pub fn room_fits()
    ensures room { (events : List Event) → IsScript events → room events < 2 ^ 54 }
    ensures model_size { (events : List Event) → IsScript events → model_size events < 2 ^ 49 }
{}

#[cfg(test)]
mod tests {
    use super::*;
    use std::test::Fail;

    /// Events by operation, base, other and argument.
    macro_rules! events {
        ($($op:expr, $base:literal $other:literal $arg:literal;)*) => {
            [$(Event { op: $op, base: $base, other: $other, arg: $arg }),*]
        };
    }

    /// The smallest rotation: a queue, one item in, looked at, taken out, looked at again.
    const ROTATION: [Event; 5] = events! {
        Op::New(Kind::Bankq), 0 0 0;
        Op::Snoc, 1 0 5;
        Op::Head, 2 0 0;
        Op::Tail, 2 0 0;
        Op::Head, 4 0 0;
    };

    /// A sequence of two items that is cut, and its second part cut again.
    const CUTS: [Event; 6] = events! {
        Op::New(Kind::Seq), 0 0 0;
        Op::Pushr, 1 0 1;
        Op::Pushr, 2 0 2;
        Op::Split, 3 0 1;
        Op::Split, 2147483652 0 5;
        Op::First, 2147483653 0 0;
    };

    /// By hand the events take 1, 3 + 8 * 1, 0, 2 + 8 * 2 and 0 places, one more than the limit here, and the size bounds are 0, 1, 1,
    /// 0 and 0.
    #[test]
    fn smallest_rotation(rt: HostRuntime) -> Result<(), Fail> {
        assert_eq!(rt; room(rt.alloc(), &[Kind::Bankq; 5], &ROTATION, 29)?, 29);
        assert_eq!(rt; model_size(rt.alloc(), &ROTATION)?, 2);
        Ok(())
    }

    /// By hand the events take 0, 6 + 8 * 1, 6 + 8 * 2, 24 + 8 * 8, 16 + 8 * 2 and 0 places, just the limit here, and the size bounds
    /// are 0, 1, 2, 1 and 1, 1 and 0, and 0.
    #[test]
    fn second_versions(rt: HostRuntime) -> Result<(), Fail> {
        assert_eq!(rt; room(rt.alloc(), &[Kind::Seq; 6], &CUTS, 156)?, 156);
        assert_eq!(rt; model_size(rt.alloc(), &CUTS)?, 6);
        Ok(())
    }
}
