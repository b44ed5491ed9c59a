//! The level is put that a middle's value and one digit make, where nothing of the other digit is left.
ghost use Rattle.std.specs.Prelude.{◌≡◌, ◌≤◌, ◌-◌, true};
ghost use Rattle.heap_store.specs.World.{recs, holds};
ghost use Rattle.heap_store.specs.View.{Quiet};
ghost use Rattle.finger_level.specs.Reads.{is_digit_rec, is_node_rec};
ghost use Rattle.finger_level.specs.Pops.{IsUpper};
ghost use Rattle.finger_level.specs.NearDraws.{IsWeighedNode, DrawnAsk, DrawnPut};

use crate::few::{WeighedFew, Weight};
use crate::level::{Family, Side};
use crate::near_puts::put_near;
use crate::pops::{both_ends, drawn_level, few_of_group, take_end};
use crate::puts::{put_level, put_weighed_tail};
use crate::reads::{group_elements, read_weighed};
use heap_store::{Heap, Run};
use lazy_rec::{Item, Rec, Ref};

/// Publishes the level that the middle's value at `q` and the digit at `p` make: its items weigh `whole`. In a tree without keys,
/// where the middle is deep, only its record, its digit at that end and the node there are read. Where the digit has no other
/// node, what is left of the middle is a suspended tail.
pub fn put_drawn<H: Heap>(
    h: &mut H,
    side: Side,
    q: Ref,
    p: Ref,
    whole: Weight,
    family: &Family,
    keyed: bool,
    run: &mut Run,
) -> Ref
    requires upper { IsUpper (H.view h.old).seen q.0 }
    requires digit { holds (recs (H.view h.old).seen) p.0 is_digit_rec ≡ true }
    requires ask { DrawnAsk (H.view h.old) run.old side q.0 p.0 family.now whole }
    ensures { DrawnPut (H.view h.old) (H.view h.new) run.old run.new side q.0 p.0 family.now keyed whole result.0 }
{
    if keyed {
        return put_made(h, side, q, p, whole, family, keyed, run);
    }
    let Rec::Deep {
        left,
        middle,
        right,
        size,
        ..
    } = h.read(q)
    else {
        return put_made(h, side, q, p, whole, family, keyed, run);
    };
    let (near, far) = both_ends(side, left, right);
    let digit = read_weighed(h, near);
    let taken = take_end(side, digit.few);
    let node = read_weighed_node(h, taken.element);
    let inner = without(size, node.weight.size);
    let Some(rest) = taken.rest else {
        let tail = put_weighed_tail(h, side, middle, far, inner, family, run);
        return put_near(h, side, node.few, node.weight, tail, p, whole, run);
    };
    let less = without(digit.weight.size, node.weight.size);
    let shorter = put_near(h, side, rest, less, middle, far, inner, run);
    put_near(h, side, node.few, node.weight, shorter, p, whole, run)
}

/// The same by the whole level.
#[inline(never)]
fn put_made<H: Heap>(
    h: &mut H,
    side: Side,
    q: Ref,
    p: Ref,
    whole: Weight,
    family: &Family,
    keyed: bool,
    run: &mut Run,
) -> Ref
    requires upper { IsUpper (H.view h.old).seen q.0 }
    requires digit { holds (recs (H.view h.old).seen) p.0 is_digit_rec ≡ true }
    requires ask { DrawnAsk (H.view h.old) run.old side q.0 p.0 family.now whole }
    ensures { DrawnPut (H.view h.old) (H.view h.new) run.old run.new side q.0 p.0 family.now keyed whole result.0 }
{
    let level = drawn_level(h, side, q, p);
    put_level(h, level, whole, family, keyed, run)
}

/// The weight of what is left of `size` items without `taken` of them, in a tree without keys.
fn without(size: u32, taken: u32) -> Weight
    requires { taken ≤ size }
    ensures size { result.size ≡ size - taken }
    ensures bare { result.key.0 ≡ 0 }
{
    Weight {
        size: size - taken,
        key: Item(0),
    }
}

/// The elements of a node as those of a digit, and what they weigh in a tree without keys.
fn read_weighed_node<H: Heap>(h: &mut H, e: Ref) -> WeighedFew
    requires { holds (recs (H.view h.old).seen) e.0 is_node_rec ≡ true }
    ensures quiet { Quiet (H.view h.old) (H.view h.new) }
    ensures node { IsWeighedNode (H.view h.old).seen e.0 result }
{
    match h.read(e) {
        Rec::Node {
            count,
            e1,
            e2,
            e3,
            size,
            ..
        } => {
            let group = group_elements(count, e1, e2, e3);
            let weight = Weight { size, key: Item(0) };
            WeighedFew {
                few: few_of_group(group),
                weight,
            }
        }
        _ => unreachable!(),
    }
}
