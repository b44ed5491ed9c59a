//! A value with elements pushed onto an end is put. Of one element onto a deep tree only the root and the digit at that end are read, and
//! where that digit overflows what its elements and the middle weigh.
ghost use Rattle.std.specs.Prelude.{◌≡◌, ◌≤◌, ◌+◌, ◌∷◌, [], Some, None, length, max, true, cond};
ghost use Rattle.std.specs.List.{AllByRecursion};
ghost use Rattle.heap_store.specs.World.{recs, holds};
ghost use Rattle.finger_level.specs.Few.{few_list};
ghost use Rattle.finger_level.specs.Reads.{is_element, is_tree_value, IsWeight};
ghost use Rattle.finger_level.specs.Pushes.{pushed_list, beside};
ghost use Rattle.finger_level.specs.NearPushes.{IsOverflow, PushedAsk, PushedPut};

use crate::few::{Few, Group, Weight};
use crate::level::{Family, Nodes, Pushed, Side};
use crate::near_puts::put_near;
use crate::pops::both_ends;
use crate::pushes::pushed_level;
use crate::puts::{put_level, put_push};
use crate::reads::{read_weighed, weigh};
use heap_store::{Heap, Run};
use lazy_rec::{Item, Rec, Ref};

/// Publishes the value at `root` with the element `e`, of the weight `own`, pushed onto an end. All its items weigh `whole`.
pub fn put_pushed<H: Heap>(
    h: &mut H,
    side: Side,
    e: Ref,
    own: Weight,
    root: Ref,
    whole: Weight,
    family: &Family,
    keyed: bool,
    run: &mut Run,
) -> Ref
    requires value { holds (recs (H.view h.old).seen) root.0 is_tree_value ≡ true }
    requires element { holds (recs (H.view h.old).seen) e.0 is_element ≡ true }
    requires weight { IsWeight (H.view h.old).seen e.0 own }
    requires ask { PushedAsk (H.view h.old) run.old side (Pushed.One e) root.0 family.now whole }
    ensures { PushedPut (H.view h.old) (H.view h.new) run.old run.new side (Pushed.One e) root.0 family.now keyed whole result.0 }
{
    let Rec::Deep {
        left,
        middle,
        right,
        ..
    } = h.read(root)
    else {
        return put_whole(h, side, Pushed::One(e), root, whole, family, keyed, run);
    };
    let (near, far) = both_ends(side, left, right);
    let digit = read_weighed(h, near);
    let Some(few) = longer(side, e, digit.few) else {
        let over = overflowed(side, e, digit.few);
        let next = weigh(h, over.next);
        let node = Nodes::One(over.node);
        let below = put_push(h, side, Some(middle), node, family, keyed, run);
        let weight = weigh_both(next, own, keyed);
        return put_near(h, side, over.kept, weight, below, far, whole, run);
    };
    let weight = weigh_both(digit.weight, own, keyed);
    put_near(h, side, few, weight, middle, far, whole, run)
}

/// The same of one or two elements, which are weighed: a suspended push.
pub fn put_pushes<H: Heap>(
    h: &mut H,
    side: Side,
    es: Pushed,
    root: Ref,
    whole: Weight,
    family: &Family,
    keyed: bool,
    run: &mut Run,
) -> Ref
    requires value { holds (recs (H.view h.old).seen) root.0 is_tree_value ≡ true }
    requires elements { AllByRecursion (λ e. holds (recs (H.view h.old).seen) e is_element ≡ true) (pushed_list es) }
    requires ask { PushedAsk (H.view h.old) run.old side es root.0 family.now whole }
    ensures { PushedPut (H.view h.old) (H.view h.new) run.old run.new side es root.0 family.now keyed whole result.0 }
{
    match es {
        Pushed::One(e) => {
            let own = weigh(h, e);
            put_pushed(h, side, e, own, root, whole, family, keyed, run)
        }
        Pushed::Two(_, _) => put_whole(h, side, es, root, whole, family, keyed, run),
    }
}

/// The same by the whole level that the push makes: of two elements, or onto a tree of no or one element.
#[inline(never)]
fn put_whole<H: Heap>(
    h: &mut H,
    side: Side,
    es: Pushed,
    root: Ref,
    whole: Weight,
    family: &Family,
    keyed: bool,
    run: &mut Run,
) -> Ref
    requires value { holds (recs (H.view h.old).seen) root.0 is_tree_value ≡ true }
    requires ask { PushedAsk (H.view h.old) run.old side es root.0 family.now whole }
    ensures { PushedPut (H.view h.old) (H.view h.new) run.old run.new side es root.0 family.now keyed whole result.0 }
{
    let level = pushed_level(h, side, es, root);
    put_level(h, level, whole, family, keyed, run)
}

/// A digit with one more element at the end of a side, where it has room.
#[inline(always)]
fn longer(side: Side, e: Ref, few: Few) -> Option<Few>
    ensures longer { (f : Few) → result ≡ Some f → few_list f ≡ beside side (e.0 ∷ []) (few_list few) }
    ensures full { result ≡ None → length (few_list few) ≡ 4 }
{
    let more = match side {
        Side::Left => match few {
            Few::One(a) => Few::Two(e, a),
            Few::Two(a, b) => Few::Three(e, a, b),
            Few::Three(a, b, c) => Few::Four(e, a, b, c),
            Few::Four(_, _, _, _) => return None,
        },
        Side::Right => match few {
            Few::One(a) => Few::Two(a, e),
            Few::Two(a, b) => Few::Three(a, b, e),
            Few::Three(a, b, c) => Few::Four(a, b, c, e),
            Few::Four(_, _, _, _) => return None,
        },
    };
    Some(more)
}

/// A full digit onto which an element is pushed: the two elements that it keeps, of them the one that it had, and the node of the
/// other three.
#[derive(Clone, Copy)]
pub struct Overflow {
    pub kept: Few,
    pub next: Ref,
    pub node: Group,
}

/// What becomes of a full digit onto which an element is pushed.
#[inline(always)]
fn overflowed(side: Side, e: Ref, few: Few) -> Overflow
    requires { length (few_list few) ≡ 4 }
    ensures { IsOverflow side e.0 few result }
{
    let Few::Four(a, b, c, d) = few else {
        unreachable!()
    };
    match side {
        Side::Left => Overflow {
            kept: Few::Two(e, a),
            next: a,
            node: Group::Three(b, c, d),
        },
        Side::Right => Overflow {
            kept: Few::Two(d, e),
            next: d,
            node: Group::Three(a, b, c),
        },
    }
}

/// The weight of two parts. A tree without keys has 0 for each key.
fn weigh_both(one: Weight, other: Weight, keyed: bool) -> Weight
    requires { one.size + other.size ≤ 2147483647 }
    ensures size { result.size ≡ one.size + other.size }
    ensures key { result.key.0 ≡ cond keyed (max one.key.0 other.key.0) 0 }
{
    let key = one.key.0.max(other.key.0);
    Weight {
        size: one.size + other.size,
        key: Item(if keyed { key } else { 0 }),
    }
}
