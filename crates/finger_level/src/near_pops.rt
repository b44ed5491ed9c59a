//! What a pop leaves of a tree is put. Where elements of the digit at that end are left, only the root and that digit are read.
//! Where none is left, the middle is a value by then, and its node at that end becomes the digit.
ghost use Rattle.std.specs.Prelude.{◌≡◌, ◌≤◌, ◌+◌, true, length, flat_map};
ghost use Rattle.std.specs.List.{AllByRecursion};
ghost use Rattle.lazy_rec.specs.Meaning.{means};
ghost use Rattle.heap_store.specs.World.{recs, holds};
ghost use Rattle.heap_store.specs.View.{Quiet};
ghost use Rattle.finger_level.specs.Few.{few_list};
ghost use Rattle.finger_level.specs.Keyed.{AreKeyed, key_in};
ghost use Rattle.finger_level.specs.Reads.{is_element};
ghost use Rattle.finger_level.specs.Pops.{IsWhole};
ghost use Rattle.finger_level.specs.NearPops.{PoppedAsk, PoppedPut};

use crate::few::{Few, Weight};
use crate::level::{Family, Side};
use crate::near_draws::put_drawn;
use crate::near_puts::put_near;
use crate::pops::{Popped, both_ends, popped_level, take_end};
use crate::puts::{put_level, weigh_few};
use crate::reads::read_weighed;
use heap_store::{Heap, Run, value_place};
use lazy_rec::{Item, Rec, Ref};

/// Publishes the tree at `root` without the element at an end. The items that are left weigh `whole`.
#[inline]
pub fn put_popped<H: Heap>(
    h: &mut H,
    side: Side,
    root: Ref,
    whole: Weight,
    family: &Family,
    keyed: bool,
    run: &mut Run,
) -> Ref
    requires tree { IsWhole (H.view h.old).seen root.0 }
    requires ask { PoppedAsk (H.view h.old) run.old side root.0 family.now whole }
    ensures { PoppedPut (H.view h.old) (H.view h.new) run.old run.new side root.0 family.now keyed whole result.0 }
{
    let Rec::Deep {
        left,
        middle,
        right,
        size,
        ..
    } = h.read(root)
    else {
        return put_rest(h, side, root, whole, family, keyed, run);
    };
    let (near, far) = both_ends(side, left, right);
    let digit = read_weighed(h, near);
    let taken = take_end(side, digit.few);
    let Some(rest) = taken.rest else {
        return match value_place(h, middle) {
            Some(q) => put_drawn(h, side, q, far, whole, family, keyed, run),
            None => unreachable!(),
        };
    };
    let weight = weigh_rest(h, rest, digit.weight, size - whole.size, keyed);
    put_near(h, side, rest, weight, middle, far, whole, run)
}

/// The same of a tree of one element, by the level that is left.
#[inline(never)]
fn put_rest<H: Heap>(
    h: &mut H,
    side: Side,
    root: Ref,
    whole: Weight,
    family: &Family,
    keyed: bool,
    run: &mut Run,
) -> Ref
    requires tree { IsWhole (H.view h.old).seen root.0 }
    requires ask { PoppedAsk (H.view h.old) run.old side root.0 family.now whole }
    ensures { PoppedPut (H.view h.old) (H.view h.new) run.old run.new side root.0 family.now keyed whole result.0 }
{
    match popped_level(h, side, root) {
        Popped::Rest { level, .. } => put_level(h, level, whole, family, keyed, run),
        Popped::Nothing | Popped::Need(_) => unreachable!(),
    }
}

/// The weight of what is left of a digit of the weight `digit` without an element of `taken` items. Keys are read again, since
/// the greatest may have been the element's.
fn weigh_rest<H: Heap>(h: &mut H, rest: Few, digit: Weight, taken: u32, keyed: bool) -> Weight
    requires elements { AllByRecursion (λ e. holds (recs (H.view h.old).seen) e is_element ≡ true) (few_list rest) }
    requires small { length (flat_map (means (recs (H.view h.old).seen)) (few_list rest)) ≤ 2147483647 }
    requires counts { digit.size ≡ taken + length (flat_map (means (recs (H.view h.old).seen)) (few_list rest)) }
    ensures quiet { Quiet (H.view h.old) (H.view h.new) }
    ensures size { result.size ≡ length (flat_map (means (recs (H.view h.old).seen)) (few_list rest)) }
    ensures key { AreKeyed keyed (H.view h.old).seen (few_list rest) → result.key.0 ≡ key_in keyed (flat_map (means (recs (H.view h.old).seen)) (few_list rest)) }
{
    if keyed {
        return weigh_few(h, rest, keyed);
    }
    let size = digit.size - taken;
    Weight { size, key: Item(0) }
}
