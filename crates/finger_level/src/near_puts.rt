//! A deep tree of which only the digit of one side is new is put.
ghost use Rattle.std.specs.Prelude.{Bool, ◌≡◌, length, flat_map};
ghost use Rattle.lazy_rec.specs.Meaning.{means};
ghost use Rattle.heap_store.specs.World.{recs};
ghost use Rattle.finger_level.specs.Few.{few_list};
ghost use Rattle.finger_level.specs.Keyed.{HasKeys, AreKeyed, key_in};
ghost use Rattle.finger_level.specs.NearPuts.{NearAsk, NearPut};

use crate::few::{Few, Weight};
use crate::level::Side;
use crate::pops::both_ends;
use crate::puts::put_few;
use heap_store::{Heap, Run};
use lazy_rec::{Rec, Ref};

/// Publishes a digit of the weight `weight`, and the deep tree that has it on the side, over a middle and another digit that stand.
#[inline(always)]
pub(crate) fn put_near<H: Heap>(
    h: &mut H,
    side: Side,
    near: Few,
    weight: Weight,
    middle: Ref,
    far: Ref,
    whole: Weight,
    run: &mut Run,
) -> Ref
    requires ask { NearAsk (H.view h.old) run.old side near middle far whole }
    requires counts { weight.size ≡ length (flat_map (means (recs (H.view h.old).seen)) (few_list near)) }
    ensures put { NearPut (H.view h.old) (H.view h.new) run.old run.new side near middle far whole result.0 }
    ensures keys { (keyed : Bool) → AreKeyed keyed (H.view h.old).seen (few_list near) → weight.key.0 ≡ key_in keyed (flat_map (means (recs (H.view h.old).seen)) (few_list near)) → HasKeys keyed (H.view h.old).seen middle.0 → HasKeys keyed (H.view h.old).seen far.0 → whole.key.0 ≡ key_in keyed (means (recs (H.view h.new).seen) result.0) → HasKeys keyed (H.view h.new).seen result.0 }
{
    let digit = put_few(h, near, weight, run);
    let (left, right) = both_ends(side, digit, far);
    h.put(
        run,
        Rec::Deep {
            left,
            middle,
            right,
            size: whole.size,
            key: whole.key,
        },
    )
}
