//! The number of items.
ghost use Rattle.std.specs.Prelude.{◌+◌};
ghost use Rattle.std.proofs.Common.{arith};
ghost use Rattle.measures.specs.Values.{AreCounts, counts_join, counts_with_none, counts_of_part};

use crate::Measure;
use lazy_rec::Item;

/// How many items a part has. Its values are numbers whose sum stays below 2^63.
pub struct Size;

impl Measure for Size {
    ghost AreValues = { AreCounts };

    ghost unit_value = { 0 };

    ghost joined = { λ a b. a + b };

    ghost item_value = { λ _. 1 };

    fn unit() -> u128 {
        0
    }

    fn join(a: u128, b: u128) -> u128 {
        a + b
    }

    fn of(_item: Item) -> u128 {
        1
    }

    ghost is_associative = { λ a b c _. Prim.omega arith };

    ghost unit_on_the_left = { λ a _. Prim.omega arith };

    ghost unit_on_the_right = { λ a _. Prim.omega arith };

    ghost item_is_value = { λ _ _. Prim.omega arith };

    ghost join_is_value = { counts_join };

    ghost unit_is_value = { counts_with_none };

    ghost part_is_value = { counts_of_part };
}
