//! The greatest item.
ghost use Rattle.std.specs.Prelude.{◌≡◌, ◌+◌, true, max};
ghost use Rattle.std.proofs.Common.{arith, rules};
ghost use Rattle.measures.specs.Values.{are_keys, keys_join_by_max, keys_with_none, keys_of_part, max_is_associative};

use crate::Measure;
use lazy_rec::Item;

/// One more than the greatest item, or 0 where there is none. Its values are 0 to 2^64.
pub struct Greatest;

impl Measure for Greatest {
    ghost AreValues = { λ values. are_keys values ≡ true };

    ghost unit_value = { 0 };

    ghost joined = { max };

    ghost item_value = { λ item. item.0 + 1 };

    fn unit() -> u128 {
        0
    }

    fn join(a: u128, b: u128) -> u128 {
        a.max(b)
    }

    fn of(item: Item) -> u128 {
        item.0 as u128 + 1
    }

    ghost is_associative = { λ a b c _. max_is_associative a b c };

    ghost unit_on_the_left = { λ a _. Prim.omega arith };

    ghost unit_on_the_right = { λ a _. Prim.omega arith };

    ghost item_is_value = { λ _ h. Prim.search rules };

    ghost join_is_value = { keys_join_by_max };

    ghost unit_is_value = { keys_with_none };

    ghost part_is_value = { keys_of_part };
}
