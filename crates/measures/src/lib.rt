//! Measures of finger trees: what a tree caches of the items below a place, as a monoid on numbers, with its laws
//! (Hinze and Paterson, Finger trees: a simple general-purpose data structure, section 4).
#![tactic(auto)]

ghost use Rattle.std.specs.Prelude.{◌≡◌, ℕ, ◌<◌, ◌^◌, List, [], ◌∷◌, ◌++◌, map};
ghost use Rattle.lazy_rec.specs.declared.places.Item.{Item};
ghost use Rattle.measures.specs.Values.{value_of};

use lazy_rec::Item;

pub mod greatest;
pub mod last_key;
pub mod size;

pub use greatest::Greatest;
pub use last_key::LastKey;
pub use size::Size;

/// What is known of a part of a structure, as one number: of no item, of one item, and of two parts side by side.
pub trait Measure {
    // the numbers may be the values of neighbouring parts of one structure, from left to right
    ghost AreValues: { List ℕ → Type 0 };

    ghost unit_value: { ℕ };

    ghost joined: { ℕ → ℕ → ℕ };

    ghost item_value: { Item → ℕ };

    /// The value of no item.
    fn unit() -> u128
        ensures { result ≡ unit_value };

    /// The value of two parts side by side, from theirs.
    fn join(a: u128, b: u128) -> u128
        requires { AreValues (a ∷ b ∷ []) }
        ensures { result ≡ joined a b };

    /// The value of one item.
    fn of(item: Item) -> u128
        ensures { result ≡ item_value item };

    ghost is_associative: { (a b c : ℕ) → AreValues (a ∷ b ∷ c ∷ []) → joined (joined a b) c ≡ joined a (joined b c) };

    ghost unit_on_the_left: { (a : ℕ) → AreValues (a ∷ []) → joined unit_value a ≡ a };

    ghost unit_on_the_right: { (a : ℕ) → AreValues (a ∷ []) → joined a unit_value ≡ a };

    // one item has a value
    ghost item_is_value: { (item : Item) → item.0 < 2 ^ 64 → AreValues (item_value item ∷ []) };

    // neighbours that are joined have a value, beside all other parts
    ghost join_is_value: { (before : List ℕ) (a b : ℕ) (after : List ℕ) → AreValues (before ++ a ∷ b ∷ after) → AreValues (before ++ joined a b ∷ after) };

    // a part without items has a value, beside all other parts
    ghost unit_is_value: { (before after : List ℕ) → AreValues (before ++ after) → AreValues (before ++ unit_value ∷ after) };

    // the values of some neighbours are values
    ghost part_is_value: { (before part after : List ℕ) → AreValues (before ++ part ++ after) → AreValues part };
}

/// The value of a row of items.
pub fn measured<M: Measure>(items: &[Item]) -> u128
    requires { M.AreValues (map M.item_value items.now) }
    ensures { result ≡ value_of M.joined M.unit_value M.item_value items.now }
{
    let mut value = M::unit();
    for item in items {
        value = M::join(value, M::of(*item));
    }
    value
}

#[cfg(test)]
mod tests {
    use super::*;

    /// Three instances on the same items. By hand: three items; the greatest is 9; the last is 7.
    #[test]
    fn of_the_same_items(rt: HostRuntime) {
        let items = [Item(5), Item(9), Item(7)];
        assert_eq!(rt; measured::<Size>(&items), 3);
        assert_eq!(rt; measured::<Greatest>(&items), 10);
        assert_eq!(rt; measured::<LastKey>(&items), 8);
    }

    /// No items, and the greatest item that there is.
    #[test]
    fn at_the_ends(rt: HostRuntime) {
        assert_eq!(rt; measured::<Size>(&[]), 0);
        assert_eq!(rt; measured::<Greatest>(&[]), 0);
        assert_eq!(rt; measured::<LastKey>(&[]), 0);
        let items = [Item(u64::MAX), Item(0)];
        assert_eq!(rt; measured::<Greatest>(&items), 18_446_744_073_709_551_616);
        assert_eq!(rt; measured::<LastKey>(&items), 1);
    }
}
