//! The places of inserts and merges, from the sizes of their lists.
ghost use Rattle.std.specs.Prelude.{◌≡◌};
ghost use Rattle.binom_heap.specs.Work.{insert_places, merge_places_of};

use lazy_rec::{bits, ones, trailing_ones};

/// The places of an insert into a list of so many items.
pub(crate) fn insert_places(size: u32) -> u32
    ensures { result ≡ insert_places size }
{
    2 * (trailing_ones(u64::from(size)) + 1)
}

/// The places of a merge of lists of so many items: a cell for each rank that both lists reach and at which one of them has a tree,
/// and two places for each link, which leaves a tree less.
pub(crate) fn merge_places(n1: u32, n2: u32) -> u32
    ensures { result ≡ merge_places_of n1 n2 }
{
    let n = u64::from(n1);
    let m = u64::from(n2);
    let reached = (1u64 << bits(n.min(m))) - 1;
    let cells = ones((n | m) & reached);
    cells + 2 * (ones(n) + ones(m)) - 2 * ones(n + m)
}
