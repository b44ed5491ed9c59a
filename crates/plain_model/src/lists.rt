//! Small questions about lists of items.

ghost use Rattle.std.specs.Prelude.{◌≡◌, ◌==◌, drop, leb, nat_lt, position, slice_get, take};
ghost use Rattle.lazy_rec.specs.Plain.{contains, last_of, most_items, told};

use lazy_rec::Reply;
use lazy_rec::limits::MOST_ITEMS;

/// Whether a version may have so many items.
pub(crate) fn is_allowed(items: usize) -> bool
    ensures { result ≡ leb items most_items }
{
    items <= MOST_ITEMS as usize
}

/// The reply that tells an item, or that there is none.
pub(crate) fn reply_of(item: Option<u64>) -> Reply
    ensures { result ≡ told item }
{
    match item {
        None => Reply::Empty,
        Some(number) => Reply::Number(number),
    }
}

/// The first place whose item is above `bound`.
pub(crate) fn first_above(list: &[u64], bound: u64) -> Option<usize>
    ensures { result ≡ position (λ y. nat_lt bound y) list.now }
{
    list.iter().position(|item| bound < *item)
}

/// The first place of an item.
pub(crate) fn first_equal(list: &[u64], wanted: u64) -> Option<usize>
    ensures { result ≡ position (λ y. wanted == y) list.now }
{
    list.iter().position(|item| wanted == *item)
}

/// The last item.
pub(crate) fn last_item(list: &[u64]) -> Option<u64>
    ensures { result ≡ last_of list.now }
{
    list.last().copied()
}

/// The item at a place, counted from 0.
pub(crate) fn item_at(list: &[u64], place: u64) -> Option<u64>
    ensures { result ≡ slice_get list.now place }
{
    list.get(place as usize).copied()
}

/// Whether an item is in the list.
pub(crate) fn has(list: &[u64], item: u64) -> bool
    ensures { result ≡ contains item list.now }
{
    list.contains(&item)
}

/// The first items, as many as `count` says or there are.
pub(crate) fn first_items(list: &[u64], count: u64) -> &[u64]
    ensures { result.now ≡ take count list.now }
{
    &list[..list.len().min(count as usize)]
}

/// The items behind the first ones, which are as many as `count` says or there are.
pub(crate) fn items_behind(list: &[u64], count: u64) -> &[u64]
    ensures { result.now ≡ drop count list.now }
{
    &list[list.len().min(count as usize)..]
}
