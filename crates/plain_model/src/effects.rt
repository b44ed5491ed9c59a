//! The effect of one operation on plain lists, a small function for each group of operations.

ghost use Rattle.std.specs.Prelude.{◌≡◌, ◌++◌, ◌∷◌, [], take, drop, reverse, filter, leb, IfOk};
ghost use Rattle.lazy_rec.specs.Plain.{second_list, has_item, contains, grown, effect, insert_rising, rising, without_first_equal, without_item, without_last};
ghost use Rattle.plain_model.specs.Outcome.{Gives};

use crate::lists::{
    first_above, first_equal, first_items, has, is_allowed, item_at, items_behind, last_item,
    reply_of,
};
use lazy_rec::{Op, Reply};
use std::alloc::{AllocError, Global};

/// What an operation answers: the list of the new version, of a split the first one, and the reply.
#[derive(Drop)]
pub(crate) struct Outcome {
    pub(crate) list: Vec<u64>,
    pub(crate) reply: Reply,
}

/// A copy of a list as the new version, with a reply.
fn copied(alloc: Global, list: &[u64], reply: Reply) -> Result<Outcome, AllocError>
    ensures { IfOk result (Gives (list.now, reply)) }
{
    Ok(Outcome {
        list: Vec::from_slice(alloc, list)?,
        reply,
    })
}

/// The second list after the first one.
fn chained(alloc: Global, first: &[u64], second: &[u64]) -> Result<Vec<u64>, AllocError>
    ensures { IfOk result (λ list. list.items ≡ first.now ++ second.now) }
{
    let mut list = Vec::with_capacity(alloc, first.len() + second.len())?;
    list.extend_from_slice(first)?;
    list.extend_from_slice(second)?;
    Ok(list)
}

/// `cons`, `snoc`, `append`, `pushl`, `pushr` and `concat`: one list after the other, or the base where that would
/// be too long, which is tested before anything is built.
fn joined(alloc: Global, base: &[u64], first: &[u64], second: &[u64]) -> Result<Outcome, AllocError>
    ensures { IfOk result (Gives (grown base.now (first.now ++ second.now))) }
{
    if !is_allowed(first.len() + second.len()) {
        return copied(alloc, base, Reply::TooLong);
    }
    Ok(Outcome {
        list: chained(alloc, first, second)?,
        reply: Reply::Ok,
    })
}

/// `meld`: the items of both lists in rising order.
fn melded(alloc: Global, base: &[u64], other: &[u64]) -> Result<Outcome, AllocError>
    ensures { IfOk result (Gives (grown base.now (rising (base.now ++ other.now)))) }
{
    if !is_allowed(base.len() + other.len()) {
        return copied(alloc, base, Reply::TooLong);
    }
    let mut list = chained(alloc, base, other)?;
    list.sort()?;
    Ok(Outcome {
        list,
        reply: Reply::Ok,
    })
}

/// `insert`: the item after all that are not above it.
fn inserted(alloc: Global, base: &[u64], item: u64) -> Result<Outcome, AllocError>
    ensures { IfOk result (Gives (grown base.now (insert_rising item base.now))) }
{
    if !is_allowed(base.len() + 1) {
        return copied(alloc, base, Reply::TooLong);
    }
    let mut list = Vec::from_slice(alloc, base)?;
    list.insert(first_above(base, item).unwrap_or(base.len()), item)?;
    Ok(Outcome {
        list,
        reply: Reply::Ok,
    })
}

/// `tail`, `delmin` and `popl`: the list without its first item.
fn without_first(alloc: Global, base: &[u64]) -> Result<Outcome, AllocError>
    ensures { IfOk result (Gives (without_item (has_item base.now) base.now (drop 1 base.now))) }
{
    if base.is_empty() {
        return copied(alloc, base, Reply::Empty);
    }
    copied(alloc, &base[1..], Reply::Ok)
}

/// `delmax` and `popr`: the list without its last item.
fn without_last(alloc: Global, base: &[u64]) -> Result<Outcome, AllocError>
    ensures { IfOk result (Gives (without_item (has_item base.now) base.now (without_last base.now))) }
{
    if base.is_empty() {
        return copied(alloc, base, Reply::Empty);
    }
    copied(alloc, &base[..base.len() - 1], Reply::Ok)
}

/// `remove`: the list without the first item that equals the argument.
fn removed(alloc: Global, base: &[u64], item: u64) -> Result<Outcome, AllocError>
    ensures { IfOk result (Gives (without_item (contains item base.now) base.now (without_first_equal item base.now))) }
{
    let Some(at) = first_equal(base, item) else {
        return copied(alloc, base, Reply::Empty);
    };
    let mut list = Vec::from_slice(alloc, base)?;
    list.remove(at);
    Ok(Outcome {
        list,
        reply: Reply::Ok,
    })
}

/// `reverse`: the items in the other order.
fn reversed(alloc: Global, base: &[u64]) -> Result<Outcome, AllocError>
    ensures { IfOk result (Gives (reverse base.now, Reply.Ok)) }
{
    Ok(Outcome {
        list: base.iter().rev().copied().collect(alloc)?,
        reply: Reply::Ok,
    })
}

/// `upto`: the items that are not above the argument.
fn up_to(alloc: Global, base: &[u64], bound: u64) -> Result<Outcome, AllocError>
    ensures { IfOk result (Gives (filter (λ y. leb y bound) base.now, Reply.Ok)) }
{
    let list = base
        .iter()
        .copied()
        .filter(|item| *item <= bound)
        .collect(alloc)?;
    Ok(Outcome {
        list,
        reply: Reply::Ok,
    })
}

/// `take`, and the first list of `split`: the first items, as many as the argument says or there are.
fn taken(alloc: Global, base: &[u64], count: u64) -> Result<Outcome, AllocError>
    ensures { IfOk result (Gives (take count base.now, Reply.Ok)) }
{
    copied(alloc, first_items(base, count), Reply::Ok)
}

/// `drop`: the list without as many first items as the argument says.
fn dropped(alloc: Global, base: &[u64], count: u64) -> Result<Outcome, AllocError>
    ensures { IfOk result (Gives (drop count base.now, Reply.Ok)) }
{
    copied(alloc, items_behind(base, count), Reply::Ok)
}

/// The new list and the reply of an operation, from the base's list, the other's list and the argument.
pub(crate) fn outcome_of(
    alloc: Global,
    op: Op,
    base: &[u64],
    other: &[u64],
    argument: u64,
) -> Result<Outcome, AllocError>
    ensures { IfOk result (Gives (effect op base.now other.now argument)) }
{
    match op {
        Op::New(_) => copied(alloc, &[], Reply::Ok),
        Op::Size => copied(alloc, base, Reply::Number(base.len() as u64)),
        Op::Cons | Op::Pushl => joined(alloc, base, &[argument], base),
        Op::Snoc | Op::Pushr => joined(alloc, base, base, &[argument]),
        Op::Append | Op::Concat => joined(alloc, base, base, other),
        Op::Insert => inserted(alloc, base, argument),
        Op::Meld => melded(alloc, base, other),
        Op::Head | Op::Min | Op::First => copied(alloc, base, reply_of(item_at(base, 0))),
        Op::Max | Op::Last => copied(alloc, base, reply_of(last_item(base))),
        Op::Nth => copied(alloc, base, reply_of(item_at(base, argument))),
        Op::Has => copied(
            alloc,
            base,
            Reply::Number(if has(base, argument) { 1 } else { 0 }),
        ),
        Op::Tail | Op::Delmin | Op::Popl => without_first(alloc, base),
        Op::Delmax | Op::Popr => without_last(alloc, base),
        Op::Remove => removed(alloc, base, argument),
        Op::Reverse => reversed(alloc, base),
        Op::Take | Op::Split => taken(alloc, base, argument),
        Op::Drop => dropped(alloc, base, argument),
        Op::Upto => up_to(alloc, base, argument),
    }
}

/// The list of the second version: what a split leaves behind its first list.
pub(crate) fn second_of(
    alloc: Global,
    op: Op,
    base: &[u64],
    argument: u64,
) -> Result<Vec<u64>, AllocError>
    ensures { IfOk result (λ list. list.items ≡ second_list op base.now argument) }
{
    match op {
        Op::Split => Vec::from_slice(alloc, items_behind(base, argument)),
        _ => Ok(Vec::new(alloc)),
    }
}
