//! Dues, node bounds and which operations force, as tables by kind and operation. The definitions of lazy_rec say where each
//! line comes from.

ghost use Rattle.std.specs.Prelude.{◌≡◌, ◌≤◌, ◌*◌, not};
ghost use Rattle.lazy_rec.specs.Numbers.{bits};
ghost use Rattle.lazy_rec.specs.Due.{due, direct, new_places, may_force};

use lazy_rec::numbers::bits;
use lazy_rec::{Kind, Op};

/// The number of binary digits.
#[inline(always)]
pub(crate) fn digits(n: u64) -> u64
    ensures value { result ≡ bits n }
    ensures few { result ≤ 64 }
    ensures fits_squared { 2 * result * result ≤ 8192 }
{
    bits(n) as u64
}

/// What an event is charged when it begins, in steps of suspended work, whatever it replies. `n1` and `n2` are the sizes of
/// its base and of its other version, 0 where there is none. An operation that the kind doesn't have is charged nothing.
#[inline(always)]
pub fn due(kind: Kind, op: Op, n1: u32, n2: u32) -> u64
    ensures { result ≡ due kind op n1 n2 }
{
    let n = n1 as u64;
    let m = n2 as u64;
    match (kind, op) {
        (Kind::Stream, Op::Append | Op::Reverse) => n,
        (Kind::Bankq, Op::Snoc) => 1,
        (Kind::Bankq, Op::Tail) => 2,
        (Kind::Rtq, Op::Snoc | Op::Tail) => 1,
        (Kind::Heap, Op::Insert) => 2,
        (Kind::Heap, Op::Min) => digits(n),
        (Kind::Heap, Op::Delmin) => 2 * digits(n),
        (Kind::Heap, Op::Meld) => digits(n) + digits(m) + 1,
        (Kind::Seq, Op::Pushl | Op::Pushr) => digits(n + 1),
        (Kind::Seq, Op::Popl | Op::Popr) => digits(n),
        (Kind::Seq, Op::Take | Op::Drop) => digits(n) * digits(n),
        (Kind::Seq, Op::Concat) => digits(n + m),
        (Kind::Seq, Op::Split) => 2 * digits(n) * digits(n),
        (Kind::Prio, Op::Insert) => digits(n + 1),
        (Kind::Prio, Op::Delmax) => 2 * digits(n) * digits(n) + digits(n),
        (Kind::Prio, Op::Meld) => digits(n + m),
        (Kind::Ord, Op::Insert) => 2 * digits(n) * digits(n) + digits(n + 1),
        (Kind::Ord, Op::Remove) => 2 * digits(n) * digits(n) + digits(n),
        (Kind::Ord, Op::Upto) => digits(n) * digits(n),
        (Kind::Cat, Op::Cons | Op::Snoc | Op::Append) => 1,
        (Kind::Cat, Op::Tail) => 3 * n + 2,
        _ => 0,
    }
}

/// The most places that an event's own reserves take, as nodes of the store; those that completions take aren't in it.
/// `n1` and `n2` are as for `due`. An operation that the kind doesn't have takes none.
#[inline(always)]
pub fn direct(kind: Kind, op: Op, n1: u32, n2: u32) -> u64
    ensures { result ≡ direct kind op n1 n2 }
{
    let n = n1 as u64;
    match (kind, op) {
        (_, Op::New(_)) => new_places(kind),
        (Kind::Stream, Op::Cons | Op::Append | Op::Reverse) => 2,
        (Kind::Stream, Op::Tail) => 1,
        (Kind::Bankq | Kind::Rtq, Op::Snoc) => 3,
        (Kind::Bankq | Kind::Rtq, Op::Tail) => 2,
        (Kind::Heap, Op::Insert | Op::Meld) => 2,
        (Kind::Heap, Op::Min) => 1,
        (Kind::Heap, Op::Delmin) => 2 * digits(n) + 3,
        (Kind::Seq, Op::Pushl | Op::Pushr | Op::Popl | Op::Popr) => 6,
        (Kind::Seq, Op::Take | Op::Drop) => 4 * digits(n) + 4,
        (Kind::Seq, Op::Concat) => 8,
        (Kind::Seq, Op::Split) => 8 * digits(n) + 8,
        (Kind::Prio, Op::Insert) => 6,
        (Kind::Prio, Op::Delmax) => 8 * digits(n) + 16,
        (Kind::Prio, Op::Meld) => 8,
        (Kind::Ord, Op::Insert) => 8 * digits(n) + 20,
        (Kind::Ord, Op::Remove) => 8 * digits(n) + 16,
        (Kind::Ord, Op::Upto) => 4 * digits(n) + 4,
        (Kind::Cat, Op::Cons | Op::Snoc | Op::Append) => 6,
        (Kind::Cat, Op::Tail) => 8,
        _ => 0,
    }
}

/// The places of an empty structure.
fn new_places(kind: Kind) -> u64
    ensures { result ≡ new_places kind }
{
    match kind {
        Kind::Stream | Kind::Bankq | Kind::Rtq | Kind::Heap => 1,
        Kind::Seq | Kind::Prio | Kind::Ord | Kind::Cat => 0,
    }
}

/// Whether the operation forces no suspension, whatever the version.
pub fn never_forces(kind: Kind, op: Op) -> bool
    ensures { result ≡ not (may_force kind op) }
{
    match (kind, op) {
        (Kind::Stream, Op::Head | Op::Tail) => false,
        (Kind::Bankq, Op::Head | Op::Tail) => false,
        (Kind::Rtq, Op::Snoc | Op::Head | Op::Tail) => false,
        (Kind::Heap, Op::Min | Op::Delmin) => false,
        (Kind::Seq, Op::Popl | Op::Popr) => false,
        (Kind::Seq, Op::Nth | Op::Take | Op::Drop | Op::Split) => false,
        (Kind::Prio, Op::Delmax) => false,
        (Kind::Ord, Op::Insert | Op::Has | Op::Remove | Op::Upto) => false,
        (Kind::Cat, Op::Snoc | Op::Append | Op::Tail) => false,
        _ => true,
    }
}

#[cfg(test)]
mod tests;
