//! Scripts that are made from a number, the seed.
ghost use Rattle.std.specs.Prelude.{◌≡◌, ◌<◌, ◌≤◌, length, IfOk};
ghost use Rattle.script_text.specs.Events.{event};
ghost use Rattle.script_text.specs.Generator.{next_state, shown, kind_in_turn, choices, choice, chosen, trimmed, chosen_event, bound_at, bound_of_event, small_event, next_event, state_after, generated};
ghost use Rattle.lazy_rec.specs.declared.events.Op.TheVariants.{New};

use crate::model::Form;
use crate::script::Script;
use dues::size_bound;
use lazy_rec::limits::MOST_EVENTS;
use lazy_rec::{Event, Kind, NoMemory, Op};
use std::alloc::{AllocError, Global};

// The state after a draw.
fn next_state(state: u64) -> u64
    ensures { result ≡ next_state state }
{
    state
        .wrapping_mul(6_364_136_223_846_793_005)
        .wrapping_add(1_442_695_040_888_963_407)
}

// The number that a state shows.
fn shown(state: u64) -> u32
    ensures { result ≡ shown state }
{
    (state / 8_589_934_592) as u32
}

// The kind in turn after so many events.
fn kind_in_turn(made: u32) -> Kind
    ensures { result ≡ kind_in_turn made }
{
    Kind::of_number(made % 8).unwrap_or(Kind::Stream)
}

// The operations that a kind's events have, some more often than others.
fn choices(kind: Kind) -> &'static [Op]
    ensures choices { result.now ≡ choices kind }
    ensures some { 0 < length result.now }
{
    match kind {
        Kind::Stream => &[
            Op::Cons,
            Op::Append,
            Op::Reverse,
            Op::Head,
            Op::Tail,
            Op::Size,
        ],
        Kind::Bankq | Kind::Rtq => &[Op::Snoc, Op::Snoc, Op::Snoc, Op::Head, Op::Tail, Op::Size],
        Kind::Heap => &[
            Op::Insert,
            Op::Insert,
            Op::Min,
            Op::Delmin,
            Op::Meld,
            Op::Size,
        ],
        Kind::Seq => &[
            Op::Pushl,
            Op::Pushr,
            Op::Popl,
            Op::Popr,
            Op::First,
            Op::Last,
            Op::Nth,
            Op::Take,
            Op::Drop,
            Op::Concat,
        ],
        Kind::Prio => &[
            Op::Insert,
            Op::Insert,
            Op::Max,
            Op::Delmax,
            Op::Meld,
            Op::Size,
        ],
        Kind::Ord => &[
            Op::Insert,
            Op::Insert,
            Op::Min,
            Op::Has,
            Op::Remove,
            Op::Upto,
        ],
        Kind::Cat => &[Op::Cons, Op::Snoc, Op::Append, Op::Head, Op::Tail, Op::Size],
    }
}

// The operation that a number chooses.
fn choice(kind: Kind, number: u32) -> Op
    ensures { result ≡ choice kind number }
{
    let ops = choices(kind);
    ops.get(number as usize % ops.len())
        .copied()
        .unwrap_or(Op::Size)
}

// The name of the event that a number chooses from the newest ones of the kind in turn.
fn chosen(made: u32, number: u32) -> u32
    requires low { 8 ≤ made }
    requires high { made < MOST_EVENTS }
    ensures { result ≡ chosen made number }
{
    let newer = number % (made / 8).min(8);
    made + 1 - 8 * (newer + 1)
}

// An event with only the fields that its operation uses.
fn trimmed(op: Op, base: u32, other: u32, arg: u64) -> Event
    ensures { result ≡ trimmed op base other arg }
{
    let other = if op.uses_other() { other } else { 0 };
    let arg = if op.uses_argument() { arg } else { 0 };
    Event {
        op,
        base,
        other,
        arg,
    }
}

// The event that three numbers choose after so many events.
fn chosen_event(made: u32, r1: u32, r2: u32, r3: u32) -> Event
    requires low { 8 ≤ made }
    requires high { made < MOST_EVENTS }
    ensures { result ≡ chosen_event made r1 r2 r3 }
{
    let op = choice(kind_in_turn(made), r2);
    trimmed(op, chosen(made, r1), chosen(made, r3), u64::from(r3 % 100))
}

// The size bound of a name.
fn bound_at(bounds: &[u32], name: u32) -> u32
    ensures { result ≡ bound_at bounds.now name }
{
    if name == 0 {
        return 0;
    }
    bounds.get(name as usize - 1).copied().unwrap_or(0)
}

// The size bound of an event.
fn bound_of_event(bounds: &[u32], event: &Event) -> u32
    ensures { result ≡ bound_of_event bounds.now event.now }
{
    let base = bound_at(bounds, event.base);
    let other = bound_at(bounds, event.other);
    size_bound(Kind::Stream, event, base, other)
}

// The event that makes an empty structure of the kind in turn.
fn new_in_turn(made: u32) -> Event
    ensures { result ≡ event (New (kind_in_turn made)) 0 0 0 }
{
    Event {
        op: Op::New(kind_in_turn(made)),
        base: 0,
        other: 0,
        arg: 0,
    }
}

// The event, or `new` where its size bound would pass 15.
fn small_event(made: u32, bounds: &[u32], event: Event) -> Event
    ensures { result ≡ small_event made bounds.now event }
{
    if bound_of_event(bounds, &event) <= 15 {
        event
    } else {
        new_in_turn(made)
    }
}

// The next event, and the state after its draws.
fn next_event(made: u32, state: u64, bounds: &[u32]) -> (Event, u64)
    requires { made < MOST_EVENTS }
    ensures event { result.0 ≡ next_event made state bounds.now }
    ensures state { result.1 ≡ state_after made state }
{
    if made < 8 {
        return (new_in_turn(made), state);
    }
    let first = next_state(state);
    let second = next_state(first);
    let third = next_state(second);
    let event = chosen_event(made, shown(first), shown(second), shown(third));
    (small_event(made, bounds, event), third)
}

fn made_script(alloc: Global, seed: u64, events: u32) -> Result<Script, AllocError>
    requires { events ≤ MOST_EVENTS }
    ensures { IfOk result (λ s. s ≡ generated seed events) }
{
    let mut script = Script::new(alloc, Form::One);
    let mut bounds = Vec::new(alloc);
    let mut state = seed;
    for made in 0..events {
        let (event, after) = next_event(made, state, bounds.as_slice());
        let bound = bound_of_event(bounds.as_slice(), &event);
        bounds.push(bound)?;
        script.push(event)?;
        state = after;
    }
    Ok(script)
}

/// The script of a seed, with so many events. The kinds take turns, and the size bound of no version passes 15.
pub fn generate(alloc: Global, seed: u64, events: u32) -> Result<Script, NoMemory>
    requires { events ≤ MOST_EVENTS }
    ensures { IfOk result (λ s. s ≡ generated seed events) }
{
    made_script(alloc, seed, events).map_err(|_| NoMemory)
}
