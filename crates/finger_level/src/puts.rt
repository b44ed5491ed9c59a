//! What is published of a tree.
ghost use Rattle.std.specs.Prelude.{Bool, ◌≡◌, ◌<◌, ◌≤◌, ◌+◌, ◌++◌, ℕ, suc, true, map, length, flat_map};
ghost use Rattle.std.specs.List.{AllByRecursion};
ghost use Rattle.lazy_rec.specs.declared.places.Ref.{Ref};
ghost use Rattle.lazy_rec.specs.declared.events.Kind.{Kind};
ghost use Rattle.lazy_rec.specs.Meaning.{means};
ghost use Rattle.heap_store.specs.World.{recs, holds};
ghost use Rattle.heap_store.specs.Completion.{between, elements};
ghost use Rattle.heap_store.specs.Hand.{IsInHand};
ghost use Rattle.heap_store.specs.Lawful.{has_keys, key_for};
ghost use Rattle.heap_store.specs.View.{Quiet};
ghost use Rattle.finger_level.specs.Few.{few_list, group_list};
ghost use Rattle.finger_level.specs.Level.{all_of, if_there, tree_of, made_of, items_of_made, digit_list, digit_places, without, shorter, nodes_list, nodes_places, row_list, row_places, middle_of, middle_places};
ghost use Rattle.finger_level.specs.Keyed.{HasKeys, AreKeyed, KeyedDigit, KeyedMiddle, KeyedLevel, key_in};
ghost use Rattle.finger_level.specs.Reads.{cached_key, is_element, is_tree_rec, IsThere, IsUnder, cached_size};
ghost use Rattle.finger_level.specs.Puts.{PartAsk, NodePut, DigitPut, IsMiddle, IsFamily, MiddlePut, push_record, push_middle, NodesPut, PushAsk, tail_record, TailAsk, WeighedTailAsk, ShorterAsk, RowPut, concat_record, BetweenAsk, EndsAsk, EndsPut, MiddleAsk, tree_at, LevelAsk, LevelPut};
ghost use Rattle.finger_level.specs.Pushes.{pushed_list};

use crate::few::{Few, Group, Weight, digit, node};
use crate::level::{Digit, Family, Level, Middle, NodeRow, Nodes, Pushed, Side, few_of};
use crate::reads::weigh;
use heap_store::{Heap, Run};
use lazy_rec::{Item, Rec, Ref};

/// The weight of some elements. A tree without keys has 0 for each key.
#[inline(always)]
fn weigh_all<H: Heap>(h: &mut H, es: &[Ref], keyed: bool) -> Weight
    requires elements { AllByRecursion (λ e. holds (recs (H.view h.old).seen) e is_element ≡ true) (map (λ (r : Ref). r.0) es.now) }
    requires small { length (flat_map (means (recs (H.view h.old).seen)) (map (λ (r : Ref). r.0) es.now)) ≤ 2147483647 }
    ensures quiet { Quiet (H.view h.old) (H.view h.new) }
    ensures size { result.size ≡ length (flat_map (means (recs (H.view h.old).seen)) (map (λ (r : Ref). r.0) es.now)) }
    ensures key { AreKeyed keyed (H.view h.old).seen (map (λ (r : Ref). r.0) es.now) → result.key.0 ≡ key_in keyed (flat_map (means (recs (H.view h.old).seen)) (map (λ (r : Ref). r.0) es.now)) }
{
    let mut size = 0;
    let mut key = 0;
    for e in es {
        let weight = weigh(h, *e);
        size += weight.size;
        key = key.max(weight.key.0);
    }
    Weight {
        size,
        key: Item(if keyed { key } else { 0 }),
    }
}

#[inline(always)]
fn weigh_group<H: Heap>(h: &mut H, group: Group, keyed: bool) -> Weight
    requires elements { AllByRecursion (λ e. holds (recs (H.view h.old).seen) e is_element ≡ true) (group_list group) }
    requires small { length (flat_map (means (recs (H.view h.old).seen)) (group_list group)) ≤ 2147483647 }
    ensures quiet { Quiet (H.view h.old) (H.view h.new) }
    ensures size { result.size ≡ length (flat_map (means (recs (H.view h.old).seen)) (group_list group)) }
    ensures key { AreKeyed keyed (H.view h.old).seen (group_list group) → result.key.0 ≡ key_in keyed (flat_map (means (recs (H.view h.old).seen)) (group_list group)) }
{
    match group {
        Group::Two(a, b) => weigh_all(h, &[a, b], keyed),
        Group::Three(a, b, c) => weigh_all(h, &[a, b, c], keyed),
    }
}

pub(crate) fn weigh_few<H: Heap>(h: &mut H, few: Few, keyed: bool) -> Weight
    requires elements { AllByRecursion (λ e. holds (recs (H.view h.old).seen) e is_element ≡ true) (few_list few) }
    requires small { length (flat_map (means (recs (H.view h.old).seen)) (few_list few)) ≤ 2147483647 }
    ensures quiet { Quiet (H.view h.old) (H.view h.new) }
    ensures size { result.size ≡ length (flat_map (means (recs (H.view h.old).seen)) (few_list few)) }
    ensures key { AreKeyed keyed (H.view h.old).seen (few_list few) → result.key.0 ≡ key_in keyed (flat_map (means (recs (H.view h.old).seen)) (few_list few)) }
{
    match few {
        Few::One(a) => weigh_all(h, &[a], keyed),
        Few::Two(a, b) => weigh_all(h, &[a, b], keyed),
        Few::Three(a, b, c) => weigh_all(h, &[a, b, c], keyed),
        Few::Four(a, b, c, d) => weigh_all(h, &[a, b, c, d], keyed),
    }
}

/// Publishes a node of elements of one level.
#[inline(always)]
pub fn put_node<H: Heap>(h: &mut H, group: Group, keyed: bool, run: &mut Run) -> Ref
    requires { PartAsk (H.view h.old) run.old 1 (group_list group) }
    ensures put { NodePut (H.view h.old) (H.view h.new) run.old run.new group result.0 }
    ensures keys { AreKeyed keyed (H.view h.old).seen (group_list group) → HasKeys keyed (H.view h.new).seen result.0 }
{
    let weight = weigh_group(h, group, keyed);
    h.put(run, node(group, weight))
}

/// Publishes a digit of elements of one level, where it doesn't stand already.
pub fn put_digit<H: Heap>(h: &mut H, part: Digit, keyed: bool, run: &mut Run) -> Ref
    requires part { PartAsk (H.view h.old) run.old (digit_places part) (digit_list part) }
    requires there { IsThere (H.view h.old).seen part }
    requires under { IsUnder run.old.next part }
    ensures put { DigitPut (H.view h.old) (H.view h.new) run.old run.new part result.0 }
    ensures keys { KeyedDigit keyed (H.view h.old).seen part → HasKeys keyed (H.view h.new).seen result.0 }
{
    match part {
        Digit::Old { place, .. } => place,
        Digit::New(few) => {
            let weight = weigh_few(h, few, keyed);
            put_few(h, few, weight, run)
        }
    }
}

/// Publishes a digit of elements of one level, whose weight is known.
#[inline(always)]
pub fn put_few<H: Heap>(h: &mut H, few: Few, weight: Weight, run: &mut Run) -> Ref
    requires part { PartAsk (H.view h.old) run.old 1 (few_list few) }
    requires counts { weight.size ≡ length (flat_map (means (recs (H.view h.old).seen)) (few_list few)) }
    ensures put { DigitPut (H.view h.old) (H.view h.new) run.old run.new (Digit.New few) result.0 }
    ensures keys { (keyed : Bool) → AreKeyed keyed (H.view h.old).seen (few_list few) → weight.key.0 ≡ key_in keyed (flat_map (means (recs (H.view h.old).seen)) (few_list few)) → HasKeys keyed (H.view h.new).seen result.0 }
{
    h.put(run, digit(few, weight))
}

/// Publishes one or two nodes.
#[inline(always)]
fn put_nodes<H: Heap>(h: &mut H, nodes: Nodes, keyed: bool, run: &mut Run) -> Pushed
    requires { PartAsk (H.view h.old) run.old (nodes_places nodes) (all_of (nodes_list nodes)) }
    ensures put { NodesPut (H.view h.old) (H.view h.new) run.old run.new nodes result }
    ensures keys { AreKeyed keyed (H.view h.old).seen (all_of (nodes_list nodes)) → AreKeyed keyed (H.view h.new).seen (pushed_list result) }
{
    match nodes {
        Nodes::One(a) => Pushed::One(put_node(h, a, keyed, run)),
        Nodes::Two(a, b) => {
            let first = put_node(h, a, keyed, run);
            let second = put_node(h, b, keyed, run);
            Pushed::Two(first, second)
        }
    }
}

fn weigh_pushed<H: Heap>(h: &mut H, es: Pushed, keyed: bool) -> Weight
    requires elements { AllByRecursion (λ e. holds (recs (H.view h.old).seen) e is_element ≡ true) (pushed_list es) }
    requires small { length (flat_map (means (recs (H.view h.old).seen)) (pushed_list es)) ≤ 2147483647 }
    ensures quiet { Quiet (H.view h.old) (H.view h.new) }
    ensures size { result.size ≡ length (flat_map (means (recs (H.view h.old).seen)) (pushed_list es)) }
    ensures key { AreKeyed keyed (H.view h.old).seen (pushed_list es) → result.key.0 ≡ key_in keyed (flat_map (means (recs (H.view h.old).seen)) (pushed_list es)) }
{
    match es {
        Pushed::One(e) => weigh_all(h, &[e], keyed),
        Pushed::Two(e, f) => weigh_all(h, &[e, f], keyed),
    }
}

/// The weight of a tree, a suspension or a value.
pub(crate) fn weigh_tree<H: Heap>(h: &mut H, t: Ref) -> Weight
    requires { holds (recs (H.view h.old).seen) t.0 is_tree_rec ≡ true }
    ensures quiet { Quiet (H.view h.old) (H.view h.new) }
    ensures size { result.size ≡ length (means (recs (H.view h.old).seen) t.0) }
    ensures small { result.size ≤ 2147483647 }
    ensures key { (kind : Kind) → has_keys kind (recs (H.view h.old).seen) t.0 ≡ true → result.key.0 ≡ key_for kind (means (recs (H.view h.old).seen) t.0) }
{
    let rec = h.read(t);
    cached(&rec)
}

/// What the record of a tree caches.
fn cached(rec: &Rec) -> Weight
    ensures size { result.size ≡ cached_size rec.now }
    ensures key { result.key.0 ≡ cached_key rec.now }
{
    match *rec {
        Rec::Node { size, key, .. }
        | Rec::Digit { size, key, .. }
        | Rec::Single { size, key, .. }
        | Rec::Deep { size, key, .. }
        | Rec::PushL { size, key, .. }
        | Rec::PushR { size, key, .. }
        | Rec::DeepL { size, key, .. }
        | Rec::DeepR { size, key, .. }
        | Rec::Concat { size, key, .. } => Weight { size, key },
        _ => Weight {
            size: 0,
            key: Item(0),
        },
    }
}

/// The place of a tree, or that of the empty one.
fn tree_or_empty(tree: Option<Ref>) -> Ref
    ensures { result ≡ tree_at tree }
{
    match tree {
        Some(t) => t,
        None => Ref(4),
    }
}

#[inline(always)]
fn suspension(side: Side, tree: Ref, es: Pushed, origin: Ref, off: u8, weight: Weight) -> Rec
    ensures { result ≡ push_record side tree es origin off weight }
{
    let (count, e1, e2) = match es {
        Pushed::One(e) => (1, e, Ref(0)),
        Pushed::Two(e, f) => (2, e, f),
    };
    let size = weight.size;
    let key = weight.key;
    match side {
        Side::Left => Rec::PushL {
            tree,
            count,
            e1,
            e2,
            origin,
            off,
            size,
            key,
        },
        Side::Right => Rec::PushR {
            tree,
            count,
            e1,
            e2,
            origin,
            off,
            size,
            key,
        },
    }
}

/// Publishes nodes, and the suspension of their push onto a middle.
pub(crate) fn put_push<H: Heap>(
    h: &mut H,
    side: Side,
    tree: Option<Ref>,
    nodes: Nodes,
    family: &Family,
    keyed: bool,
    run: &mut Run,
) -> Ref
    requires { PushAsk (H.view h.old) run.old side tree nodes family.now }
    ensures put { MiddlePut (H.view h.old) (H.view h.new) run.old run.new family.now (suc (nodes_places nodes)) (push_middle side tree nodes) result.0 }
    ensures keys { AreKeyed keyed (H.view h.old).seen (all_of (nodes_list nodes)) → AreKeyed keyed (H.view h.old).seen (if_there (tree_of tree)) → HasKeys keyed (H.view h.new).seen result.0 }
{
    let tree = tree_or_empty(tree);
    let es = put_nodes(h, nodes, keyed, run);
    let above = weigh_pushed(h, es, keyed);
    let below = weigh_tree(h, tree);
    let weight = Weight {
        size: above.size + below.size,
        key: Item(above.key.0.max(below.key.0)),
    };
    match *family {
        Family::First => {
            let origin = run.next();
            h.put(run, suspension(side, tree, es, origin, 0, weight))
        }
        Family::Later { origin, off, .. } => h.put(
            run,
            suspension(side, tree, es, origin, off + 1, weight),
        ),
    }
}

fn tail(side: Side, middle: Ref, digit: Ref, origin: Ref, off: u8, weight: Weight) -> Rec
    ensures { result ≡ tail_record side middle digit origin off weight }
{
    let size = weight.size;
    let key = weight.key;
    match side {
        Side::Left => Rec::DeepL {
            middle,
            digit,
            size,
            origin,
            off,
            key,
        },
        Side::Right => Rec::DeepR {
            middle,
            digit,
            size,
            origin,
            off,
            key,
        },
    }
}

/// Publishes a suspended tail: of a tree of which nothing is left of one digit, by its middle and its other digit.
fn put_tail<H: Heap>(
    h: &mut H,
    side: Side,
    tree: Ref,
    part: Digit,
    family: &Family,
    keyed: bool,
    run: &mut Run,
) -> Ref
    requires { TailAsk (H.view h.old) run.old side tree part family.now }
    ensures put { MiddlePut (H.view h.old) (H.view h.new) run.old run.new family.now (suc (digit_places part)) (without side tree.0 (digit_list part)) result.0 }
    ensures keys { HasKeys keyed (H.view h.old).seen tree.0 → KeyedDigit keyed (H.view h.old).seen part → HasKeys keyed (H.view h.new).seen result.0 }
{
    let digit = put_digit(h, part, keyed, run);
    let few = few_of(part);
    let near = weigh_few(h, few, keyed);
    let inner = weigh_tree(h, tree);
    let weight = Weight {
        size: near.size + inner.size,
        key: Item(near.key.0.max(inner.key.0)),
    };
    put_weighed_tail(h, side, tree, digit, weight, family, run)
}

/// The same of a digit that stands, where the items of both weigh `weight`.
#[inline(always)]
pub(crate) fn put_weighed_tail<H: Heap>(
    h: &mut H,
    side: Side,
    tree: Ref,
    digit: Ref,
    weight: Weight,
    family: &Family,
    run: &mut Run,
) -> Ref
    requires { WeighedTailAsk (H.view h.old) run.old side tree digit family.now weight.size }
    ensures put { MiddlePut (H.view h.old) (H.view h.new) run.old run.new family.now 1 (without side tree.0 (elements (H.view h.old).seen digit.0)) result.0 }
    ensures keys { (keyed : Bool) → HasKeys keyed (H.view h.old).seen tree.0 → HasKeys keyed (H.view h.old).seen digit.0 → weight.key.0 ≡ key_in keyed (means (recs (H.view h.new).seen) result.0) → HasKeys keyed (H.view h.new).seen result.0 }
{
    match *family {
        Family::First => {
            let origin = run.next();
            h.put(run, tail(side, tree, digit, origin, 0, weight))
        }
        Family::Later { origin, off, .. } => {
            h.put(run, tail(side, tree, digit, origin, off + 1, weight))
        }
    }
}

/// Publishes a tree of which one digit is shorter.
fn put_shorter<H: Heap>(
    h: &mut H,
    side: Side,
    left: Digit,
    tree: Ref,
    right: Digit,
    family: &Family,
    keyed: bool,
    run: &mut Run,
) -> Ref
    requires { ShorterAsk (H.view h.old) run.old side left tree right family.now }
    ensures put { MiddlePut (H.view h.old) (H.view h.new) run.old run.new family.now (suc (digit_places left + digit_places right)) (shorter side (digit_list left) tree.0 (digit_list right)) result.0 }
    ensures keys { KeyedDigit keyed (H.view h.old).seen left → HasKeys keyed (H.view h.old).seen tree.0 → KeyedDigit keyed (H.view h.old).seen right → HasKeys keyed (H.view h.new).seen result.0 }
{
    let one = few_of(left);
    let other = few_of(right);
    let first = weigh_few(h, one, keyed);
    let middle = weigh_tree(h, tree);
    let last = weigh_few(h, other, keyed);
    let above = first.size + last.size;
    let size = above + middle.size;
    let ends = first.key.0.max(last.key.0);
    let key = Item(ends.max(middle.key.0));
    let whole = Weight { size, key };
    put_ends(h, left, tree, right, whole, keyed, run)
}

/// The places of one or two elements, and then of one or two more.
fn few_of_pushed(near: Pushed) -> Few
    ensures { few_list result ≡ pushed_list near }
{
    match near {
        Pushed::One(a) => Few::One(a),
        Pushed::Two(a, b) => Few::Two(a, b),
    }
}

fn few_of_both(near: Pushed, far: Pushed) -> Few
    ensures { few_list result ≡ pushed_list near ++ pushed_list far }
{
    match near {
        Pushed::One(a) => match far {
            Pushed::One(b) => Few::Two(a, b),
            Pushed::Two(b, c) => Few::Three(a, b, c),
        },
        Pushed::Two(a, b) => match far {
            Pushed::One(c) => Few::Three(a, b, c),
            Pushed::Two(c, d) => Few::Four(a, b, c, d),
        },
    }
}

/// Publishes a row of nodes.
fn put_row<H: Heap>(h: &mut H, row: NodeRow, keyed: bool, run: &mut Run) -> Few
    requires { PartAsk (H.view h.old) run.old (row_places row) (all_of (row_list row)) }
    ensures put { RowPut (H.view h.old) (H.view h.new) run.old run.new row result }
    ensures keys { AreKeyed keyed (H.view h.old).seen (all_of (row_list row)) → AreKeyed keyed (H.view h.new).seen (few_list result) }
{
    let near = put_nodes(h, row.near, keyed, run);
    match row.far {
        None => few_of_pushed(near),
        Some(nodes) => {
            let far = put_nodes(h, nodes, keyed, run);
            few_of_both(near, far)
        }
    }
}

/// The weight of two trees and the elements between them.
fn weigh_between<H: Heap>(h: &mut H, left: Ref, es: Few, right: Ref, keyed: bool) -> Weight
    requires left { holds (recs (H.view h.old).seen) left.0 is_tree_rec ≡ true }
    requires right { holds (recs (H.view h.old).seen) right.0 is_tree_rec ≡ true }
    requires elements { AllByRecursion (λ e. holds (recs (H.view h.old).seen) e is_element ≡ true) (few_list es) }
    requires small { length (means (recs (H.view h.old).seen) left.0) + length (flat_map (means (recs (H.view h.old).seen)) (few_list es)) + length (means (recs (H.view h.old).seen) right.0) ≤ 2147483647 }
    ensures quiet { Quiet (H.view h.old) (H.view h.new) }
    ensures size { result.size ≡ length (means (recs (H.view h.old).seen) left.0) + length (flat_map (means (recs (H.view h.old).seen)) (few_list es)) + length (means (recs (H.view h.old).seen) right.0) }
    ensures key { HasKeys keyed (H.view h.old).seen left.0 → AreKeyed keyed (H.view h.old).seen (few_list es) → HasKeys keyed (H.view h.old).seen right.0 → result.key.0 ≡ key_in keyed (means (recs (H.view h.old).seen) left.0 ++ flat_map (means (recs (H.view h.old).seen)) (few_list es) ++ means (recs (H.view h.old).seen) right.0) }
{
    let list = weigh_few(h, es, keyed);
    let first = weigh_tree(h, left);
    let last = weigh_tree(h, right);
    let above = list.size + first.size;
    let size = above + last.size;
    let near = first.key.0.max(list.key.0);
    let key = Item(near.max(last.key.0));
    Weight { size, key }
}

fn concat(left: Ref, list: Ref, right: Ref, origin: Ref, off: u8, weight: Weight) -> Rec
    ensures { result ≡ concat_record left list right origin off weight }
{
    Rec::Concat {
        left,
        right,
        list,
        origin,
        off,
        size: weight.size,
        key: weight.key,
    }
}

/// Publishes nodes, and the suspended concatenation of two middles with them between.
fn put_between<H: Heap>(
    h: &mut H,
    left: Ref,
    row: NodeRow,
    right: Ref,
    family: &Family,
    keyed: bool,
    run: &mut Run,
) -> Ref
    requires { BetweenAsk (H.view h.old) run.old left row right family.now }
    ensures put { MiddlePut (H.view h.old) (H.view h.new) run.old run.new family.now (suc (suc (row_places row))) (between left.0 right.0 (row_list row)) result.0 }
    ensures keys { HasKeys keyed (H.view h.old).seen left.0 → AreKeyed keyed (H.view h.old).seen (all_of (row_list row)) → HasKeys keyed (H.view h.old).seen right.0 → HasKeys keyed (H.view h.new).seen result.0 }
{
    let es = put_row(h, row, keyed, run);
    let list = put_digit(h, Digit::New(es), keyed, run);
    let weight = weigh_between(h, left, es, right, keyed);
    match *family {
        Family::First => {
            let origin = run.next();
            h.put(run, concat(left, list, right, origin, 0, weight))
        }
        Family::Later { origin, off, .. } => {
            h.put(run, concat(left, list, right, origin, off + 1, weight))
        }
    }
}

/// Publishes a middle.
pub fn put_middle<H: Heap>(
    h: &mut H,
    middle: Middle,
    family: &Family,
    keyed: bool,
    run: &mut Run,
) -> Ref
    requires { MiddleAsk (H.view h.old) run.old middle family.now }
    ensures put { MiddlePut (H.view h.old) (H.view h.new) run.old run.new family.now (middle_places middle) (middle_of middle) result.0 }
    ensures keys { KeyedMiddle keyed (H.view h.old).seen middle → HasKeys keyed (H.view h.new).seen result.0 }
{
    match middle {
        Middle::Tree(tree) => tree_or_empty(tree),
        Middle::PushL { tree, nodes } => put_push(h, Side::Left, tree, nodes, family, keyed, run),
        Middle::PushR { tree, nodes } => put_push(h, Side::Right, tree, nodes, family, keyed, run),
        Middle::Tail { side, tree, digit } => put_tail(h, side, tree, digit, family, keyed, run),
        Middle::Shorter {
            side,
            left,
            tree,
            right,
        } => put_shorter(h, side, left, tree, right, family, keyed, run),
        Middle::Between { left, row, right } => {
            put_between(h, left, row, right, family, keyed, run)
        }
    }
}

/// Publishes a level, whose items weigh `whole`.
pub fn put_level<H: Heap>(
    h: &mut H,
    level: Level,
    whole: Weight,
    family: &Family,
    keyed: bool,
    run: &mut Run,
) -> Ref
    requires { LevelAsk (H.view h.old) run.old level family.now whole }
    ensures put { LevelPut (H.view h.old) (H.view h.new) run.old run.new family.now level result.0 }
    ensures keys { KeyedLevel keyed (H.view h.old).seen level → whole.key.0 ≡ key_in keyed (items_of_made (means (recs (H.view h.old).seen)) (made_of level)) → HasKeys keyed (H.view h.new).seen result.0 }
{
    match level {
        Level::Empty => Ref(4),
        Level::One(elem) => h.put(
            run,
            Rec::Single {
                elem,
                size: whole.size,
                key: whole.key,
            },
        ),
        Level::Deep {
            left,
            middle,
            right,
        } => put_deep(h, left, middle, right, whole, family, keyed, run),
    }
}

fn put_deep<H: Heap>(
    h: &mut H,
    left: Digit,
    middle: Middle,
    right: Digit,
    whole: Weight,
    family: &Family,
    keyed: bool,
    run: &mut Run,
) -> Ref
    requires { LevelAsk (H.view h.old) run.old (Level.Deep left middle right) family.now whole }
    ensures put { LevelPut (H.view h.old) (H.view h.new) run.old run.new family.now (Level.Deep left middle right) result.0 }
    ensures keys { KeyedLevel keyed (H.view h.old).seen (Level.Deep left middle right) → whole.key.0 ≡ key_in keyed (items_of_made (means (recs (H.view h.old).seen)) (made_of (Level.Deep left middle right))) → HasKeys keyed (H.view h.new).seen result.0 }
{
    let below = put_middle(h, middle, family, keyed, run);
    put_ends(h, left, below, right, whole, keyed, run)
}

/// Publishes the digits and the record of a deep tree whose middle stands.
fn put_ends<H: Heap>(
    h: &mut H,
    left: Digit,
    middle: Ref,
    right: Digit,
    whole: Weight,
    keyed: bool,
    run: &mut Run,
) -> Ref
    requires { EndsAsk (H.view h.old) run.old left middle.0 right whole.size }
    ensures put { EndsPut (H.view h.old) (H.view h.new) run.old run.new left middle right whole result.0 }
    ensures keys { KeyedDigit keyed (H.view h.old).seen left → HasKeys keyed (H.view h.old).seen middle.0 → KeyedDigit keyed (H.view h.old).seen right → whole.key.0 ≡ key_in keyed (means (recs (H.view h.new).seen) result.0) → HasKeys keyed (H.view h.new).seen result.0 }
{
    let first = put_digit(h, left, keyed, run);
    let last = put_digit(h, right, keyed, run);
    h.put(
        run,
        Rec::Deep {
            left: first,
            middle,
            right: last,
            size: whole.size,
            key: whole.key,
        },
    )
}
