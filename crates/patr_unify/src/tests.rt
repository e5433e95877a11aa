//! Tests of the public calls, and worked examples in tables.
ghost use Rattle.std.specs.Prelude.{◌≡◌, ◌+◌, ◌<◌, ◌≤◌, ◌∷◌, [], length, true, IfOk, IfSome};
ghost use Rattle.std.specs.List.Sorted.{IsStrictlyIncreasing};
ghost use Rattle.patr_arena.specs.Arenas.{shown_of};
ghost use Rattle.patr_arena.specs.Blocks.{AllBelow, AllOldHeld, OldIsHeld, attributes};
ghost use Rattle.patr_arena.specs.Shown.{IsHeld, Shown, ValueIsHeld};
ghost use Rattle.patr_arena.specs.declared.value.Value.TheVariants as value;
ghost use Rattle.patr_unify.specs.Copying.{Fits};

use super::*;
use crate::reach::reachable;
use patr_arena::{
    Addr, Block, Feature, Id, Memory, Nodes, PlainArena, Ref, SentenceArena, Value, maps_into,
    resolve_path,
};
use patr_scratch::Scratch;
use std::alloc::{AllocError, Global};
use std::marker::Brand;
use std::sync::ledger::{Blank, Ledger};
use std::test::Fail;

const A: Id = Id(38);

const B: Id = Id(39);

const F: Id = Id(40);

const G: Id = Id(41);

const H: Id = Id(42);

const X: Id = Id(43);

const Y: Id = Id(44);

const Z: Id = Id(45);

/// A block without nodes.
fn bare(alloc: Global) -> Block
    ensures empty { length result ≡ 0 }
    ensures own { (v : Shown) → OldIsHeld v result }
{
    Block::new(alloc)
}

/// Adds a node without old addresses.
fn add(block: &mut Block, arcs: &[Feature]) -> Result<(), Memory>
    requires rising { IsStrictlyIncreasing (attributes arcs.now) }
    requires below { AllBelow (length block.old) arcs.now }
    requires own { (v : Shown) → AllOldHeld v arcs.now }
    ensures { IfOk result (λ _. (length block.new ≡ length block.old + 1) × (((v : Shown) → OldIsHeld v block.old) → (v : Shown) → OldIsHeld v block.new)) }
{
    block.add(arcs)?;
    Ok(())
}

fn arc(attribute: Id, to: Ref) -> Feature
    ensures { result ≡ record { attribute = attribute; to = to } }
{
    Feature { attribute, to }
}

/// An arena of this block.
fn arena_of(alloc: Global, block: Block) -> Result<PlainArena, Memory>
    requires { (v : Shown) → OldIsHeld v block }
    ensures { IfOk result (λ arena. (shown_of arena).sizes ≡ length block ∷ []) }
{
    let mut arena = PlainArena::new(alloc);
    let Ok(_) = arena.push(block) else {
        return Err(AllocError);
    };
    Ok(arena)
}

/// The nodes `[]`, `[a: x]`, `[f: [a: x] g: []]` and `[b: y]`.
fn four(alloc: Global) -> Result<Block, Memory>
    ensures length { IfOk result (λ block. length block ≡ 4) }
    ensures own { IfOk result (λ block. (v : Shown) → OldIsHeld v block) }
{
    let mut block = bare(alloc);
    add(&mut block, &[])?;
    add(&mut block, &[arc(A, Ref::Atom(X))])?;
    add(&mut block, &[arc(F, Ref::New(1)), arc(G, Ref::New(0))])?;
    add(&mut block, &[arc(B, Ref::Atom(Y))])?;
    Ok(block)
}

/// The node `[a: x]`.
fn one(alloc: Global) -> Result<Block, Memory>
    ensures length { IfOk result (λ block. length block ≡ 1) }
    ensures own { IfOk result (λ block. (v : Shown) → OldIsHeld v block) }
{
    let mut block = bare(alloc);
    add(&mut block, &[arc(A, Ref::Atom(X))])?;
    Ok(block)
}

/// An arena of the four nodes and of `[a: z]`, `[h: []]`, `[f: #1 [] g: [h: #1]]`, `[f: #1 [] g: #1]`, `[f: []]`,
/// `[f: [a: x]]`, `[a: x b: y]`, `[f: [a: x b: y] g: []]` and `[f: y]`.
fn sample(alloc: Global) -> Result<PlainArena, Memory>
    ensures { IfOk result (λ arena. (shown_of arena).sizes ≡ 13 ∷ []) }
{
    let mut block = four(alloc)?;
    add(&mut block, &[arc(A, Ref::Atom(Z))])?;
    add(&mut block, &[arc(H, Ref::New(0))])?;
    add(&mut block, &[arc(F, Ref::New(0)), arc(G, Ref::New(5))])?;
    add(&mut block, &[arc(F, Ref::New(0)), arc(G, Ref::New(0))])?;
    add(&mut block, &[arc(F, Ref::New(0))])?;
    add(&mut block, &[arc(F, Ref::New(1))])?;
    add(&mut block, &[arc(A, Ref::Atom(X)), arc(B, Ref::Atom(Y))])?;
    add(&mut block, &[arc(F, Ref::New(10)), arc(G, Ref::New(0))])?;
    add(&mut block, &[arc(F, Ref::Atom(Y))])?;
    arena_of(alloc, block)
}

/// An arena of the node `[f: x g: []]`, and behind it of a list of nodes `[f: x g: ..]`, the first of which, with the
/// offset 2, ends it with `g: y`, and of which the last one has so many others below it.
fn list(alloc: Global, count: u32) -> Result<PlainArena, Memory>
    requires { count < 1000 }
    ensures { IfOk result (λ arena. (shown_of arena).sizes ≡ (count + 3) ∷ []) }
{
    let mut block = bare(alloc);
    add(&mut block, &[])?;
    add(&mut block, &[arc(F, Ref::Atom(X)), arc(G, Ref::New(0))])?;
    add(&mut block, &[arc(F, Ref::Atom(X)), arc(G, Ref::Atom(Y))])?;
    for below in 2..count + 2 {
        add(&mut block, &[arc(F, Ref::Atom(X)), arc(G, Ref::New(below))])?;
    }
    arena_of(alloc, block)
}

/// Whether a unifier that was made over the arena is the same structure as a node of it.
fn is_same(
    alloc: Global,
    arena: &PlainArena,
    block: Block,
    root: Ref,
    wanted: u32,
) -> Result<bool, Memory>
    requires wanted { IsHeld (shown_of arena.now) 0 wanted }
    requires old { OldIsHeld (shown_of arena.now) block }
    requires fits { Fits (shown_of arena.now) (length block) root }
{
    let node = Value::Node(Addr {
        block: 0,
        offset: wanted,
    });
    let mut sentence = SentenceArena::over(alloc, arena);
    let Ok(number) = sentence.push(block) else {
        return Err(AllocError);
    };
    let made = sentence.resolve(number, root);
    Ok(maps_into(alloc, &sentence, made, node)? && maps_into(alloc, &sentence, node, made)?)
}

/// Whether the value is an atom or a node of the sample.
fn is_in_sample(arena: &PlainArena, value: Value) -> bool
    requires { (shown_of arena.now).sizes ≡ 13 ∷ [] }
    ensures { result ≡ true → ValueIsHeld (shown_of arena.now) value }
{
    match value {
        Value::Atom(_) => true,
        Value::Node(at) => at.block == 0 && at.offset < 13,
    }
}

/// A node of the sample.
fn node(offset: u32) -> Value
    ensures { result ≡ value.Node (record { block = 0; offset = offset }) }
{
    Value::Node(Addr { block: 0, offset })
}

/// A node of the sample, a path in it, a value, and the node that is the same as their unifier, or `None` where there is
/// none.
#[derive(Clone, Copy)]
struct Row {
    left: u32,
    path: &'static [Id],
    right: Value,
    unifier: Option<u32>,
}

const ADDED: Row = Row {
    left: 2,
    path: &[F],
    right: Value::Node(Addr {
        block: 0,
        offset: 3,
    }),
    unifier: Some(11),
};

const CLASH: Row = Row {
    left: 2,
    path: &[F],
    right: Value::Node(Addr {
        block: 0,
        offset: 4,
    }),
    unifier: None,
};

const CIRCLE: Row = Row {
    left: 6,
    path: &[],
    right: Value::Node(Addr {
        block: 0,
        offset: 7,
    }),
    unifier: None,
};

const ITSELF: Row = Row {
    left: 1,
    path: &[],
    right: Value::Node(Addr {
        block: 0,
        offset: 1,
    }),
    unifier: Some(1),
};

const NO_ATOM: Row = Row {
    left: 9,
    path: &[F],
    right: Value::Atom(Y),
    unifier: None,
};

const ATOM: Row = Row {
    left: 8,
    path: &[F],
    right: Value::Atom(Y),
    unifier: Some(12),
};

const OLD: Ref = Ref::Old(Addr {
    block: 0,
    offset: 0,
});

/// The unifier of a row. Fails also where the row names no node of the sample, or an undefined path.
fn unify<L: Ledger>(
    alloc: Global,
    arena: &PlainArena,
    row: Row,
    scratch: &mut Scratch,
    steps: &mut Steps<L>,
) -> Result<Option<Made>, Memory>
    requires { (shown_of arena.now).sizes ≡ 13 ∷ [] }
    ensures { IfOk result (λ found. IfSome found (λ made. OldIsHeld (shown_of arena.now) made.block × Fits (shown_of arena.now) (length made.block) made.root)) }
{
    if row.left >= 13 || !is_in_sample(arena, row.right) {
        return Err(AllocError);
    }
    let left = Addr {
        block: 0,
        offset: row.left,
    };
    let Some(_) = resolve_path(arena, Value::Node(left), row.path) else {
        return Err(AllocError);
    };
    unify_at(alloc, arena, left, row.path, row.right, scratch, steps)
}

/// Whether a row is so.
fn is_so<L: Ledger>(
    alloc: Global,
    arena: &PlainArena,
    row: Row,
    scratch: &mut Scratch,
    steps: &mut Steps<L>,
) -> Result<bool, Memory>
    requires { (shown_of arena.now).sizes ≡ 13 ∷ [] }
{
    let found = unify(alloc, arena, row, scratch, steps)?;
    let Some(made) = found else {
        return Ok(row.unifier.is_none());
    };
    let Some(wanted) = row.unifier else {
        return Ok(false);
    };
    if wanted >= 13 {
        return Err(AllocError);
    }
    is_same(alloc, arena, made.block, made.root, wanted)
}

/// Whether all rows are so, each in turn with the marks of one scratch, whose generations begin with this number.
fn are_so<L: Ledger>(alloc: Global, rows: &[Row], stamp: u32, blank: Blank) -> Result<bool, Memory>
    requires stamp { 1 ≤ stamp }
    requires name { blank.name ≡ L.name }
    requires parts { blank.parts ≡ L.parts }
    requires some { 0 < blank.parts }
{
    let arena = sample(alloc)?;
    let mut scratch = Scratch::with_stamp(alloc, stamp);
    let mut steps = Steps::<L>::new(blank);
    for row in rows {
        if !is_so(alloc, &arena, *row, &mut scratch, &mut steps)? {
            return Ok(false);
        }
    }
    Ok(true)
}

/// The unifier of a row, made with a scratch of its own.
fn made_of<L: Ledger>(
    alloc: Global,
    arena: &PlainArena,
    row: Row,
    blank: Blank,
) -> Result<Option<Made>, Memory>
    requires arena { (shown_of arena.now).sizes ≡ 13 ∷ [] }
    requires name { blank.name ≡ L.name }
    requires parts { blank.parts ≡ L.parts }
    requires some { 0 < blank.parts }
{
    let mut scratch = Scratch::new(alloc);
    let mut steps = Steps::<L>::new(blank);
    unify(alloc, arena, row, &mut scratch, &mut steps)
}

/// Where the last arc of the block's node at this offset leads.
fn last_of(block: &Block, offset: u32) -> Option<Ref> {
    if offset >= block.len() {
        return None;
    }
    match block.arcs(offset).last() {
        Some(arc) => Some(arc.to),
        None => None,
    }
}

#[test]
fn unifiers_are_least(rt: HostRuntime) -> Result<(), Fail> {
    let rows = &[ADDED, CLASH, CIRCLE, ITSELF, NO_ATOM, ATOM];
    let so = are_so::<Brand>(rt.alloc(), rows, 1, Blank::new(1))?;
    assert!(rt; so);
    Ok(())
}

#[test]
fn generations_begin_anew(rt: HostRuntime) -> Result<(), Fail> {
    let turns = &[
        ADDED, CLASH, ADDED, CLASH, ADDED, CLASH, ADDED, CLASH, ADDED, CLASH, ADDED, CLASH,
    ];
    let so = are_so::<Brand>(rt.alloc(), turns, 4294967290, Blank::new(1))?;
    assert!(rt; so);
    Ok(())
}

/// What `decide` finds of two nodes with exactly the room that they need, or `None` where that is not this room.
fn decide_within<L: Ledger>(
    alloc: Global,
    arena: &PlainArena,
    nodes: (u32, u32),
    path: &[Id],
    room: (u64, u64, u64),
    blank: Blank,
) -> Result<Option<Decision>, Memory>
    requires first { IsHeld (shown_of arena.now) 0 nodes.0 }
    requires second { IsHeld (shown_of arena.now) 0 nodes.1 }
    requires name { blank.name ≡ L.name }
    requires parts { blank.parts ≡ L.parts }
    requires some { 0 < blank.parts }
{
    let left = Addr {
        block: 0,
        offset: nodes.0,
    };
    let right = node(nodes.1);
    let Some(_) = resolve_path(arena, Value::Node(left), path) else {
        return Err(AllocError);
    };
    let table = arena.count();
    let mut scratch = Scratch::new(alloc);
    scratch.reserve(table, 0, 0)?;
    let first = reachable(alloc, arena, Value::Node(left), &mut scratch)?;
    let second = reachable(alloc, arena, right, &mut scratch)?;
    let visits = first.nodes.checked_add(second.nodes).ok_or(AllocError)?;
    let arcs = first.arcs.checked_add(second.arcs).ok_or(AllocError)?;
    if (table, visits, arcs) != room {
        return Ok(None);
    }
    scratch.reserve(table, visits, arcs)?;
    let mut steps = Steps::<L>::new(blank);
    let found = decide(arena, left, path, right, &mut scratch, &mut steps);
    Ok(Some(found))
}

#[test]
fn exact_room_suffices(rt: HostRuntime) -> Result<(), Fail> {
    let alloc = rt.alloc();
    let arena = arena_of(alloc, four(alloc)?)?;
    let apart = decide_within::<Brand>(alloc, &arena, (2, 3), &[F], (4, 4, 4), Blank::new(1))?;
    assert_eq!(rt; apart, Some(Decision::Solvable));
    let arena = arena_of(alloc, one(alloc)?)?;
    let itself = decide_within::<Brand>(alloc, &arena, (0, 0), &[], (1, 2, 2), Blank::new(1))?;
    assert_eq!(rt; itself, Some(Decision::Solvable));
    Ok(())
}

/// How many new nodes it takes to put an element before a list, or `None` where that fails.
fn new_nodes<L: Ledger>(alloc: Global, count: u32, blank: Blank) -> Result<Option<u32>, Memory>
    requires count { count < 1000 }
    requires name { blank.name ≡ L.name }
    requires parts { blank.parts ≡ L.parts }
    requires some { 0 < blank.parts }
{
    let arena = list(alloc, count)?;
    let left = Addr {
        block: 0,
        offset: 1,
    };
    let Some(_) = resolve_path(&arena, Value::Node(left), &[G]) else {
        return Ok(None);
    };
    let right = node(count + 2);
    let mut scratch = Scratch::new(alloc);
    let mut steps = Steps::<L>::new(blank);
    let Some(made) = unify_at(alloc, &arena, left, &[G], right, &mut scratch, &mut steps)? else {
        return Ok(None);
    };
    Ok(Some(made.block.len()))
}

#[test]
fn what_an_element_costs_does_not_grow_with_the_list(rt: HostRuntime) -> Result<(), Fail> {
    let alloc = rt.alloc();
    let few = new_nodes::<Brand>(alloc, 10, Blank::new(1))?;
    let many = new_nodes::<Brand>(alloc, 200, Blank::new(1))?;
    assert!(rt; few.is_some());
    assert_eq!(rt; few, many);
    Ok(())
}

#[test]
fn untouched_nodes_stay(rt: HostRuntime) -> Result<(), Fail> {
    let alloc = rt.alloc();
    let arena = sample(alloc)?;
    let added = made_of::<Brand>(alloc, &arena, ADDED, Blank::new(1))?;
    assert!(rt; added.is_some());
    if let Some(made) = added {
        assert_eq!(rt; made.root, Ref::New(1));
        assert_eq!(rt; last_of(&made.block, 1), Some(OLD));
        assert_eq!(rt; (made.block.len(), made.nodes, made.arcs), (2, 3, 4));
    }
    let itself = made_of::<Brand>(alloc, &arena, ITSELF, Blank::new(1))?;
    assert!(rt; itself.is_some());
    if let Some(made) = itself {
        assert_eq!(rt; (made.block.len(), made.nodes, made.arcs), (0, 1, 1));
    }
    Ok(())
}
