//! Tests of the public calls, and worked examples in tables.
ghost use Rattle.std.specs.Prelude.{◌≡◌, ◌+◌, ◌<◌, ◌∷◌, [], length, IfOk};
ghost use Rattle.std.specs.List.Sorted.{IsStrictlyIncreasing};
ghost use Rattle.patr_arena.specs.Arenas.{shown_of};
ghost use Rattle.patr_arena.specs.Blocks.{AllBelow, AllOldHeld, OldIsHeld, attributes};
ghost use Rattle.patr_arena.specs.Sentences.{sentence_of};
ghost use Rattle.patr_arena.specs.Shown.{Shown};
ghost use Rattle.patr_arena.specs.declared.value.Value.TheVariants.{Node};

use super::*;
use std::alloc::{AllocError, Global};
use std::test::Fail;

const A: Id = Id(38);

const B: Id = Id(39);

const X: Id = Id(40);

const Y: Id = Id(41);

/// Adds a node without old addresses.
fn add(block: &mut Block, arcs: &[Feature]) -> Result<(), Memory>
    requires rising { IsStrictlyIncreasing (attributes arcs.now) }
    requires below { AllBelow (length block.old) arcs.now }
    requires own { (v : Shown) → AllOldHeld v arcs.now }
    ensures { IfOk result (λ _. (length block.new ≡ length block.old + 1) × (((v : Shown) → OldIsHeld v block.old) → (v : Shown) → OldIsHeld v block.new)) }
{
    block.add(arcs)?;
    Ok(())
}

/// Adds a node with one arc.
fn add_one(block: &mut Block, attribute: Id, to: Ref) -> Result<(), Memory>
    requires below { AllBelow (length block.old) (record { attribute = attribute; to = to } ∷ []) }
    requires own { (v : Shown) → AllOldHeld v (record { attribute = attribute; to = to } ∷ []) }
    ensures { IfOk result (λ _. (length block.new ≡ length block.old + 1) × (((v : Shown) → OldIsHeld v block.old) → (v : Shown) → OldIsHeld v block.new)) }
{
    add(block, &[Feature { attribute, to }])
}

/// Adds a node with the arcs `a` and `b`.
fn add_two(block: &mut Block, a: Ref, b: Ref) -> Result<(), Memory>
    requires below { AllBelow (length block.old) (record { attribute = record { 0 = 38 }; to = a } ∷ record { attribute = record { 0 = 39 }; to = b } ∷ []) }
    requires own { (v : Shown) → AllOldHeld v (record { attribute = record { 0 = 38 }; to = a } ∷ record { attribute = record { 0 = 39 }; to = b } ∷ []) }
    ensures { IfOk result (λ _. (length block.new ≡ length block.old + 1) × (((v : Shown) → OldIsHeld v block.old) → (v : Shown) → OldIsHeld v block.new)) }
{
    add(
        block,
        &[
            Feature {
                attribute: A,
                to: a,
            },
            Feature {
                attribute: B,
                to: b,
            },
        ],
    )
}

/// An arena of one block with the nodes `[]`, `[a: []]`, `[a: x]`, `[]`, `[a: #1 [] b: #1]`, `[a: [] b: []]`,
/// `[a: y]` and `[a: x b: y]`.
fn sample(alloc: Global) -> Result<PlainArena, Memory>
    ensures { IfOk result (λ arena. (shown_of arena).sizes ≡ 8 ∷ []) }
{
    let mut block = Block::new(alloc);
    add(&mut block, &[])?;
    add_one(&mut block, A, Ref::New(0))?;
    add_one(&mut block, A, Ref::Atom(X))?;
    add(&mut block, &[])?;
    add_two(&mut block, Ref::New(0), Ref::New(0))?;
    add_two(&mut block, Ref::New(0), Ref::New(3))?;
    add_one(&mut block, A, Ref::Atom(Y))?;
    add_two(&mut block, Ref::Atom(X), Ref::Atom(Y))?;
    let mut arena = PlainArena::new(alloc);
    let Ok(_) = arena.push(block) else {
        return Err(AllocError);
    };
    Ok(arena)
}

/// A node of the sample.
fn node(offset: u32) -> Value
    ensures { result ≡ Node (record { block = 0; offset = offset }) }
{
    Value::Node(Addr { block: 0, offset })
}

/// Whether one node of the sample maps into another.
fn maps(alloc: Global, arena: &PlainArena, from: u32, to: u32) -> Result<bool, Memory>
    requires arena { (shown_of arena.now).sizes ≡ 8 ∷ [] }
    requires from { from < 8 }
    requires to { to < 8 }
{
    maps_into(alloc, arena, node(from), node(to))
}

#[test]
fn values_map_into_others(rt: HostRuntime) -> Result<(), Fail> {
    let arena = sample(rt.alloc())?;
    for (from, to, wanted) in [
        (1, 2, true),
        (2, 1, false),
        (4, 5, false),
        (5, 4, true),
        (2, 6, false),
        (2, 7, true),
        (7, 2, false),
    ] {
        assert_eq!(rt;
            maps(rt.alloc(), &arena, from, to)?,
            wanted,
            "{from} into {to}"
        );
    }
    Ok(())
}

#[test]
fn atoms_map_to_themselves(rt: HostRuntime) -> Result<(), Fail> {
    let arena = sample(rt.alloc())?;
    let x = Value::Atom(X);
    assert!(rt; maps_into(rt.alloc(), &arena, node(0), x)?);
    assert!(rt; !maps_into(rt.alloc(), &arena, node(2), x)?);
    assert!(rt; !maps_into(rt.alloc(), &arena, x, node(0))?);
    assert!(rt; !maps_into(rt.alloc(), &arena, x, Value::Atom(Y))?);
    assert!(rt; maps_into(rt.alloc(), &arena, x, x)?);
    Ok(())
}

/// An arena of the one node `[a: x]`.
fn base(alloc: Global) -> Result<PlainArena, Memory>
    ensures { IfOk result (λ arena. (shown_of arena).sizes ≡ 1 ∷ []) }
{
    let mut block = Block::new(alloc);
    add_one(&mut block, A, Ref::Atom(X))?;
    let mut arena = PlainArena::new(alloc);
    let Ok(_) = arena.push(block) else {
        return Err(AllocError);
    };
    Ok(arena)
}

/// Puts a block of one node behind the base, with an arc `b` to the node of the base. Answers the block's number.
fn push_over(alloc: Global, arena: &mut SentenceArena) -> Result<u32, Memory>
    requires { (sentence_of arena.old).sizes ≡ 1 ∷ [] }
    ensures { IfOk result (λ _. (sentence_of arena.new).sizes ≡ 1 ∷ 1 ∷ []) }
{
    let mut block = Block::new(alloc);
    let to = Ref::Old(Addr {
        block: 0,
        offset: 0,
    });
    block.add(&[Feature { attribute: B, to }])?;
    let Ok(number) = arena.push(block) else {
        return Err(AllocError);
    };
    Ok(number)
}

#[test]
fn a_block_stands_behind_the_base(rt: HostRuntime) -> Result<(), Fail> {
    let base = base(rt.alloc())?;
    let mut arena = SentenceArena::over(rt.alloc(), &base);
    assert_eq!(rt; push_over(rt.alloc(), &mut arena)?, 1);
    let view = View::of(&arena);
    assert_eq!(rt; view.blocks(), 2);
    assert_eq!(rt; view.count(), 2);
    let at = Addr {
        block: 1,
        offset: 0,
    };
    assert_eq!(rt; view.number(at), 1);
    let value = Value::Node(at);
    assert_eq!(rt; resolve_path(&view, value, &[B, A]), Some(Value::Atom(X)));
    assert_eq!(rt; resolve_path(&view, value, &[A]), None);
    assert_eq!(rt; resolve_path(&view, value, &[B]), Some(node(0)));
    assert_eq!(rt; resolve_path(&base, node(0), &[A]), Some(Value::Atom(X)));
    assert!(rt; !maps_into(rt.alloc(), &view, value, node(0))?);
    Ok(())
}

/// An arena of one node without arcs and then this many nodes, each of which leads to the one before it by `a` and
/// by `b`. Unshared, each would be twice as large as the one before it.
fn ladder(alloc: Global, rungs: u32) -> Result<PlainArena, Memory>
    ensures { IfOk result (λ arena. (shown_of arena).sizes ≡ (rungs + 1) ∷ []) }
{
    let mut block = Block::new(alloc);
    add(&mut block, &[])?;
    for last in 0..rungs {
        add_two(&mut block, Ref::New(last), Ref::New(last))?;
    }
    let mut arena = PlainArena::new(alloc);
    let Ok(_) = arena.push(block) else {
        return Err(AllocError);
    };
    Ok(arena)
}

#[test]
fn shared_nodes_are_looked_at_once(rt: HostRuntime) -> Result<(), Fail> {
    let rungs = 100_000;
    let arena = ladder(rt.alloc(), rungs)?;
    let top = node(rungs);
    let below = node(rungs - 1);
    assert!(rt; maps_into(rt.alloc(), &arena, top, top)?);
    assert!(rt; maps_into(rt.alloc(), &arena, below, top)?);
    assert!(rt; !maps_into(rt.alloc(), &arena, top, below)?);
    Ok(())
}

#[test]
fn a_block_is_cut_to_its_first_nodes(rt: HostRuntime) -> Result<(), Fail> {
    let mut block = Block::with_room(rt.alloc(), 2, 3)?;
    assert_eq!(rt; block.len(), 0);
    block.add(&[])?;
    add_one(&mut block, A, Ref::New(0))?;
    block.truncate(1);
    assert_eq!(rt; block.len(), 1);
    assert_eq!(rt; block.arcs(0), [].as_slice());
    Ok(())
}
