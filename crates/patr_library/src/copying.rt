//! The nodes that a value reaches, copied into one block.
ghost use Rattle.std.specs.Prelude.{◌≡◌, true, IfOk, OnOk, length};
ghost use Rattle.std.specs.List.{sum_by};
ghost use Rattle.std.specs.List.Sorted.{IsStrictlyIncreasing};
ghost use Rattle.patr_model.specs.Subsumption.{Same};
ghost use Rattle.patr_arena.specs.Arenas.{shown_of};
ghost use Rattle.patr_arena.specs.Blocks.{attributes, with_block, IsBlock, OldIsHeld};
ghost use Rattle.patr_arena.specs.Shown.{IsHeld, ValueIsHeld, number_of, value_of};
ghost use Rattle.patr_library.specs.Own.{AllOwn, ArePlaces, IsOwnBlock, IsRooted, own_nodes, own_value};
ghost use Rattle.patr_library.specs.Copies.{AreCopies, AreImages, AreReached, HasCopy, HaveCopies, IsImage, IsNextImage, arcs_at, image_at, with_mark, with_marks};

use crate::stating::{Rooted, top};
use patr_arena::{Addr, Block, Feature, Memory, Nodes, PlainArena, Ref, Value};
use std::alloc::{AllocError, Global};

/// How many arcs a block has.
pub(crate) fn count_arcs(block: &Block) -> Result<u64, Memory>
    ensures { IfOk result (λ arcs. arcs ≡ sum_by length block.now) }
{
    let mut arcs: u64 = 0;
    for offset in 0..block.len() {
        let more = block.arcs(offset).len() as u64;
        arcs = arcs.checked_add(more).ok_or(AllocError)?;
    }
    Ok(arcs)
}

/// Puts a block behind the others, and the addresses of its nodes behind theirs.
pub(crate) fn push(
    arena: &mut PlainArena,
    places: &mut Vec<Addr>,
    block: Block,
) -> Result<u32, Memory>
    requires block { OldIsHeld (shown_of arena.old) block }
    requires places { ArePlaces (shown_of arena.old) places.old.items }
    ensures block { IsBlock block }
    ensures number { IfOk result (λ number. number ≡ length (shown_of arena.old).sizes) }
    ensures pushed { OnOk result (shown_of arena.new ≡ with_block (shown_of arena.old) block) }
    ensures places { OnOk result (ArePlaces (shown_of arena.new) places.new.items) }
{
    let count = block.len();
    let Ok(number) = arena.push(block) else {
        return Err(AllocError);
    };
    for offset in 0..count {
        places.push(Addr {
            block: number,
            offset,
        })?;
    }
    Ok(number)
}

/// Says that a value is reached.
fn mark(arena: &PlainArena, reached: &mut Vec<bool>, to: Value)
    requires held { ValueIsHeld (shown_of arena.now) to }
    requires long { length reached.old.items ≡ length (shown_of arena.now).structure }
    ensures { reached.new.items ≡ with_mark reached.old.items (value_of (shown_of arena.now) to) }
{
    if let Value::Node(at) = to {
        reached[arena.number(at) as usize] = true;
    }
}

/// Says that what a node's arcs lead to is reached.
fn mark_targets(arena: &PlainArena, at: Addr, reached: &mut Vec<bool>)
    requires at { IsHeld (shown_of arena.now) at.block at.offset }
    requires long { length reached.old.items ≡ length (shown_of arena.now).structure }
    ensures { reached.new.items ≡ with_marks reached.old.items (arcs_at (shown_of arena.now) at) }
{
    for arc in arena.arcs(at) {
        mark(arena, reached, arena.resolve(at.block, arc.to));
    }
}

/// Which nodes are reached from a value, by their places. It goes from the last place to the first, since arcs lead to
/// lower ones.
fn reached_from(
    alloc: Global,
    arena: &PlainArena,
    places: &[Addr],
    from: Value,
) -> Result<Vec<bool>, Memory>
    requires places { ArePlaces (shown_of arena.now) places.now }
    requires from { ValueIsHeld (shown_of arena.now) from }
    ensures long { IfOk result (λ reached. length reached.items ≡ length places.now) }
    ensures exact { IfOk result (λ reached. AreReached (shown_of arena.now).structure (value_of (shown_of arena.now) from) reached.items) }
{
    let mut reached = Vec::from_elem(alloc, false, places.len())?;
    mark(arena, &mut reached, from);
    let mut left = places.len();
    while left > 0 {
        left -= 1;
        if reached[left] {
            mark_targets(arena, places[left], &mut reached);
        }
    }
    Ok(reached)
}

/// The arc to a value's copy.
fn image_of(arena: &PlainArena, images: &[Option<u32>], to: Value) -> Ref
    requires held { ValueIsHeld (shown_of arena.now) to }
    requires copied { HasCopy (image_at images.now) (value_of (shown_of arena.now) to) }
    ensures { IsImage (image_at images.now) (value_of (shown_of arena.now) to) result }
{
    match to {
        Value::Atom(atom) => Ref::Atom(atom),
        Value::Node(at) => match images[arena.number(at) as usize] {
            Some(offset) => Ref::New(offset),
            None => unreachable!(),
        },
    }
}

/// The arcs of a node, led to copies.
fn copied_arcs(
    alloc: Global,
    arena: &PlainArena,
    images: &[Option<u32>],
    at: Addr,
) -> Result<Vec<Feature>, Memory>
    requires at { IsHeld (shown_of arena.now) at.block at.offset }
    requires copied { HaveCopies (image_at images.now) (arcs_at (shown_of arena.now) at) }
    ensures { IfOk result (λ arcs. AreCopies (image_at images.now) (arcs_at (shown_of arena.now) at) arcs.items) }
{
    let mut arcs = Vec::new(alloc);
    for arc in arena.arcs(at) {
        let to = image_of(arena, images, arena.resolve(at.block, arc.to));
        arcs.push(Feature {
            attribute: arc.attribute,
            to,
        })?;
    }
    Ok(arcs)
}

/// Copies the next place, where it is reached.
fn copy_next(
    alloc: Global,
    arena: &PlainArena,
    at: Addr,
    reached: bool,
    images: &mut Vec<Option<u32>>,
    block: &mut Block,
) -> Result<(), Memory>
    requires at { IsHeld (shown_of arena.now) at.block at.offset }
    requires next { number_of (shown_of arena.now) at.block at.offset ≡ length images.old.items }
    requires images { AreImages (shown_of arena.now).structure images.old.items block.old }
    requires copied { reached ≡ true → HaveCopies (image_at images.old.items) (arcs_at (shown_of arena.now) at) }
    ensures more { OnOk result (IsNextImage reached images.old.items images.new.items) }
    ensures images { OnOk result (AreImages (shown_of arena.now).structure images.new.items block.new) }
{
    if !reached {
        images.push(None)?;
        return Ok(());
    }
    let arcs = copied_arcs(alloc, arena, images, at)?;
    let offset = top(block, &arcs)?;
    images.push(Some(offset))?;
    Ok(())
}

/// A value with what it reaches, in one block.
pub(crate) fn compact(
    alloc: Global,
    arena: &PlainArena,
    places: &[Addr],
    from: Value,
) -> Result<Rooted, Memory>
    requires places { ArePlaces (shown_of arena.now) places.now }
    requires from { ValueIsHeld (shown_of arena.now) from }
    ensures rooted { IfOk result (λ made. IsRooted made.block made.root) }
    ensures same { IfOk result (λ made. Same (shown_of arena.now).structure (value_of (shown_of arena.now) from) (own_nodes made.block) (own_value made.root)) }
{
    let reached = reached_from(alloc, arena, places, from)?;
    let mut images = Vec::new(alloc);
    let mut block = Block::new(alloc);
    for (place, at) in places.iter().enumerate() {
        copy_next(alloc, arena, *at, reached[place], &mut images, &mut block)?;
    }
    let root = image_of(arena, &images, from);
    Ok(Rooted { block, root })
}
