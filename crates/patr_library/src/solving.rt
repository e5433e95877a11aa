//! The least value of equations over slots.
ghost use Rattle.std.specs.Prelude.{◌≡◌, ◌<◌, ◌++◌, ◌∷◌, [], ℕ, List, Some, IfOk, OnOk};
ghost use Rattle.patr_model.specs.Equation as model;
ghost use Rattle.patr_model.specs.Plain.{stated};
ghost use Rattle.patr_model.specs.Variants.{AreWithin};
ghost use Rattle.patr_arena.specs.Arenas.{shown_of};
ghost use Rattle.patr_arena.specs.declared.value.Ref.TheVariants as ref;
ghost use Rattle.patr_expand.specs.Seen.{equation_at, equations_at};
ghost use Rattle.patr_library.specs.Own.{IsOwnBlock, IsRooted};
ghost use Rattle.patr_library.specs.Solved.{IsLeastAt, IsSlots};
ghost use Rattle.patr_library.specs.Starts.{IsBegun, IsSolved, IsSolvedIn, fact_features, facts_at, slots_of, stated_of};
ghost use Rattle.patr_library.specs.Workspaces.{IsWorkspace};

use crate::stating::{Rooted, statement, top};
use crate::workspace::{Least, Workspace};
use patr_arena::{Block, Feature, Memory, Ref, Value};
use patr_expand::Equation;
use patr_scratch::Scratch;
use patr_text::{Id, Symbols};
use std::alloc::Global;

/// As many equations are taken one after another.
const FEW_EQUATIONS: usize = 8;

/// What an entry states besides its features.
#[derive(Clone, Copy)]
pub(crate) struct Facts {
    pub(crate) category: Id,
    pub(crate) word: Id,
    pub(crate) gloss: Option<Id>,
}

/// What stands before any equation is taken.
#[derive(Clone, Copy)]
pub(crate) enum Start {
    /// So many unspecified slots.
    Slots(u32),
    /// One slot, at which these facts hold.
    Entry(Facts),
}

/// The node of as many unspecified slots.
fn blank(alloc: Global, slots: u32) -> Result<Least, Memory>
    ensures { IfOk result (λ made. IsLeastAt slots [] made.block made.root) }
{
    let mut block = Block::new(alloc);
    let mut arcs = Vec::new(alloc);
    for slot in 0..slots {
        let offset = top(&mut block, &[])?;
        arcs.push(Feature {
            attribute: Id(slot),
            to: Ref::New(offset),
        })?;
    }
    let root = top(&mut block, &arcs)?;
    Ok(Least { block, root })
}

/// An arc to an atom.
fn fact(attribute: Id, atom: Id) -> Feature
    ensures { result ≡ record { attribute = attribute; to = ref.Atom atom } }
{
    Feature {
        attribute,
        to: Ref::Atom(atom),
    }
}

/// A node with an arc for each fact, alone in its block.
fn described(alloc: Global, facts: Facts) -> Result<Block, Memory>
    ensures node { IfOk result (λ block. block ≡ fact_features (facts_at facts) ∷ []) }
    ensures own { IfOk result IsOwnBlock }
{
    let mut block = Block::new(alloc);
    let category = fact(Symbols::CAT, facts.category);
    let word = fact(Symbols::LEX, facts.word);
    match facts.gloss {
        None => top(&mut block, &[category, word])?,
        Some(gloss) => top(&mut block, &[category, word, fact(Symbols::GLOSS, gloss)])?,
    };
    Ok(block)
}

/// The node of one slot, at which the facts hold.
fn with_facts(alloc: Global, facts: Facts) -> Result<Least, Memory>
    ensures { IfOk result (λ made. IsLeastAt 1 (stated (facts_at facts)) made.block made.root) }
{
    let mut block = described(alloc, facts)?;
    let slot = Feature {
        attribute: Id(0),
        to: Ref::New(0),
    };
    let root = top(&mut block, &[slot])?;
    Ok(Least { block, root })
}

/// The least value of the start alone.
fn begun(alloc: Global, start: Start) -> Result<Least, Memory>
    ensures { IfOk result (λ made. IsLeastAt (slots_of start) (stated_of start) made.block made.root) }
{
    match start {
        Start::Slots(slots) => blank(alloc, slots),
        Start::Entry(facts) => with_facts(alloc, facts),
    }
}

/// As many slots, of which nothing is stated.
fn without_facts(start: Start) -> Start
    ensures slots { slots_of result ≡ slots_of start }
    ensures stated { stated_of result ≡ [] }
{
    match start {
        Start::Slots(slots) => Start::Slots(slots),
        Start::Entry(_) => Start::Slots(1),
    }
}

/// The least value with one more equation.
fn with_equation(
    alloc: Global,
    space: &mut Workspace,
    so_far: Value,
    equation: &Equation,
    scratch: &mut Scratch,
) -> Result<Option<Value>, Memory>
    requires whole { IsWorkspace space.old }
    requires slots { IsSlots (shown_of space.old.arena) so_far }
    ensures whole { OnOk result (IsWorkspace space.new) }
    ensures solved { (slots : ℕ) (es : List model.Equation) → IsSolvedIn (shown_of space.old.arena) slots es (Some so_far) → AreWithin slots (es ++ equation_at equation.now ∷ []) → IfOk result (IsSolvedIn (shown_of space.new.arena) slots (es ++ equation_at equation.now ∷ [])) }
{
    let Some(stated) = statement(alloc, equation)? else {
        return Ok(None);
    };
    let made = space.unify(alloc, so_far, stated, scratch)?;
    Ok(made)
}

/// The least value of the start at which the equations hold, or `None` where no structure has one, found by taking one
/// equation after another.
fn solved_in_turn(
    alloc: Global,
    start: Start,
    equations: &[Equation],
    scratch: &mut Scratch,
) -> Result<Option<Least>, Memory>
    requires any { 0 < slots_of start }
    requires within { AreWithin (slots_of start) (stated_of start ++ equations_at equations.now) }
    ensures { IfOk result (IsSolved (slots_of start) (stated_of start ++ equations_at equations.now)) }
{
    let least = begun(alloc, start)?;
    if equations.is_empty() {
        return Ok(Some(least));
    }
    let mut space = Workspace::new(alloc);
    let mut so_far = space.put(least.block, Ref::New(least.root))?;
    for equation in equations {
        let Some(next) = with_equation(alloc, &mut space, so_far, equation, scratch)? else {
            return Ok(None);
        };
        so_far = next;
    }
    let least = space.compacted(alloc, so_far)?;
    Ok(Some(least))
}

/// The least value of the equations of both.
fn unified(
    alloc: Global,
    left: Least,
    right: Least,
    scratch: &mut Scratch,
) -> Result<Option<Least>, Memory>
    requires left { (slots : ℕ) × (es : List model.Equation) × IsBegun slots es left }
    requires right { IsRooted right.block (ref.New right.root) }
    ensures { (slots : ℕ) (es fs : List model.Equation) → IsBegun slots es left → AreWithin slots fs → IsSolved slots fs (Some right) → IfOk result (IsSolved slots (es ++ fs)) }
{
    let mut space = Workspace::new(alloc);
    let first = space.put(left.block, Ref::New(left.root))?;
    let second = Rooted {
        block: right.block,
        root: Ref::New(right.root),
    };
    let Some(whole) = space.unify(alloc, first, second, scratch)? else {
        return Ok(None);
    };
    let least = space.compacted(alloc, whole)?;
    Ok(Some(least))
}

/// The least value of the start at which the equations hold, or `None` where no structure has one.
///
/// Many equations are solved half by half: what each unification goes over is what the nodes so far and one equation
/// reach, so one after another would take the square of their number.
pub(crate) fn solved(
    alloc: Global,
    start: Start,
    equations: &[Equation],
    scratch: &mut Scratch,
) -> Result<Option<Least>, Memory>
    requires any { 0 < slots_of start }
    requires within { AreWithin (slots_of start) (stated_of start ++ equations_at equations.now) }
    ensures { IfOk result (IsSolved (slots_of start) (stated_of start ++ equations_at equations.now)) }
{
    if equations.len() <= FEW_EQUATIONS {
        return solved_in_turn(alloc, start, equations, scratch);
    }
    let (front, back) = equations.split_at(equations.len() / 2);
    let Some(left) = solved(alloc, start, front, scratch)? else {
        return Ok(None);
    };
    let Some(right) = solved(alloc, without_facts(start), back, scratch)? else {
        return Ok(None);
    };
    let made = unified(alloc, left, right, scratch)?;
    Ok(made)
}
