//! An equation as a small structure: a path to an atom, or two paths to one unspecified node.
ghost use Rattle.std.specs.Prelude.{◌≡◌, ◌++◌, ◌∷◌, [], ◌<◌, ◌≤◌, None, Some, IfOk, IfSome, IfNone, length, take, slice_get};
ghost use Rattle.std.specs.List.Sorted.{IsStrictlyIncreasing};
ghost use Rattle.patr_model.specs.EquationStructures.{forked, one_place};
ghost use Rattle.patr_model.specs.Variants as model;
ghost use Rattle.patr_model.specs.Variants.{from_root};
ghost use Rattle.patr_arena.specs.Blocks.{attributes};
ghost use Rattle.patr_arena.specs.Paths.{ids};
ghost use Rattle.patr_expand.specs.Seen.{equation_at, path_at, term_at};
ghost use Rattle.patr_library.specs.Own.{AllOwn, ArePartedAt, IsLedTo, IsOwnBlock, IsPlaceOf, IsRooted, IsStatement, pointed};

use patr_arena::{Block, Feature, Id, Memory, Ref};
use patr_expand::{Equation, SlotPath, Term};
use std::alloc::Global;

/// A block without old addresses, and a value of it.
#[derive(Drop)]
pub(crate) struct Rooted {
    pub(crate) block: Block,
    pub(crate) root: Ref,
}

/// Puts a node with these arcs behind the others, and answers its offset.
pub(crate) fn top(block: &mut Block, arcs: &[Feature]) -> Result<u32, Memory>
    requires rising { IsStrictlyIncreasing (attributes arcs.now) }
    requires own { AllOwn (length block.old) arcs.now }
    requires block { IsOwnBlock block.old }
    ensures new { IfOk result (λ offset. (offset ≡ length block.old) × (block.new ≡ block.old ++ arcs.now ∷ [])) }
    ensures block { IfOk result (λ _. IsOwnBlock block.new) }
{
    let offset = block.add(arcs)?;
    Ok(offset)
}

/// Puts nodes along a path to a value behind the others, and answers where the path begins.
fn lead(block: &mut Block, path: &[Id], to: Ref) -> Result<Ref, Memory>
    requires { IsRooted block.old to }
    ensures { IfOk result (λ root. IsLedTo block.old to (ids path.now) block.new root) }
{
    let mut root = to;
    let mut left = path.len();
    while left > 0 {
        left -= 1;
        let arc = Feature {
            attribute: path[left],
            to: root,
        };
        let offset = top(block, &[arc])?;
        root = Ref::New(offset);
    }
    Ok(root)
}

/// How many attributes both paths begin with.
fn common(left: &[Id], right: &[Id]) -> usize
    ensures within { (result ≤ length left.now) × (result ≤ length right.now) }
    ensures fronts { take result left.now ≡ take result right.now }
    ensures parted { (a b : Id) → slice_get left.now result ≡ Some a → slice_get right.now result ≡ Some b → a ≡ b → ⊥ }
{
    let most = left.len().min(right.len());
    for at in 0..most {
        if left[at] != right[at] {
            return at;
        }
    }
    most
}

/// Two paths to one unspecified node, which begin with different attributes, the left one's below the right one's.
fn fork(alloc: Global, a: Id, left: &[Id], b: Id, right: &[Id]) -> Result<Rooted, Memory>
    requires { a.0 < b.0 }
    ensures { IfOk result (λ made. IsRooted made.block made.root × (forked a.0 (ids left.now) b.0 (ids right.now) ≡ pointed made.block made.root)) }
{
    let mut block = Block::new(alloc);
    let place = Ref::New(top(&mut block, &[])?);
    let one = lead(&mut block, left, place)?;
    let two = lead(&mut block, right, place)?;
    let first = Feature {
        attribute: a,
        to: one,
    };
    let second = Feature {
        attribute: b,
        to: two,
    };
    let root = Ref::New(top(&mut block, &[first, second])?);
    Ok(Rooted { block, root })
}

/// One unspecified node.
fn anything(alloc: Global) -> Result<Rooted, Memory>
    ensures { IfOk result (λ made. IsRooted made.block made.root × (one_place [] [] ≡ Some (pointed made.block made.root))) }
{
    let mut block = Block::new(alloc);
    let root = Ref::New(top(&mut block, &[])?);
    Ok(Rooted { block, root })
}

/// The structure of two paths to one place that do not begin with the same attribute; none where one of them alone is
/// empty.
fn parted(alloc: Global, left: &[Id], right: &[Id]) -> Result<Option<Rooted>, Memory>
    requires { ArePartedAt (ids left.now) (ids right.now) }
    ensures some { IfOk result (λ found. IfSome found (λ made. IsRooted made.block made.root × IsPlaceOf (ids left.now) (ids right.now) (pointed made.block made.root))) }
    ensures none { IfOk result (λ found. IfNone found (one_place (ids left.now) (ids right.now) ≡ None)) }
{
    match (left, right) {
        ([], []) => {
            let made = anything(alloc)?;
            Ok(Some(made))
        }
        ([a, left @ ..], [b, right @ ..]) => {
            let made = if a.0 < b.0 {
                fork(alloc, *a, left, *b, right)?
            } else {
                fork(alloc, *b, right, *a, left)?
            };
            Ok(Some(made))
        }
        _ => Ok(None),
    }
}

/// The structure of two paths to one place; none where one is a proper front of the other.
fn one_place(alloc: Global, left: &[Id], right: &[Id]) -> Result<Option<Rooted>, Memory>
    ensures some { IfOk result (λ found. IfSome found (λ made. IsRooted made.block made.root × IsPlaceOf (ids left.now) (ids right.now) (pointed made.block made.root))) }
    ensures none { IfOk result (λ found. IfNone found (one_place (ids left.now) (ids right.now) ≡ None)) }
{
    let front = common(left, right);
    let (both, left_rest) = left.split_at(front);
    let (_, right_rest) = right.split_at(front);
    let Some(made) = parted(alloc, left_rest, right_rest)? else {
        return Ok(None);
    };
    let mut block = made.block;
    let root = lead(&mut block, both, made.root)?;
    Ok(Some(Rooted { block, root }))
}

/// The path from the node of the slots.
fn from_root(alloc: Global, path: &SlotPath) -> Result<Vec<Id>, Memory>
    ensures { IfOk result (λ all. ids all.items ≡ from_root (path_at path.now)) }
{
    let mut all = vec![in alloc; Id(path.slot)]?;
    all.extend_from_slice(&path.path)?;
    Ok(all)
}

/// The equation as a structure that maps into the node of the slots; none where no structure has it.
pub(crate) fn statement(alloc: Global, equation: &Equation) -> Result<Option<Rooted>, Memory>
    ensures some { IfOk result (λ found. IfSome found (λ made. IsRooted made.block made.root × IsStatement (equation_at equation.now) (pointed made.block made.root))) }
    ensures none { IfOk result (λ found. IfNone found (model.equation_at (equation_at equation.now) ≡ None)) }
{
    let left = from_root(alloc, &equation.left)?;
    match &equation.right {
        Term::Atom(atom) => {
            let mut block = Block::new(alloc);
            let root = lead(&mut block, &left, Ref::Atom(*atom))?;
            Ok(Some(Rooted { block, root }))
        }
        Term::Path(path) => {
            let right = from_root(alloc, path)?;
            let found = one_place(alloc, &left, &right)?;
            Ok(found)
        }
    }
}
