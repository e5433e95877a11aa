//! An edge that two edges make, as long as its nodes are in no arena.
ghost use Rattle.std.specs.Prelude.{◌≡◌, ◌∷◌, [], true, Some, length, IfOk};
ghost use Rattle.patr_model.specs.Structure.{arc};
ghost use Rattle.patr_arena.specs.Blocks.{OldIsHeld, with_block};
ghost use Rattle.patr_arena.specs.Sentences.{sentence_of};
ghost use Rattle.patr_arena.specs.Shown.{ValueIsHeld, value_of};
ghost use Rattle.patr_unify.specs.Copying.{Fits, made_of};
ghost use Rattle.patr_chart.specs.Charted.{IsEdgeAfter};
ghost use Rattle.patr_chart.specs.Edges.{kind_passive};
ghost use Rattle.patr_parse.specs.Drafts.{IsPlaced};
ghost use Rattle.patr_parse.specs.Joining.{HasMother, IsRootBy};

use patr_arena::{Block, Id, Memory, Nodes, Ref, SentenceArena, Value, resolve_path};
use patr_chart::{Chart, Edge, EdgeKind};
use std::alloc::AllocError;

/// An edge that two edges make, and the nodes of their unifier.
#[derive(Drop)]
pub(crate) struct Draft {
    /// The edge, whose root is still that of the active edge.
    pub(crate) edge: Edge,
    /// The unifier's new nodes.
    pub(crate) block: Block,
    /// The unifier's root.
    pub(crate) root: Ref,
}

/// The value of the mother's slot. Condition: it is there.
fn mother_of<N: Nodes>(nodes: &N, slots: Value) -> Value
    requires held { ValueIsHeld (N.shown nodes.now) slots }
    requires there { HasMother (N.shown nodes.now).structure (value_of (N.shown nodes.now) slots) }
    ensures held { ValueIsHeld (N.shown nodes.now) result }
    ensures mother { arc (N.shown nodes.now).structure (value_of (N.shown nodes.now) slots) 0
        ≡ Some (value_of (N.shown nodes.now) result) }
{
    let Some(mother) = resolve_path(nodes, slots, &[Id(0)]) else {
        unreachable!()
    };
    mother
}

/// What stands for an edge of this kind: the node of the slots, or, where no daughter is missing, the mother's slot,
/// which is there then.
pub(crate) fn root_for<N: Nodes>(nodes: &N, kind: EdgeKind, slots: Value) -> Value
    requires held { ValueIsHeld (N.shown nodes.now) slots }
    requires mother { kind_passive kind ≡ true
        → HasMother (N.shown nodes.now).structure (value_of (N.shown nodes.now) slots) }
    ensures held { ValueIsHeld (N.shown nodes.now) result }
    ensures root { IsRootBy (kind_passive kind) (N.shown nodes.now).structure
        (value_of (N.shown nodes.now) slots) (value_of (N.shown nodes.now) result) }
{
    if kind.is_passive() {
        mother_of(nodes, slots)
    } else {
        slots
    }
}

/// Puts a unifier's nodes behind the others, and answers what stands for an edge of this kind.
fn store_unifier(
    arena: &mut SentenceArena<'_>,
    block: Block,
    root: Ref,
    kind: EdgeKind,
) -> Result<Value, Memory>
    requires old { OldIsHeld (sentence_of arena.old) block }
    requires fits { Fits (sentence_of arena.old) (length block) root }
    requires mother { kind_passive kind ≡ true
        → HasMother (with_block (sentence_of arena.old) block).structure
        (made_of (sentence_of arena.old) root) }
    ensures pushed { IfOk result (λ _.
        sentence_of arena.new ≡ with_block (sentence_of arena.old) block) }
    ensures held { IfOk result (λ placed. ValueIsHeld (sentence_of arena.new) placed) }
    ensures root { IfOk result (λ placed. IsRootBy (kind_passive kind)
        (sentence_of arena.new).structure (made_of (sentence_of arena.old) root)
        (value_of (sentence_of arena.new) placed)) }
{
    let Ok(number) = arena.push(block) else {
        return Err(AllocError);
    };
    let slots = arena.resolve(number, root);
    Ok(root_for(arena, kind, slots))
}

/// Puts a draft's nodes behind the others, and its edge behind the others. The nodes by which it was made stand first.
pub(crate) fn push_draft(
    chart: &mut Chart,
    arena: &mut SentenceArena<'_>,
    draft: Draft,
) -> Result<(), Memory>
    requires old { OldIsHeld (sentence_of arena.old) draft.block }
    requires fits { Fits (sentence_of arena.old) (length draft.block) draft.root }
    requires mother { kind_passive draft.edge.kind ≡ true
        → HasMother (with_block (sentence_of arena.old) draft.block).structure
        (made_of (sentence_of arena.old) draft.root) }
    requires edge { IsEdgeAfter chart.old.words chart.old.edges draft.edge }
    ensures placed { IfOk result (λ _. IsPlaced (sentence_of arena.old) (sentence_of arena.new)
        draft chart.old.edges chart.new.edges) }
    ensures words { IfOk result (λ _. chart.new.words ≡ chart.old.words) }
{
    let edge = draft.edge;
    let root = store_unifier(arena, draft.block, draft.root, edge.kind)?;
    let Ok(_) = chart.push_edge(Edge { root, ..edge }) else {
        return Err(AllocError);
    };
    Ok(())
}
