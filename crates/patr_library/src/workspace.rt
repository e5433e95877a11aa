//! The arena in which the equations of one variant are solved.
ghost use Rattle.std.specs.Prelude.{◌≡◌, ◌<◌, IfOk, IfSome, IfNone, OnOk, length};
ghost use Rattle.std.specs.List.{sum_by};
ghost use Rattle.patr_model.specs.Subsumption.{Same};
ghost use Rattle.patr_arena.specs.Arenas.{shown_of};
ghost use Rattle.patr_arena.specs.Blocks.{LeadsBelow, OldIsHeld, OldRefIsHeld, nothing, with_block};
ghost use Rattle.patr_arena.specs.Shown.{IsHeld, ValueIsHeld, value_of};
ghost use Rattle.patr_arena.specs.declared.value.Ref.TheVariants as ref;
ghost use Rattle.patr_unify.specs.Copying.{Fits, made_of};
ghost use Rattle.patr_library.specs.Own.{IsRooted, own_nodes, own_value};
ghost use Rattle.patr_library.specs.Solved.{HaveNoUnifier, IsMadeOf, IsNew, IsSlots, AreUnified};
ghost use Rattle.patr_library.specs.Workspaces.{IsWorkspace};

use crate::copying::{compact, count_arcs, push};
use crate::stating::Rooted;
use patr_arena::{Addr, Block, Memory, Nodes, PlainArena, Ref, Value};
use patr_scratch::Scratch;
use patr_unify::{Decision, Made, Steps, copy, decide};
use std::alloc::{AllocError, Global};
use std::marker::Brand;
use std::sync::ledger::{Blank, Ledger};

/// A block without old addresses, and a node of it.
#[derive(Drop)]
pub(crate) struct Least {
    pub(crate) block: Block,
    pub(crate) root: u32,
}

/// Blocks one behind another, the addresses of their nodes, and how many arcs these nodes have.
#[derive(Drop)]
pub(crate) struct Workspace {
    pub(crate) arena: PlainArena,
    pub(crate) places: Vec<Addr>,
    pub(crate) arcs: u64,
}

/// The offset of a value that is a node of its block.
fn offset_of(root: Ref) -> u32
    requires { IsNew root }
    ensures { root ≡ ref.New result }
{
    match root {
        Ref::New(offset) => offset,
        _ => unreachable!(),
    }
}

impl Workspace {
    /// A workspace without blocks.
    pub(crate) fn new(alloc: Global) -> Workspace
        ensures empty { shown_of result.arena ≡ nothing }
        ensures whole { IsWorkspace result }
    {
        Workspace {
            arena: PlainArena::new(alloc),
            places: Vec::new(alloc),
            arcs: 0,
        }
    }

    /// Puts a block behind the others, and answers its value.
    pub(crate) fn put(&mut self, block: Block, root: Ref) -> Result<Value, Memory>
        requires whole { IsWorkspace self.old }
        requires block { OldIsHeld (shown_of self.old.arena) block }
        requires root { Fits (shown_of self.old.arena) (length block) root }
        ensures whole { OnOk result (IsWorkspace self.new) }
        ensures pushed { OnOk result (shown_of self.new.arena ≡ with_block (shown_of self.old.arena) block) }
        ensures value { IfOk result (λ value. value_of (shown_of self.new.arena) value ≡ made_of (shown_of self.old.arena) root) }
        ensures held { IfOk result (λ value. ValueIsHeld (shown_of self.new.arena) value) }
    {
        let more = count_arcs(&block)?;
        self.arcs = self.arcs.checked_add(more).ok_or(AllocError)?;
        let number = push(&mut self.arena, &mut self.places, block)?;
        Ok(self.arena.resolve(number, root))
    }

    /// The unifier of a node and a value that stand here; its steps are not counted. The scratch gets room for all
    /// nodes on both sides, which is there already but for the largest workspaces.
    fn unifier<L: Ledger>(
        &self,
        alloc: Global,
        left: Addr,
        right: Value,
        scratch: &mut Scratch,
        blank: Blank,
    ) -> Result<Option<Made>, Memory>
        requires whole { IsWorkspace self.now }
        requires left { IsHeld (shown_of self.now.arena) left.block left.offset }
        requires right { ValueIsHeld (shown_of self.now.arena) right }
        requires name { blank.name ≡ L.name }
        requires parts { blank.parts ≡ L.parts }
        requires any { 0 < blank.parts }
        ensures some { IfOk result (λ found. IfSome found (λ made. IsMadeOf (shown_of self.now.arena) left right made)) }
        ensures none { IfOk result (λ found. IfNone found (HaveNoUnifier (shown_of self.now.arena) left right)) }
    {
        let nodes = self.arena.count();
        let visits = nodes.checked_mul(2).ok_or(AllocError)?;
        let arcs = self.arcs.checked_mul(2).ok_or(AllocError)?;
        scratch.reserve(nodes, visits, arcs)?;
        let mut steps = Steps::<L>::new(blank);
        match decide(&self.arena, left, &[], right, scratch, &mut steps) {
            Decision::NoUnifier => Ok(None),
            Decision::Solvable => {
                let made = copy(alloc, &self.arena, left, scratch)?;
                Ok(Some(made))
            }
        }
    }

    /// The unifier of a node with slots, which stands here, and a block's value.
    pub(crate) fn unify(
        &mut self,
        alloc: Global,
        left: Value,
        right: Rooted,
        scratch: &mut Scratch,
    ) -> Result<Option<Value>, Memory>
        requires whole { IsWorkspace self.old }
        requires left { IsSlots (shown_of self.old.arena) left }
        requires right { IsRooted right.block right.root }
        ensures whole { OnOk result (IsWorkspace self.new) }
        ensures unified { IfOk result (AreUnified (shown_of self.old.arena) (shown_of self.new.arena) left right.block right.root) }
    {
        let Value::Node(node) = left else {
            unreachable!();
        };
        let stated = self.put(right.block, right.root)?;
        let blank = Blank::new(1);
        let Some(made) = self.unifier::<Brand>(alloc, node, stated, scratch, blank)? else {
            return Ok(None);
        };
        let whole = self.put(made.block, made.root)?;
        Ok(Some(whole))
    }

    /// A node with slots and what it reaches, in one block.
    pub(crate) fn compacted(&self, alloc: Global, from: Value) -> Result<Least, Memory>
        requires whole { IsWorkspace self.now }
        requires from { IsSlots (shown_of self.now.arena) from }
        ensures rooted { IfOk result (λ made. IsRooted made.block (ref.New made.root)) }
        ensures same { IfOk result (λ made. Same (shown_of self.now.arena).structure (value_of (shown_of self.now.arena) from) (own_nodes made.block) (own_value (ref.New made.root))) }
    {
        let copy = compact(alloc, &self.arena, &self.places, from)?;
        let root = offset_of(copy.root);
        Ok(Least {
            block: copy.block,
            root,
        })
    }
}
