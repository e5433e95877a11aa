//! A walk over a value.
ghost use Rattle.std.specs.Prelude.{◌≡◌, ◌++◌, length, reverse, nat_eq, true, false, IfOk};
ghost use Rattle.std.specs.HashSet.{contains};
ghost use Rattle.patr_model.specs.Stack.{events};
ghost use Rattle.patr_model.specs.Structure.{Node};
ghost use Rattle.patr_model.specs.Text.{tree_of};
ghost use Rattle.patr_arena.specs.declared.value.Value.TheVariants as value;
ghost use Rattle.patr_arena.specs.Shown.{IsHeld, ValueIsHeld, number_of, value_of};
ghost use Rattle.patr_canon.specs.Orders.{IsLook, look_of};
ghost use Rattle.patr_canon.specs.Walks.{AreSpelled, EventsAreSpelled, HasEntered, HasStepped, TaskIsReady, arc_tasks, events_seen};

use crate::event::Event;
use crate::order::{Arc, Look, arcs_in_order};
use patr_arena::{Addr, Nodes, Value};
use patr_text::{Id, Memory};
use std::alloc::Global;
use std::collections::HashSet;

/// What a walk has still to do: an arc, with the value that it leads to, or the end of a node.
#[derive(Clone, Copy)]
enum Task {
    Arc {
        first: bool,
        attribute: Id,
        to: Value,
    },
    Close(u64),
}

/// A walk: the nodes that are done, what it met, what it has still to do, the next at the end, and room for the arcs of
/// a node.
#[derive(Drop)]
pub(crate) struct Walk<'a> {
    done: HashSet<u64>,
    pub(crate) events: Vec<Event>,
    tasks: Vec<Task>,
    arcs: Vec<Arc<'a>>,
}

/// Puts a node's arcs before the other tasks.
fn push_arcs(arcs: &mut Vec<Arc>, tasks: &mut Vec<Task>) -> Result<(), Memory>
    ensures { IfOk result (λ _. reverse tasks.new.items ≡ arc_tasks true arcs.old.items ++ reverse tasks.old.items) }
{
    while let Some(arc) = arcs.pop() {
        tasks.push(Task::Arc {
            first: arcs.is_empty(),
            attribute: arc.attribute,
            to: arc.to,
        })?;
    }
    Ok(())
}

impl<'a> Walk<'a> {
    /// A walk that has met nothing.
    pub(crate) fn new(alloc: Global) -> Walk<'a> {
        Walk {
            done: HashSet::new(alloc),
            events: Vec::new(alloc),
            tasks: Vec::new(alloc),
            arcs: Vec::new(alloc),
        }
    }

    /// Begins a node that is not done.
    fn open<N: Nodes>(
        &mut self,
        look: &Look<'a>,
        nodes: &N,
        at: Addr,
        node: u64,
    ) -> Result<(), Memory>
        requires look { IsLook look.now }
        requires at { IsHeld (N.shown nodes.now) at.block at.offset }
        requires spelled { AreSpelled (length look.now.symbols.now) (N.shown nodes.now).structure (Node (number_of (N.shown nodes.now) at.block at.offset)) }
        requires node { node ≡ number_of (N.shown nodes.now) at.block at.offset }
        requires new { contains nat_eq self.old.done node ≡ false }
        ensures { IfOk result (λ _. HasEntered (N.shown nodes.now) look.now (value.Node at) self.old self.new) }
    {
        arcs_in_order(look, nodes, at, &mut self.arcs)?;
        self.events.push(Event::Open(node))?;
        self.tasks.push(Task::Close(node))?;
        push_arcs(&mut self.arcs, &mut self.tasks)?;
        Ok(())
    }

    /// Goes on with a value.
    fn enter<N: Nodes>(&mut self, look: &Look<'a>, nodes: &N, value: Value) -> Result<(), Memory>
        requires look { IsLook look.now }
        requires value { ValueIsHeld (N.shown nodes.now) value }
        requires spelled { AreSpelled (length look.now.symbols.now) (N.shown nodes.now).structure (value_of (N.shown nodes.now) value) }
        ensures { IfOk result (λ _. HasEntered (N.shown nodes.now) look.now value self.old self.new) }
    {
        match value {
            Value::Atom(atom) => {
                self.events.push(Event::Atom(atom))?;
                Ok(())
            }
            Value::Node(at) => {
                let node = nodes.number(at);
                if self.done.contains(&node) {
                    self.events.push(Event::Again(node))?;
                    Ok(())
                } else {
                    self.open(look, nodes, at, node)?;
                    Ok(())
                }
            }
        }
    }

    /// Does one task.
    fn step<N: Nodes>(&mut self, look: &Look<'a>, nodes: &N, task: Task) -> Result<(), Memory>
        requires look { IsLook look.now }
        requires task { TaskIsReady (N.shown nodes.now) (length look.now.symbols.now) task }
        ensures { IfOk result (λ _. HasStepped (N.shown nodes.now) look.now task self.old self.new) }
    {
        match task {
            Task::Close(node) => {
                self.done.insert(node)?;
                self.events.push(Event::Close)?;
                Ok(())
            }
            Task::Arc {
                first,
                attribute,
                to,
            } => {
                self.events.push(Event::Arc { first, attribute })?;
                self.enter(look, nodes, to)?;
                Ok(())
            }
        }
    }
}

/// Walks from a value anew. `walk` then has what it met, one thing after another; each node's arcs come in the order of
/// attributes.
pub(crate) fn walked<'a, N: Nodes>(
    walk: &mut Walk<'a>,
    look: &Look<'a>,
    nodes: &N,
    value: Value,
) -> Result<(), Memory>
    requires look { IsLook look.now }
    requires value { ValueIsHeld (N.shown nodes.now) value }
    requires spelled { AreSpelled (length look.now.symbols.now) (N.shown nodes.now).structure (value_of (N.shown nodes.now) value) }
    ensures events { IfOk result (λ _. events_seen walk.new.events.items ≡ events (tree_of (look_of look.now) (N.shown nodes.now).structure (value_of (N.shown nodes.now) value))) }
    ensures spelled { IfOk result (λ _. EventsAreSpelled (length look.now.symbols.now) (events_seen walk.new.events.items)) }
{
    walk.done.clear();
    walk.events.clear();
    walk.tasks.clear();
    walk.enter(look, nodes, value)?;
    while let Some(task) = walk.tasks.pop() {
        walk.step(look, nodes, task)?;
    }
    Ok(())
}
