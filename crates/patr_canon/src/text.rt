//! The canonical text of a value.
ghost use Rattle.std.specs.Prelude.{◌≡◌, ℕ, ◌<◌, ◌++◌, ◌∷◌, [], length, flat_map, IfOk, Some};
ghost use Rattle.std.specs.String.{string_bytes};
ghost use Rattle.patr_model.specs.Stack.{event_text, met_again, opened, separator};
ghost use Rattle.patr_model.specs.Table.{table_look};
ghost use Rattle.patr_model.specs.Text.{canonical, kept, number_mark, numeral, printed};
ghost use Rattle.patr_arena.specs.Paths.{ids};
ghost use Rattle.patr_arena.specs.Shown.{ValueIsHeld, value_of};
ghost use Rattle.patr_canon.specs.Numbers.{AreOnce, EventIsNumbered, EventsAreNumbered, number_by, number_or_none};
ghost use Rattle.patr_canon.specs.Orders.{look_of};
ghost use Rattle.patr_canon.specs.Walks.{AreSpelled, EventIsSpelled, EventsAreSpelled, event_seen, events_seen};

use crate::event::Event;
use crate::numbers::{met_again, number_nodes, number_of};
use crate::order::Look;
use crate::printed::write_printed;
use crate::walk::{Walk, walked};
use indexmap::IndexSet;
use patr_arena::{Nodes, Value};
use patr_text::{Id, Memory, Symbols};
use std::alloc::Global;
use std::collections::HashSet;

/// Appends a number, behind a `#`.
fn write_number(number: usize, out: &mut String) -> Result<(), Memory>
    requires { 0 < number }
    ensures { IfOk result (λ _. string_bytes out.new ≡ string_bytes out.old ++ 35 ∷ numeral number) }
{
    out.push('#')?;
    write!(out, "{number}")?;
    Ok(())
}

/// Appends what a node begins with: its number, where it has one, and a bracket.
fn write_opening(number: Option<usize>, out: &mut String) -> Result<(), Memory>
    requires { (n : ℕ) → number ≡ Some n → 0 < n }
    ensures { IfOk result (λ _. string_bytes out.new ≡ string_bytes out.old ++ (number_mark (number_or_none number) ++ 91 ∷ [])) }
{
    if let Some(number) = number {
        write_number(number, out)?;
        out.push(' ')?;
    }
    out.push('[')
}

/// Appends an attribute, with what separates it from an arc before.
fn write_attribute(first: bool, text: &str, out: &mut String) -> Result<(), Memory>
    ensures { IfOk result (λ _. string_bytes out.new ≡ string_bytes out.old ++ (separator first ++ (printed text.now ++ 58 ∷ 32 ∷ []))) }
{
    if !first {
        out.push(' ')?;
    }
    write_printed(text, out)?;
    out.push_str(": ")
}

/// Appends what a walk met.
fn write_event(
    look: &Look,
    numbered: &IndexSet<u64>,
    event: Event,
    out: &mut String,
) -> Result<(), Memory>
    requires spelled { EventIsSpelled (length look.now.symbols.now) (event_seen event) }
    requires numbered { EventIsNumbered numbered.now.keys (event_seen event) }
    ensures { IfOk result (λ _. string_bytes out.new ≡ string_bytes out.old ++ event_text (look_of look.now) (number_by numbered.now.keys) (event_seen event)) }
{
    match event {
        Event::Atom(atom) => write_printed(look.symbols.text(atom), out),
        Event::Again(node) => write_number(number_of(numbered, node).unwrap(), out),
        Event::Open(node) => write_opening(number_of(numbered, node), out),
        Event::Arc { first, attribute } => {
            write_attribute(first, look.symbols.text(attribute), out)
        }
        Event::Close => out.push(']'),
    }
}

/// Appends the text of what a walk met.
fn write_events(
    look: &Look,
    events: &[Event],
    numbered: &IndexSet<u64>,
    out: &mut String,
) -> Result<(), Memory>
    requires spelled { EventsAreSpelled (length look.now.symbols.now) (events_seen events.now) }
    requires numbered { EventsAreNumbered numbered.now.keys (events_seen events.now) }
    ensures { IfOk result (λ _. string_bytes out.new ≡ string_bytes out.old ++ flat_map (event_text (look_of look.now) (number_by numbered.now.keys)) (events_seen events.now)) }
{
    for event in events {
        write_event(look, numbered, *event, out)?;
    }
    Ok(())
}

/// What the writing of a value's text works with: a walk, the nodes that are met again, and those that have numbers.
/// One text after another takes the same memory.
#[derive(Drop)]
pub struct TextRoom<'a> {
    walk: Walk<'a>,
    again: HashSet<u64>,
    numbered: IndexSet<u64>,
}

impl<'a> TextRoom<'a> {
    /// Room that takes no memory yet.
    pub fn new(alloc: Global) -> TextRoom<'a> {
        TextRoom {
            walk: Walk::new(alloc),
            again: HashSet::new(alloc),
            numbered: IndexSet::new(alloc),
        }
    }
}

/// Appends the canonical text of a value that is held, as `canonical` answers it. What stood in `room` does not matter.
/// Fails for want of memory alone.
pub fn write_canonical<'a, N: Nodes>(
    alloc: Global,
    room: &mut TextRoom<'a>,
    symbols: &'a Symbols,
    order: &'a [Id],
    nodes: &N,
    value: Value,
    out: &mut String,
) -> Result<(), Memory>
    requires value { ValueIsHeld (N.shown nodes.now) value }
    requires spelled { AreSpelled (length symbols.now) (N.shown nodes.now).structure (value_of (N.shown nodes.now) value) }
    ensures { IfOk result (λ _. string_bytes out.new ≡ string_bytes out.old ++ canonical (table_look symbols.now (ids order.now)) (N.shown nodes.now).structure (value_of (N.shown nodes.now) value)) }
{
    let look = Look::new(alloc, symbols, order)?;
    walked(&mut room.walk, &look, nodes, value)?;
    let events = room.walk.events.as_slice();
    met_again(events, &mut room.again)?;
    number_nodes(events, &room.again, &mut room.numbered)?;
    write_events(&look, events, &room.numbered, out)
}

/// The canonical text of a value that is held. Two values have one text, under one order of attributes, exactly where
/// they are the same structure. `symbols` has the text of each atom and attribute that paths from the value lead to.
/// Attributes of `order` come first, by their first place in it, and then the others by the bytes of their texts.
/// Fails for want of memory alone.
///
/// The work stands in lists, so no depth of a structure is refused. Each node is visited once and its arcs are sorted
/// once.
pub fn canonical<N: Nodes>(
    alloc: Global,
    symbols: &Symbols,
    order: &[Id],
    nodes: &N,
    value: Value,
) -> Result<String, Memory>
    requires value { ValueIsHeld (N.shown nodes.now) value }
    requires spelled { AreSpelled (length symbols.now) (N.shown nodes.now).structure (value_of (N.shown nodes.now) value) }
    ensures { IfOk result (λ text. string_bytes text ≡ canonical (table_look symbols.now (ids order.now)) (N.shown nodes.now).structure (value_of (N.shown nodes.now) value)) }
{
    let mut text = String::new(alloc);
    let mut room = TextRoom::new(alloc);
    write_canonical(alloc, &mut room, symbols, order, nodes, value, &mut text)?;
    Ok(text)
}
