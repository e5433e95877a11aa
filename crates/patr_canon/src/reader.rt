//! The nodes that the events of a text build.
ghost use Rattle.std.specs.Prelude.{◌≡◌, ◌<◌, ◌+◌, ◌++◌, ◌∷◌, [], ℕ, List, length, IfOk, None, option_map};
ghost use Rattle.patr_model.specs.Reading.{numbered_place};
ghost use Rattle.patr_model.specs.Stack.{Closes, OfArc, Opens, put_value};
ghost use Rattle.patr_model.specs.Text.{place_in};
ghost use Rattle.patr_canon.specs.Orders.{ArePlaces};
ghost use Rattle.patr_canon.specs.Readers.{HasFed, building_seen, nodes_seen, stack_seen, target_seen};
ghost use Rattle.patr_canon.specs.Walks.{event_seen};

use crate::event::Event;
use patr_text::{Id, Memory};
use std::alloc::{AllocError, Global};
use std::collections::HashMap;

/// What an arc leads to: an atom, or a node that was read before, by its place among those.
#[derive(Clone, Copy)]
pub(crate) enum Target {
    Atom(Id),
    Node(u32),
}

/// An arc that was read.
#[derive(Clone, Copy)]
pub(crate) struct Link {
    pub(crate) attribute: Id,
    pub(crate) to: Target,
}

/// A node that has begun: its number or 0, its arcs so far, and the attribute whose value is read.
#[derive(Drop)]
struct Begun {
    number: u64,
    links: Vec<Link>,
    attribute: Id,
}

/// What was read so far: the nodes that have begun, the last at the end, the root once it is read, the nodes that are
/// done, and for each number the first of these that has it.
#[derive(Drop)]
pub(crate) struct Reader {
    begun: Vec<Begun>,
    pub(crate) root: Option<Target>,
    pub(crate) nodes: Vec<Vec<Link>>,
    places: HashMap<u64, u32>,
}

/// Notes the place of a node behind the others, unless its number has one.
fn note(places: &mut HashMap<u64, u32>, number: u64, place: u32) -> Result<(), Memory>
    ensures { IfOk result (λ _. (numbers : List ℕ) → ArePlaces places.old numbers → length numbers ≡ place → ArePlaces places.new (numbers ++ number ∷ [])) }
{
    if places.contains_key(&number) {
        return Ok(());
    }
    places.insert(number, place)?;
    Ok(())
}

impl Reader {
    /// A reader of which nothing was read.
    pub(crate) fn new(alloc: Global) -> Reader
        ensures places { ArePlaces result.places [] }
        ensures begun { result.begun.items ≡ [] }
        ensures root { result.root ≡ None }
        ensures nodes { result.nodes.items ≡ [] }
    {
        Reader {
            begun: Vec::new(alloc),
            root: None,
            nodes: Vec::new(alloc),
            places: HashMap::new(alloc),
        }
    }

    /// The place of the next node.
    fn next_place(&self) -> Result<u32, Memory>
        ensures { IfOk result (λ place. place ≡ length self.now.nodes.items) }
    {
        let place = self.nodes.len();
        if place >= u32::MAX as usize {
            return Err(AllocError);
        }
        Ok(place as u32)
    }

    /// The node that has this number; where none has, a place behind the nodes.
    fn again(&self, number: u64) -> Result<Target, Memory>
        ensures { IfOk result (λ target. (numbers : List ℕ) → ArePlaces self.now.places numbers → target_seen target ≡ numbered_place (nodes_seen self.now.nodes.items) (place_in numbers number)) }
    {
        if let Some(place) = self.places.get(&number) {
            return Ok(Target::Node(*place));
        }
        let place = self.next_place()?;
        Ok(Target::Node(place))
    }

    /// Takes a value, as that of the last begun node's arc, or as the root.
    fn put(&mut self, to: Target) -> Result<(), Memory>
        ensures put { IfOk result (λ _. (numbers : List ℕ) → building_seen self.new numbers ≡ put_value (stack_seen self.old.begun.items) (option_map target_seen self.old.root) (nodes_seen self.old.nodes.items) numbers (target_seen to)) }
        ensures same { IfOk result (λ _. (self.new.places ≡ self.old.places) × (self.new.nodes ≡ self.old.nodes)) }
    {
        let Some(mut begun) = self.begun.pop() else {
            self.root = Some(to);
            return Ok(());
        };
        let attribute = begun.attribute;
        begun.links.push(Link { attribute, to })?;
        self.begun.push(begun)?;
        Ok(())
    }

    /// Begins a node.
    fn begin(&mut self, alloc: Global, number: u64) -> Result<(), Memory>
        ensures { IfOk result (λ _. HasFed (Opens number) self.old self.new) }
    {
        let begun = Begun {
            number,
            links: Vec::new(alloc),
            attribute: Id(0),
        };
        self.begun.push(begun)?;
        Ok(())
    }

    /// Takes the attribute whose value is read next.
    fn set(&mut self, attribute: Id, first: bool) -> Result<(), Memory>
        ensures { IfOk result (λ _. HasFed (OfArc first attribute.0) self.old self.new) }
    {
        let Some(mut begun) = self.begun.pop() else {
            return Ok(());
        };
        begun.attribute = attribute;
        self.begun.push(begun)?;
        Ok(())
    }

    /// Ends the last begun node: it is one more node, and a value that is read.
    fn end(&mut self) -> Result<(), Memory>
        ensures { IfOk result (λ _. HasFed Closes self.old self.new) }
    {
        let Some(begun) = self.begun.pop() else {
            return Ok(());
        };
        let place = self.next_place()?;
        note(&mut self.places, begun.number, place)?;
        self.nodes.push(begun.links)?;
        self.put(Target::Node(place))
    }

    /// Takes one event.
    pub(crate) fn feed(&mut self, alloc: Global, event: Event) -> Result<(), Memory>
        ensures { IfOk result (λ _. HasFed (event_seen event) self.old self.new) }
    {
        match event {
            Event::Atom(atom) => self.put(Target::Atom(atom)),
            Event::Again(number) => {
                let node = self.again(number)?;
                self.put(node)
            }
            Event::Open(number) => self.begin(alloc, number),
            Event::Arc { first, attribute } => self.set(attribute, first),
            Event::Close => self.end(),
        }
    }
}
