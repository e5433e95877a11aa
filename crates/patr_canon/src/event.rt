//! The walk of a value, one thing after another.

ghost use Rattle.std.specs.Prelude.{◌≡◌};
ghost use Rattle.patr_canon.specs.Numbers.{again_of, opened_of};
ghost use Rattle.patr_canon.specs.Walks.{event_seen};

use patr_text::Id;

/// What a walk meets: an atom, a node that is done, a node that begins, an attribute, or the end of a node.
/// Nodes are named by their places.
#[derive(Clone, Copy, Debug, PartialEq, Eq)]
pub(crate) enum Event {
    Atom(Id),
    Again(u64),
    Open(u64),
    Arc { first: bool, attribute: Id },
    Close,
}

impl Event {
    /// The node that is met again.
    pub(crate) fn again(self) -> Option<u64>
        ensures { result ≡ again_of (event_seen self) }
    {
        match self {
            Event::Again(node) => Some(node),
            _ => None,
        }
    }

    /// The node that begins.
    pub(crate) fn opened(self) -> Option<u64>
        ensures { result ≡ opened_of (event_seen self) }
    {
        match self {
            Event::Open(node) => Some(node),
            _ => None,
        }
    }
}
