//! A view of an arena.
ghost use Rattle.std.specs.Prelude.{◌≡◌};
ghost use Rattle.patr_arena.specs.Sentences.{sentence_of};

use crate::nodes::Nodes;
use crate::sentence::SentenceArena;
use crate::value::{Addr, Feature, Ref, Value};

/// What shows the structure of an arena.
#[derive(Clone, Copy)]
pub struct View<'v> {
    arena: &'v SentenceArena<'v>,
}

impl<'v> View<'v> {
    ghost use Rattle.patr_arena.specs.Views.{view_of};

    /// A view that shows this arena's structure.
    pub fn of(arena: &'v SentenceArena<'v>) -> View<'v>
        ensures { view_of result ≡ sentence_of arena.now }
    {
        View { arena }
    }
}

impl<'v> Nodes for View<'v> {
    ghost use Rattle.patr_arena.specs.Views.{view_of};

    ghost shown = { view_of };

    fn arcs(&self, at: Addr) -> &[Feature] {
        self.arena.arcs(at)
    }

    fn resolve(&self, block: u32, to: Ref) -> Value {
        self.arena.resolve(block, to)
    }

    fn number(&self, at: Addr) -> u64 {
        self.arena.number(at)
    }

    fn count(&self) -> u64 {
        self.arena.count()
    }

    fn blocks(&self) -> u32 {
        self.arena.blocks()
    }

    ghost lawful = { λ view. view.arena.now.lawful };
}
